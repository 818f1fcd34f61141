//! What can be read off payloads: numbers, texts, what classes, functions and the like hold, and whether two values are one key.

ghost use Rattle.std.specs.Prelude.{◌≡◌, FitsSigned, IfSome, option_copied};
ghost use Rattle.std.specs.Int.{w128};
ghost use Rattle.py_objects.specs.Values.{class_body_of, exception_of, function_of, generator_of, is_none, manager_of, number_of, same_value, text_of, tuple_of};

use crate::payload::{ClassBody, CoroBody, ExceptionBody, FunctionBody, ManagerBody, Payload};
use crate::refs::ObjList;
use py_code::{PyText, same_text};

impl Payload {
    /// A number's value: True counts as 1 and False as 0.
    pub fn number(&self) -> Option<i128>
        ensures value { result ≡ number_of self.now }
        ensures fits { IfSome result (FitsSigned w128) }
    {
        match self {
            Payload::Bool(flag) => Some(i128::from(*flag)),
            Payload::Int(number) => Some(*number),
            _ => None,
        }
    }

    /// The characters of a text.
    pub fn text(&self) -> Option<&PyText>
        ensures { option_copied result ≡ text_of self.now }
    {
        match self {
            Payload::Str(text) => Some(text),
            _ => None,
        }
    }

    /// The items of a tuple.
    pub fn tuple(&self) -> Option<&ObjList>
        ensures { option_copied result ≡ tuple_of self.now }
    {
        match self {
            Payload::Tuple(items) => Some(items),
            _ => None,
        }
    }

    /// What a class holds.
    pub fn class(&self) -> Option<&ClassBody>
        ensures { option_copied result ≡ class_body_of self.now }
    {
        match self {
            Payload::Class(body) => Some(body.value()),
            _ => None,
        }
    }

    /// What a function holds.
    pub fn function(&self) -> Option<&FunctionBody>
        ensures { option_copied result ≡ function_of self.now }
    {
        match self {
            Payload::Function(body) => Some(body),
            _ => None,
        }
    }

    /// What a context manager holds.
    pub fn manager(&self) -> Option<&ManagerBody>
        ensures { option_copied result ≡ manager_of self.now }
    {
        match self {
            Payload::Manager(body) => Some(body),
            _ => None,
        }
    }

    /// What a generator holds.
    pub fn generator(&self) -> Option<&CoroBody>
        ensures { option_copied result ≡ generator_of self.now }
    {
        match self {
            Payload::Generator(body) => Some(body),
            _ => None,
        }
    }

    /// What an exception holds.
    pub fn exception(&self) -> Option<&ExceptionBody>
        ensures { option_copied result ≡ exception_of self.now }
    {
        match self {
            Payload::Exception(body) => Some(body.value()),
            _ => None,
        }
    }

    /// Whether it is `None`.
    fn is_none(&self) -> bool
        ensures { result ≡ is_none self.now }
    {
        matches!(self, Payload::None)
    }

    /// Whether two values are one key, as values go.
    pub fn same_value(&self, other: &Payload) -> bool
        ensures { result ≡ same_value self.now other.now }
    {
        if self.is_none() && other.is_none() {
            return true;
        }
        if let (Some(left), Some(right)) = (self.number(), other.number()) {
            return left == right;
        }
        match (self.text(), other.text()) {
            (Some(left), Some(right)) => same_text(left, right),
            _ => false,
        }
    }
}
