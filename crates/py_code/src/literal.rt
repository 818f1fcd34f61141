//! The constants of a code.

ghost use Rattle.std.specs.Prelude.{◌≡◌, ◌==◌, [], ◌∷◌, ◌++◌, length, slice_get, IfOk, OnOk, OnErr, option_copied};
ghost use Rattle.std.specs.List.{list_all};
ghost use Rattle.std.specs.Slice.Iter.{iter_rest};
ghost use Rattle.py_code.specs.BuiltinNames.{builtin_name};
ghost use Rattle.py_code.specs.Literals.{AreSame, constant_of, is_text, literals_of};

use crate::list::NoMemory;
use crate::text::PyText;
use std::alloc::Global;
use std::slice;

/// A function that the machine itself carries out.
#[derive(Clone, Copy, Debug, PartialEq, Eq)]
pub enum BuiltinFn {
    Len,
    Repr,
    Str,
    IsInstance,
    Iter,
    Next,
    Range,
    /// What a class statement calls.
    BuildClass,
    /// A generator's `send`.
    Send,
    /// A generator's `throw`.
    Throw,
    /// A generator's `close`.
    Close,
    /// An asynchronous generator's `asend`.
    ASend,
    /// An asynchronous generator's `athrow`.
    AThrow,
    /// An asynchronous generator's `aclose`.
    AClose,
}

impl BuiltinFn {
    /// Its name.
    pub fn name(self) -> &'static [u8]
        ensures { result.now ≡ builtin_name self }
    {
        match self {
            BuiltinFn::Len => b"len".as_slice(),
            BuiltinFn::Repr => b"repr".as_slice(),
            BuiltinFn::Str => b"str".as_slice(),
            BuiltinFn::IsInstance => b"isinstance".as_slice(),
            BuiltinFn::Iter => b"iter".as_slice(),
            BuiltinFn::Next => b"next".as_slice(),
            BuiltinFn::Range => b"range".as_slice(),
            BuiltinFn::BuildClass => b"buildclass".as_slice(),
            BuiltinFn::Send => b"send".as_slice(),
            BuiltinFn::Throw => b"throw".as_slice(),
            BuiltinFn::Close => b"close".as_slice(),
            BuiltinFn::ASend => b"asend".as_slice(),
            BuiltinFn::AThrow => b"athrow".as_slice(),
            BuiltinFn::AClose => b"aclose".as_slice(),
        }
    }
}

/// A constant.
#[derive(Drop)]
#[cycle(literal)]
pub enum Literal {
    None,
    Bool(bool),
    Int(i128),
    Str(PyText),
    Tuple(LiteralList),
    /// The place of a code in the list of codes, from 0.
    Code(usize),
    Builtin(BuiltinFn),
}

impl Literal {
    /// Whether it is a text.
    pub fn is_text(&self) -> bool
        ensures { result ≡ is_text self.now }
    {
        match self {
            Literal::Str(_) => true,
            Literal::None => false,
            Literal::Bool(_) => false,
            Literal::Int(_) => false,
            Literal::Tuple(_) => false,
            Literal::Code(_) => false,
            Literal::Builtin(_) => false,
        }
    }

    /// The same constant in memory of its own.
    #[cycle(copy)]
    pub fn copy(&self, alloc: Global) -> Result<Literal, NoMemory>
        ensures { IfOk result (λ copy. constant_of copy ≡ constant_of self.now) }
    {
        match self {
            Literal::None => Ok(Literal::None),
            Literal::Bool(truth) => Ok(Literal::Bool(*truth)),
            Literal::Int(number) => Ok(Literal::Int(*number)),
            Literal::Str(text) => Ok(Literal::Str(text.copy(alloc)?)),
            Literal::Tuple(items) => Ok(Literal::Tuple(items.copy(alloc)?)),
            Literal::Code(number) => Ok(Literal::Code(*number)),
            Literal::Builtin(function) => Ok(Literal::Builtin(*function)),
        }
    }
}

/// Constants in order.
#[derive(Drop)]
#[cycle(literal)]
pub struct LiteralList {
    items: Vec<Literal>,
}

impl LiteralList {
    /// No constants, which takes no memory.
    pub fn new(alloc: Global) -> LiteralList
        ensures { literals_of result ≡ [] }
    {
        LiteralList {
            items: Vec::new(alloc),
        }
    }

    /// How many constants there are.
    pub fn len(&self) -> usize
        ensures { result ≡ length (literals_of self.now) }
    {
        self.items.len()
    }

    /// Whether there are none.
    pub fn is_empty(&self) -> bool
        ensures { result ≡ (length (literals_of self.now) == 0) }
    {
        self.items.is_empty()
    }

    /// The constants in order, one after another.
    pub fn iter(&self) -> slice::Iter<'_, Literal>
        ensures { iter_rest result ≡ literals_of self.now }
    {
        self.items.iter()
    }

    /// The constant at a place, from 0.
    pub fn get(&self, at: usize) -> Option<&Literal>
        ensures { option_copied result ≡ slice_get (literals_of self.now) at }
    {
        self.items.get(at)
    }

    /// The constants as a slice.
    pub fn as_slice(&self) -> &[Literal]
        ensures { result.now ≡ literals_of self.now }
    {
        self.items.as_slice()
    }

    /// Whether each is a text.
    pub fn all_text(&self) -> bool
        ensures { result ≡ list_all is_text (literals_of self.now) }
    {
        self.items.iter().all(|item| item.is_text())
    }

    /// The same constants in a list of their own.
    #[cycle(copy)]
    pub fn copy(&self, alloc: Global) -> Result<LiteralList, NoMemory>
        ensures { IfOk result (λ copy. AreSame copy self.now) }
    {
        let mut copy = LiteralList::new(alloc);
        for literal in &self.items {
            copy.push(literal.copy(alloc)?)?;
        }
        Ok(copy)
    }

    /// Puts a constant behind the others.
    pub fn push(&mut self, literal: Literal) -> Result<(), NoMemory>
        ensures added { OnOk result (literals_of self.new ≡ literals_of self.old ++ literal ∷ []) }
        ensures err { OnErr result (literals_of self.new ≡ literals_of self.old) }
    {
        self.items.push(literal)?;
        Ok(())
    }
}
