//! The representation of objects, after a text.

ghost use Rattle.std.specs.Prelude.{◌≡◌, ◌++◌, encode_utf8_all, codes, decimal, if◌then◌else◌, option_copied};
ghost use Rattle.std.specs.Fmt.{signed_decimal};
ghost use Rattle.py_exceptions.specs.Repr.{coro_front, coro_of, dict_of, in_parentheses, items_of, joined, pair_by, payload_of, repr_within, tuple_of};
ghost use Rattle.py_exceptions.specs.Writing.{Adds, builtin_text, class_text, enclosed_text, inner_at, pairs_text, payload_text};

use crate::quoted::push_quoted;
use py_code::{BuiltinFn, NoMemory, PyText, push_utf8, text_of};
use py_objects::{CoroBody, CoroKind, Payload, PyObjectRef, PyTypeRef};

/// What an object is, where it is there.
pub fn payload_at(objects: &[Payload], object: PyObjectRef) -> Option<&Payload>
    ensures { option_copied result ≡ payload_of objects.now object }
{
    objects.get(object.number as usize)
}

/// Puts the representation of an object after the text. It may hold others so deep; nothing
/// stands for an object that isn't there.
#[cycle(repr)]
pub(crate) fn push_repr(
    out: &mut String,
    objects: &[Payload],
    object: PyObjectRef,
    depth: u32,
) -> Result<(), NoMemory>
    ensures { Adds result out.old out.new (repr_within depth objects.now object) }
{
    let Some(payload) = payload_at(objects, object) else {
        return Ok(());
    };
    push_payload(out, objects, payload, depth)
}

#[cycle(repr)]
fn push_payload(
    out: &mut String,
    objects: &[Payload],
    payload: &Payload,
    depth: u32,
) -> Result<(), NoMemory>
    ensures { Adds result out.old out.new (payload_text depth objects.now payload.now) }
{
    match payload {
        Payload::None => push_words(out, "None"),
        Payload::Bool(value) => push_bool(out, *value),
        Payload::Int(number) => push_number(out, *number),
        Payload::Str(text) => push_quoted(out, text),
        Payload::Tuple(items) => push_tuple(out, objects, items.as_slice(), depth),
        Payload::Dict(pairs) => push_dict(out, objects, pairs.as_slice(), depth),
        Payload::Class(class) => push_named(out, "<class '", &class.value().name, "'>"),
        Payload::Function(function) => push_named(out, "<function ", &function.name, ">"),
        Payload::Builtin(function) => push_builtin(out, *function),
        Payload::Code(place) => push_code(out, *place),
        Payload::Manager(manager) => push_named(out, "<manager ", &manager.name, ">"),
        Payload::Frame(_) => push_words(out, "<frame>"),
        Payload::Generator(coro) => push_coro(out, coro),
        Payload::Exception(exception) => {
            let exception = exception.value();
            push_class_name(out, objects, exception.class)?;
            let items = items_at(objects, exception.args);
            push_in_parentheses(out, objects, items, depth)
        }
        Payload::Traceback(_) => push_words(out, "<traceback>"),
    }
}

#[cycle(repr)]
fn push_tuple(
    out: &mut String,
    objects: &[Payload],
    items: &[PyObjectRef],
    depth: u32,
) -> Result<(), NoMemory>
    ensures { Adds result out.old out.new (tuple_of (inner_at depth objects.now) items.now) }
{
    if depth == 0 {
        return push_words(out, "(...)");
    }
    out.push_str("(")?;
    push_joined(out, objects, items, depth - 1)?;
    if items.len() == 1 {
        out.push_str(",")?;
    }
    push_words(out, ")")
}

#[cycle(repr)]
fn push_in_parentheses(
    out: &mut String,
    objects: &[Payload],
    items: &[PyObjectRef],
    depth: u32,
) -> Result<(), NoMemory>
    ensures { Adds result out.old out.new (in_parentheses (inner_at depth objects.now) items.now) }
{
    if depth == 0 {
        return push_words(out, "(...)");
    }
    push_enclosed(out, objects, items, depth - 1)
}

/// Puts the representations of objects after the text, in parentheses.
#[cycle(repr)]
pub(crate) fn push_enclosed(
    out: &mut String,
    objects: &[Payload],
    items: &[PyObjectRef],
    depth: u32,
) -> Result<(), NoMemory>
    ensures { Adds result out.old out.new (enclosed_text depth objects.now items.now) }
{
    out.push_str("(")?;
    push_joined(out, objects, items, depth)?;
    push_words(out, ")")
}

#[cycle(repr)]
fn push_joined(
    out: &mut String,
    objects: &[Payload],
    items: &[PyObjectRef],
    depth: u32,
) -> Result<(), NoMemory>
    ensures { Adds result out.old out.new (joined (repr_within depth objects.now) items.now) }
{
    let Some((first, rest)) = items.split_first() else {
        return Ok(());
    };
    push_repr(out, objects, *first, depth)?;
    for item in rest {
        out.push_str(", ")?;
        push_repr(out, objects, *item, depth)?;
    }
    Ok(())
}

#[cycle(repr)]
fn push_dict(
    out: &mut String,
    objects: &[Payload],
    pairs: &[(PyObjectRef, PyObjectRef)],
    depth: u32,
) -> Result<(), NoMemory>
    ensures { Adds result out.old out.new (dict_of (inner_at depth objects.now) pairs.now) }
{
    if depth == 0 {
        return push_words(out, "{...}");
    }
    out.push_str("{")?;
    push_pairs(out, objects, pairs, depth - 1)?;
    push_words(out, "}")
}

#[cycle(repr)]
fn push_pairs(
    out: &mut String,
    objects: &[Payload],
    pairs: &[(PyObjectRef, PyObjectRef)],
    depth: u32,
) -> Result<(), NoMemory>
    ensures { Adds result out.old out.new (pairs_text depth objects.now pairs.now) }
{
    let Some((first, rest)) = pairs.split_first() else {
        return Ok(());
    };
    push_pair(out, objects, *first, depth)?;
    for pair in rest {
        out.push_str(", ")?;
        push_pair(out, objects, *pair, depth)?;
    }
    Ok(())
}

#[cycle(repr)]
fn push_pair(
    out: &mut String,
    objects: &[Payload],
    pair: (PyObjectRef, PyObjectRef),
    depth: u32,
) -> Result<(), NoMemory>
    ensures { Adds result out.old out.new (pair_by (repr_within depth objects.now) pair) }
{
    let (key, value) = pair;
    push_repr(out, objects, key, depth)?;
    out.push_str(": ")?;
    push_repr(out, objects, value, depth)
}

/// What stands before the name of a suspended activation.
fn coro_front(kind: CoroKind) -> &'static str
    ensures { result.now ≡ coro_front kind }
{
    match kind {
        CoroKind::Generator => "<generator object ",
        CoroKind::Coroutine => "<coroutine object ",
        CoroKind::AsyncGen => "<async generator object ",
    }
}

fn push_coro(out: &mut String, coro: &CoroBody) -> Result<(), NoMemory>
    ensures { Adds result out.old out.new (coro_of coro.now) }
{
    push_named(out, coro_front(coro.kind), &coro.name, " at ")?;
    write!(out, "{}>", coro.activation)?;
    Ok(())
}

/// Puts words after the text.
pub(crate) fn push_words(out: &mut String, words: &str) -> Result<(), NoMemory>
    ensures { Adds result out.old out.new words.now }
{
    out.push_str(words)?;
    Ok(())
}

/// Puts a number after the text.
fn push_number(out: &mut String, number: i128) -> Result<(), NoMemory>
    ensures { Adds result out.old out.new (signed_decimal number) }
{
    write!(out, "{number}")?;
    Ok(())
}

fn push_bool(out: &mut String, value: bool) -> Result<(), NoMemory>
    ensures { Adds result out.old out.new (if value then codes "True" else codes "False") }
{
    push_words(out, if value { "True" } else { "False" })
}

fn push_named(out: &mut String, front: &str, name: &PyText, back: &str) -> Result<(), NoMemory>
    ensures { Adds result out.old out.new (front.now ++ (encode_utf8_all name.now ++ back.now)) }
{
    out.push_str(front)?;
    push_utf8(out, name)?;
    push_words(out, back)
}

/// Puts a function of the machine's own after the text.
fn push_builtin(out: &mut String, function: BuiltinFn) -> Result<(), NoMemory>
    ensures { Adds result out.old out.new (builtin_text function) }
{
    let name = text_of(*out.allocator(), function.name())?;
    push_named(out, "<built-in function ", &name, ">")
}

/// Puts a code after the text.
fn push_code(out: &mut String, place: usize) -> Result<(), NoMemory>
    ensures { Adds result out.old out.new (codes "<code " ++ (decimal place ++ codes ">")) }
{
    write!(out, "<code {place}>")?;
    Ok(())
}

/// Puts the name of a class after the text: nothing, where it isn't there or is none.
pub(crate) fn push_class_name(
    out: &mut String,
    objects: &[Payload],
    class: PyTypeRef,
) -> Result<(), NoMemory>
    ensures { Adds result out.old out.new (class_text objects.now class) }
{
    let class = payload_at(objects, PyObjectRef::from(class)).and_then(Payload::class);
    let Some(class) = class else {
        return Ok(());
    };
    push_utf8(out, &class.name)
}

/// The items of a tuple: none, where it isn't there or is none.
pub(crate) fn items_at(objects: &[Payload], object: PyObjectRef) -> &[PyObjectRef]
    ensures { result.now ≡ items_of (payload_of objects.now object) }
{
    let Some(items) = payload_at(objects, object).and_then(Payload::tuple) else {
        return &[];
    };
    items.as_slice()
}
