//! Reports of exceptions that are made by hand.

ghost use Rattle.std.specs.Prelude.{◌≡◌, [], ◌∷◌, IfOk, OnOk};
ghost use Rattle.py_objects.specs.declared.payload.Payload.TheVariants.{Exception, None as NonePayload};
ghost use Rattle.crate_tests.specs.Exit.{object};
ghost use Rattle.crate_tests.specs.Reported.{file_attrs, first_reported, linked_body, syntax_attrs, syntax_reported, traced_reported, two_reported};

use crate::made::class;
use py_code::{Names, NoMemory, same_text, text_of};
use py_objects::{
    AttrMap, Boxed, ExceptionBody, FrameRef, ObjList, Payload, PyBaseExceptionRef, PyObjectRef,
    PyTypeRef, Store, TracebackBody,
};
use py_reports::{Place, Places, Report, ReportStep, Scene, Source, Sources, part_of, report_of};
use std::alloc::Global;

fn object(number: u64) -> PyObjectRef
    ensures { result ≡ object number }
{
    PyObjectRef { number }
}

/// A list of one object.
fn only(alloc: Global, number: u64) -> Result<ObjList, NoMemory>
    ensures { IfOk result (λ list. list ≡ object number ∷ []) }
{
    let mut list = ObjList::new(alloc);
    list.push(object(number))?;
    Ok(list)
}

/// An exception of the class 1, with these arguments and links.
fn linked(
    alloc: Global,
    args: u64,
    cause: Option<PyObjectRef>,
    traceback: Option<PyObjectRef>,
    attrs: AttrMap,
) -> Result<Payload, NoMemory>
    ensures { IfOk result (λ made. made ≡ Exception (linked_body (object args) cause traceback attrs)) }
{
    let body = ExceptionBody {
        class: PyTypeRef { number: 1 },
        args: object(args),
        cause,
        context: None,
        suppress: false,
        traceback,
        attrs,
    };
    Ok(Payload::Exception(Boxed::new(alloc, body)?))
}

/// Puts `ValueError('a')` into a store of one object, as object 4.
fn add_first(alloc: Global, store: &mut Store) -> Result<(), NoMemory>
    requires { store.old.made ≡ NonePayload ∷ [] }
    ensures { OnOk result (store.new.made ≡ first_reported) }
{
    store.add(class(alloc, b"ValueError", ObjList::new(alloc))?)?;
    store.add(Payload::Str(text_of(alloc, b"a")?))?;
    store.add(Payload::Tuple(only(alloc, 2)?))?;
    store.add(linked(alloc, 3, None, None, AttrMap::new(alloc))?)?;
    Ok(())
}

/// Adds `ValueError('b')`, as object 7, with the first one for its cause.
fn add_second(alloc: Global, store: &mut Store) -> Result<(), NoMemory>
    requires { store.old.made ≡ first_reported }
    ensures { OnOk result (store.new.made ≡ two_reported) }
{
    store.add(Payload::Str(text_of(alloc, b"b")?))?;
    store.add(Payload::Tuple(only(alloc, 5)?))?;
    store.add(linked(alloc, 6, Some(object(4)), None, AttrMap::new(alloc))?)?;
    Ok(())
}

/// Adds an entry of a traceback, and as object 10 another `ValueError('b')` that has it, with the same cause.
fn add_traced(alloc: Global, store: &mut Store) -> Result<(), NoMemory>
    requires { store.old.made ≡ two_reported }
{
    add_entry(store)?;
    let traced = linked(
        alloc,
        6,
        Some(object(4)),
        Some(object(9)),
        AttrMap::new(alloc),
    )?;
    store.add(traced)?;
    Ok(())
}

fn add_entry(store: &mut Store) -> Result<(), NoMemory>
    requires { store.old.made ≡ two_reported }
    ensures { OnOk result (store.new.made ≡ traced_reported) }
{
    store.add(Payload::Frame(0))?;
    store.add(Payload::Traceback(TracebackBody {
        next: None,
        frame: FrameRef { number: 8 },
        lasti: 0,
        lineno: 2,
    }))?;
    Ok(())
}

/// A store of these.
fn reported(alloc: Global) -> Result<Store, NoMemory> {
    let mut store = Store::new(alloc)?;
    add_first(alloc, &mut store)?;
    add_second(alloc, &mut store)?;
    add_traced(alloc, &mut store)?;
    Ok(store)
}

/// What a report is made of beside the objects.
#[derive(Drop)]
struct Texts {
    names: Names,
    places: Places,
    sources: Sources,
}

/// The texts of a code of the function `f`, which stands in a script.
fn script_texts(alloc: Global) -> Result<Texts, NoMemory> {
    let mut names = Names::new(alloc);
    let mut places = Places::new(alloc);
    let mut sources = Sources::new(alloc);
    let source_path = names.intern("<script>")?;
    let obj_name = names.intern("f")?;
    places.push(Place {
        source_path,
        obj_name,
    })?;
    let path = text_of(alloc, b"<script>")?;
    let text = text_of(alloc, b"def f\r\n\t raise e \r\nend")?;
    sources.push(Source::new(alloc, &path, &text)?)?;
    Ok(Texts {
        names,
        places,
        sources,
    })
}

/// No codes, and no sources.
fn no_texts(alloc: Global) -> Texts {
    Texts {
        names: Names::new(alloc),
        places: Places::new(alloc),
        sources: Sources::new(alloc),
    }
}

const CAUSED: &str =
    "ValueError: a\n\nThe above exception was the direct cause of the following exception:\n\nValueError: b\n";

#[test]
fn a_report_begins_with_the_cause(rt: HostRuntime) -> Result<(), NoMemory> {
    let alloc = rt.alloc();
    let store = reported(alloc)?;
    let texts = no_texts(alloc);
    let scene = Scene::new(&store, &texts.names, &texts.places, &texts.sources);
    let text = report_of(alloc, &scene, PyBaseExceptionRef { number: 7 })?;
    assert!(rt; same_text(&text, &text_of(alloc, CAUSED.as_bytes())?));
    Ok(())
}

const FIRST: &str = "ValueError: a\n";

const TRACED: &str =
    "\nThe above exception was the direct cause of the following exception:\n\nTraceback (most recent call last):\n  File \"<script>\", line 2, in f\n    raise e \nValueError: b\n";

/// Whether a step gave a piece with this text.
fn gave(alloc: Global, step: ReportStep, wanted: &str) -> Result<bool, NoMemory> {
    match step {
        ReportStep::Piece(text) => { Ok(same_text(&text, &text_of(alloc, wanted.as_bytes())?)) }
        ReportStep::AskStr(_) | ReportStep::Done | ReportStep::NoMemory => Ok(false),
    }
}

fn take_step(report: &mut Report, store: &Store, texts: &Texts) -> ReportStep {
    report.step(store, &texts.names, &texts.places, &texts.sources, None)
}

#[test]
fn a_step_gives_an_exception(rt: HostRuntime) -> Result<(), NoMemory> {
    let alloc = rt.alloc();
    let store = reported(alloc)?;
    let texts = script_texts(alloc)?;
    let mut report = Report::new(alloc, PyBaseExceptionRef { number: 10 });
    assert!(rt; gave(alloc, take_step(&mut report, &store, &texts), FIRST)?);
    assert!(rt; gave(alloc, take_step(&mut report, &store, &texts), TRACED)?);
    let end = take_step(&mut report, &store, &texts);
    assert!(rt; matches!(end, ReportStep::Done));
    Ok(())
}

/// Attributes of a SyntaxError in line 1.
fn line_attributes(alloc: Global) -> Result<AttrMap, NoMemory>
    ensures { IfOk result (λ attrs. attrs ≡ syntax_attrs) }
{
    let mut attrs = AttrMap::new(alloc);
    attrs.insert(text_of(alloc, b"lineno")?, object(4))?;
    attrs.insert(text_of(alloc, b"text")?, object(5))?;
    attrs.insert(text_of(alloc, b"offset")?, object(6))?;
    Ok(attrs)
}

/// Attributes of a SyntaxError in a file, of two characters.
fn file_attributes(alloc: Global) -> Result<AttrMap, NoMemory>
    ensures { IfOk result (λ attrs. attrs ≡ file_attrs) }
{
    let mut attrs = AttrMap::new(alloc);
    attrs.insert(text_of(alloc, b"filename")?, object(8))?;
    attrs.insert(text_of(alloc, b"text")?, object(5))?;
    attrs.insert(text_of(alloc, b"offset")?, object(7))?;
    attrs.insert(text_of(alloc, b"end_offset")?, object(6))?;
    Ok(attrs)
}

/// Adds the class SyntaxError, arguments of it, and values for its attributes.
fn add_values(alloc: Global, store: &mut Store) -> Result<(), NoMemory>
    requires { store.old.made ≡ NonePayload ∷ [] }
    ensures { OnOk result (store.new.made ≡ syntax_reported) }
{
    store.add(class(alloc, b"SyntaxError", ObjList::new(alloc))?)?;
    store.add(Payload::Str(text_of(alloc, b"invalid syntax")?))?;
    store.add(Payload::Tuple(only(alloc, 2)?))?;
    store.add(Payload::Int(1))?;
    store.add(Payload::Str(text_of(alloc, b"  a b\n")?))?;
    store.add(Payload::Int(5))?;
    store.add(Payload::Int(3))?;
    store.add(Payload::Str(text_of(alloc, b"f.py")?))?;
    Ok(())
}

/// Adds two exceptions with these attributes, as the objects 9 and 10.
fn add_errors(alloc: Global, store: &mut Store) -> Result<(), NoMemory>
    requires { store.old.made ≡ syntax_reported }
{
    store.add(linked(alloc, 3, None, None, line_attributes(alloc)?)?)?;
    store.add(linked(alloc, 3, None, None, file_attributes(alloc)?)?)?;
    Ok(())
}

/// Whether this is printed of an exception alone.
fn is_part(alloc: Global, store: &Store, number: u64, wanted: &[u8]) -> Result<bool, NoMemory> {
    let texts = no_texts(alloc);
    let scene = Scene::new(store, &texts.names, &texts.places, &texts.sources);
    let part = part_of(alloc, &scene, PyBaseExceptionRef { number })?;
    Ok(same_text(&part, &text_of(alloc, wanted)?))
}

const IN_A_LINE: &[u8] =
    b"  File \"<string>\", line 1\n    a b\n      ^\nSyntaxError: invalid syntax\n";

const IN_A_FILE: &[u8] = b"    a b\n    ^^\nSyntaxError: invalid syntax (f.py)\n";

#[test]
fn a_syntax_error_shows_its_text(rt: HostRuntime) -> Result<(), NoMemory> {
    let alloc = rt.alloc();
    let mut store = Store::new(alloc)?;
    add_values(alloc, &mut store)?;
    add_errors(alloc, &mut store)?;
    assert!(rt; is_part(alloc, &store, 9, IN_A_LINE)?);
    assert!(rt; is_part(alloc, &store, 10, IN_A_FILE)?);
    Ok(())
}
