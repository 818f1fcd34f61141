//! The compiler: the code of a body.

ghost use Rattle.std.specs.Prelude.{◌≡◌, ◌<◌, ◌≤◌, ◌^◌, suc, false, length, IfOk, OnOk};
ghost use Rattle.py_tree.specs.declared.body.BodyKind.{BodyKind};
ghost use Rattle.py_tree.specs.Compilable.{IsCompilable, SuiteFits, statements};
ghost use Rattle.py_tree.specs.Views.{suite_of, tree_of};
ghost use Rattle.py_laid.specs.Code.{flags_of, IsPlain};
ghost use Rattle.py_laid.specs.Fits.{Fits, Continues};
ghost use Rattle.py_laid.specs.Instructions.{UsesCompiled};
ghost use Rattle.py_laid.specs.Naming.{IsNameOf, NamesAll};
ghost use Rattle.py_body.specs.Sizes.{counted, size_body, weights};
ghost use Rattle.py_body.specs.Codes.{Each, IsLaidWith, name_of, script_path};
ghost use Rattle.py_body.specs.Emitting.{draft_of, IsEmitted};
ghost use Rattle.py_body.specs.Puts.{PutsBody};

use crate::emitter::Emitter;
use crate::locals::locals_of;
use crate::naming::{intern_all, intern_text};
use crate::scope::{Site, entry};
use crate::sizes::{Weights, size_of_suite};
use bitflags::Flags;
use py_check::Annotated;
use py_code::{
    CodeFlags, CodeObject, Instruction, ItemList, Literal, NameId, NameSet, Names, NoMemory, PyCode,
};
use py_tree::{Body, BodyKind, StmtList};
use std::alloc::Global;

/// Codes in order, each with its notes.
pub type AnnotatedList = ItemList<Annotated>;

/// The codes of a body, with their notes: those of the bodies inside of it, of which there are none so far, then its own. They are to be
/// numbered from `first` on. Its names go into the table. Its locals are known by their places, every other name is a global, and each
/// literal that it names is a constant of its own. It fails only where memory runs out; the table may then have some of the names.
pub fn compile_body(
    alloc: Global,
    names: &mut Names,
    body: &Body,
    first: usize,
) -> Result<AnnotatedList, NoMemory>
    requires { IsCompilable (tree_of body.now) }
    ensures one { IfOk result (λ codes. length codes ≡ 1) }
    ensures fits { IfOk result (λ codes. Each (λ code. Fits names.new code (tree_of body.now)) codes) }
    ensures laid { IfOk result (λ codes. Each (λ code. IsLaidWith names.new code (tree_of body.now)) codes) }
    ensures plain { IfOk result (λ codes. Each (λ code. IsPlain code (tree_of body.now)) codes) }
    ensures uses { IfOk result (λ codes. Each (λ code. UsesCompiled code.code) codes) }
    ensures grows { Continues names.old names.new }
{
    // No body has others inside of it so far, so nothing names a code by its number.
    let _first = first;
    let code = compile_code(alloc, names, body)?;
    let mut codes = AnnotatedList::new(alloc);
    codes.push(code)?;
    Ok(codes)
}

/// The code of a body itself.
fn compile_code(alloc: Global, names: &mut Names, body: &Body) -> Result<Annotated, NoMemory>
    requires { IsCompilable (tree_of body.now) }
    ensures laid { IfOk result (λ code. IsLaidWith names.new code (tree_of body.now)) }
    ensures plain { IfOk result (λ code. IsPlain code (tree_of body.now)) }
    ensures grows { Continues names.old names.new }
{
    let emitter = emit_body(alloc, body)?;
    let ids = names_for(alloc, names, body, emitter.locals, emitter.globals)?;
    let CodeNames {
        source_path,
        obj_name,
        global_names,
        varnames,
    } = ids;
    let code = PyCode::new(CodeObject {
        instructions: emitter.units,
        locations: emitter.locations,
        flags: flags_of(body.kind),
        posonlyarg_count: 0,
        arg_count: body.params.len() as u32,
        kwonlyarg_count: 0,
        source_path,
        first_line_number: Some(body.line),
        max_stackdepth: emitter.deepest,
        obj_name,
        cell2arg: Vec::new(alloc),
        constants: emitter.constants,
        names: global_names,
        varnames,
        cellvars: Vec::new(alloc),
        freevars: Vec::new(alloc),
    });
    Ok(Annotated {
        code,
        notes: emitter.notes,
    })
}

/// The names that a code has, by their places in the table.
struct CodeNames {
    source_path: NameId,
    obj_name: NameId,
    global_names: Vec<NameId>,
    varnames: Vec<NameId>,
}

/// The names of the code of a body whose locals and globals are these.
fn names_for(
    alloc: Global,
    names: &mut Names,
    body: &Body,
    locals: NameSet,
    globals: NameSet,
) -> Result<CodeNames, NoMemory>
    ensures source_path { IfOk result (λ ids. IsNameOf names.new ids.source_path script_path) }
    ensures obj_name { IfOk result (λ ids. IsNameOf names.new ids.obj_name (name_of body.now)) }
    ensures global_names { IfOk result (λ ids. NamesAll names.new ids.global_names.items globals) }
    ensures varnames { IfOk result (λ ids. NamesAll names.new ids.varnames.items locals) }
    ensures grows { Continues names.old names.new }
{
    let locals = locals.into_texts()?;
    let globals = globals.into_texts()?;
    let source_path = names.intern("<script>")?;
    let obj_name = intern_text(alloc, names, &body.name)?;
    let varnames = intern_all(alloc, names, locals.as_slice())?;
    let global_names = intern_all(alloc, names, globals.as_slice())?;
    Ok(CodeNames {
        source_path,
        obj_name,
        global_names,
        varnames,
    })
}

/// What the code of a body of a kind says of itself: it makes a scope, and knows its locals by their places.
fn flags_of(kind: BodyKind) -> CodeFlags
    ensures { result ≡ flags_of kind }
{
    let flags = CodeFlags::NEW_LOCALS.union(CodeFlags::IS_OPTIMIZED);
    match kind {
        BodyKind::Function => flags,
        BodyKind::Generator => flags.union(CodeFlags::IS_GENERATOR),
    }
}

/// The units of a body with all that they refer to.
fn emit_body(alloc: Global, body: &Body) -> Result<Emitter, NoMemory>
    requires { IsCompilable (tree_of body.now) }
    ensures { IfOk result (λ emitter. IsEmitted (draft_of emitter) (tree_of body.now)) }
{
    let locals = locals_of(alloc, body)?;
    let others = others_for(&locals, &body.suite);
    let labels = labels_for(others, &body.suite);
    let mut emitter = Emitter::new(alloc, locals, labels, others);
    emit_all(&mut emitter, body)?;
    Ok(emitter)
}

/// Emits the statements of a body, and behind them the return of None.
fn emit_all(emitter: &mut Emitter, body: &Body) -> Result<(), NoMemory>
    requires compilable { IsCompilable (tree_of body.now) }
    requires low { (emitter.old.labels ≤ 3) × (emitter.old.others ≤ 3) }
    ensures { OnOk result (PutsBody emitter.old emitter.new (tree_of body.now)) }
{
    let scope = entry(body.kind);
    emitter.compile_suite(&body.suite, &scope)?;
    let at = Site {
        scope: &scope,
        line: body.line,
    };
    emitter.put_const(Instruction::ReturnConst, Literal::None, &at, 0)?;
    Ok(())
}

/// How many prefixes the places of constants, names and locals need: no more of them are used than instructions that have one.
fn others_for(locals: &NameSet, suite: &StmtList) -> u32
    requires few { statements (suite_of suite.now) ≤ 1048576 }
    requires fits { (kind : BodyKind) × SuiteFits kind false (suite_of suite.now) }
    requires locals { length locals.now ≤ 2097152 }
    ensures low { result ≤ 3 }
    ensures used { size_body counted (suite_of suite.now) ≤ 256 ^ suc result }
    ensures locals { length locals.now ≤ 256 ^ suc result }
{
    let counted = Weights {
        jump: 0,
        index: 1,
        plain: 0,
    };
    let used = size_of_suite(counted, suite) + 1;
    let most = used.max(locals.len() as u32);
    width_for(most)
}

/// How many prefixes a number needs that is not greater than this, or less than it.
fn width_for(most: u32) -> u32
    ensures low { result ≤ 3 }
    ensures room { most ≤ 256 ^ suc result }
{
    if most <= 256 {
        return 0;
    }
    if most <= 65536 {
        return 1;
    }
    if most <= 16777216 {
        return 2;
    }
    3
}

/// How many prefixes the labels need, the least number that is enough for each place up to the end.
fn labels_for(others: u32, suite: &StmtList) -> u32
    requires few { statements (suite_of suite.now) ≤ 1048576 }
    requires fits { (kind : BodyKind) × SuiteFits kind false (suite_of suite.now) }
    requires others { others ≤ 3 }
    ensures low { result ≤ 3 }
    ensures room { size_body (weights result others) (suite_of suite.now) < 256 ^ suc result }
{
    for labels in 0..3 {
        let size = size_with(labels, others, suite);
        if width_for(size + 1) <= labels {
            return labels;
        }
    }
    3
}

/// The size of a body where labels and other operands have so many prefixes.
fn size_with(labels: u32, others: u32, suite: &StmtList) -> u32
    requires few { statements (suite_of suite.now) ≤ 1048576 }
    requires fits { (kind : BodyKind) × SuiteFits kind false (suite_of suite.now) }
    requires low { (labels ≤ 3) × (others ≤ 3) }
    ensures size { result ≡ size_body (weights labels others) (suite_of suite.now) }
    ensures most { result ≤ 41943044 }
{
    let weights = Weights {
        jump: labels + 1,
        index: others + 1,
        plain: 1,
    };
    size_of_suite(weights, suite) + weights.index
}
