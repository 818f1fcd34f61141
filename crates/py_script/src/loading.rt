//! The declarations of a script in a machine: their codes, their objects, and the dict of their names.

ghost use Rattle.std.specs.Prelude.{false, ◌≡◌, ◌<◌, ◌++◌, ◌∷◌, [], IfErr, IfOk, OnOk, map, length};
ghost use Rattle.py_objects.specs.declared.payload.Payload.TheVariants as payload;
ghost use Rattle.py_objects.specs.Objects.{HasPayload, pair_numbers, AllBelow};
ghost use Rattle.py_laid.specs.Fits.{Continues};
ghost use Rattle.py_tree.specs.Compilable.{IsCompilable};
ghost use Rattle.py_tree.specs.Views.{tree_of};
ghost use Rattle.py_grammar.specs.Grammar.{OfBody, OfRaw};
ghost use Rattle.py_grammar.specs.Rules.{is_among};
ghost use Rattle.py_grammar.specs.Script.{decl_of, decls_of};
ghost use Rattle.py_grammar.specs.WellFormed.{IsWellCoded, IsWellFormed};
ghost use Rattle.py_raw.specs.Earlier.{with_code};
ghost use Rattle.py_meaning.specs.Reported.{sources_of};
ghost use Rattle.py_script.specs.Broken.{AllKeepRules, IsCodeFault, IsDeclFault, IsLoadFault};
ghost use Rattle.py_script.specs.Loaded.{AreCodesOf, AreLoadable, IsCodable, IsCodeFor, IsReadyCode, with_codes};
ghost use Rattle.py_meaning.specs.Entries.{AreDeclared, AreWellDeclared};
ghost use Rattle.py_script.specs.Session.{AreBindings, BindsAll, HasDeclarations, IsLoaded, IsSessionOf, IsValue, OnlyGrew, TakesGlobals};
ghost use Rattle.py_run.specs.Coming.{IsDone};
ghost use Rattle.py_script.specs.Held.{journal_of};
ghost use Rattle.py_script.specs.Driving.{HasRunOf};

use crate::declaring::{add_declarations, object_named};
use crate::fault::LoadFault;
use crate::session::{RaisedList, Session};
use py_body::compile_body;
use py_check::{CheckFault, CheckedCode, check_code};
use py_code::{Names, NoMemory, PyText, text_of};
use py_grammar::{Declaration, RawBlock, Script};
use py_objects::{ObjList, PairList, Payload, PyObjectRef};
use py_raw::{Earlier, assemble};
use py_reports::{Source, Sources};
use py_tree::Body;
use py_vm::VirtualMachine;
use std::alloc::Global;

/// The code of a body, checked as the code after these. A body has no bodies inside of it so far, and what it is compiled to keeps the rules,
/// whatever the others are.
fn compile_one(
    alloc: Global,
    names: &mut Names,
    earlier: &Earlier,
    body: &Body,
) -> Result<CheckedCode, NoMemory>
    requires { IsCompilable (tree_of body.now) }
    ensures ready { IfOk result
        (λ code. IsReadyCode names.new earlier.now code (OfBody (tree_of body.now))) }
    ensures grows { Continues names.old names.new }
{
    let codes = compile_body(alloc, names, body, earlier.shapes.len())?;
    let Some(code) = codes.into_vec().pop() else {
        unreachable!();
    };
    match check_code(alloc, code, &earlier.shapes) {
        Ok(code) => Ok(code),
        Err(CheckFault::NoMemory) => Err(NoMemory),
        Err(CheckFault::Breaks(_)) => unreachable!(),
    }
}

/// The code of a raw code, checked as the code after these.
fn assemble_one(
    alloc: Global,
    names: &mut Names,
    earlier: &Earlier,
    block: &RawBlock,
) -> Result<CheckedCode, CheckFault>
    requires { IsWellCoded earlier.now.names block.now }
    ensures ready { IfOk result (λ code. IsReadyCode names.new earlier.now code (OfRaw block.now)) }
    ensures fault { IfErr result (IsCodeFault earlier.now (OfRaw block.now)) }
    ensures grows { Continues names.old names.new }
{
    let code = assemble(alloc, names, &earlier.names, block)?;
    check_code(alloc, code, &earlier.shapes)
}

/// The code of a declaration, where it has one, checked as the code after these.
fn code_for(
    alloc: Global,
    names: &mut Names,
    earlier: &Earlier,
    declaration: &Declaration,
) -> Result<Option<CheckedCode>, CheckFault>
    requires { IsCodable earlier.now.names (decl_of declaration.now) }
    ensures made { IfOk result (IsCodeFor names.new earlier.now (decl_of declaration.now)) }
    ensures fault { IfErr result (IsDeclFault earlier.now (decl_of declaration.now)) }
    ensures grows { Continues names.old names.new }
{
    match declaration {
        Declaration::Class(_, _) => Ok(None),
        Declaration::Manager(_, _, _) => Ok(None),
        Declaration::Function(body) => Ok(Some(compile_one(alloc, names, earlier, body)?)),
        Declaration::Raw(block) => Ok(Some(assemble_one(alloc, names, earlier, block)?)),
    }
}

/// Puts a code of a new name after the others, also as one that later ones may name.
fn push_code(
    codes: &mut Vec<CheckedCode>,
    earlier: &mut Earlier,
    name: &PyText,
    code: CheckedCode,
) -> Result<(), NoMemory>
    requires { is_among name.now earlier.old.names ≡ false }
    ensures codes { OnOk result (codes.new.items ≡ codes.old.items ++ code ∷ []) }
    ensures earlier { OnOk result
        (earlier.new ≡ with_code earlier.old name.now (length code.code.code.freevars.items)) }
{
    let free = code.code().code.freevars.len();
    codes.push(code)?;
    earlier.push(name, free)?;
    Ok(())
}

/// The codes of the declarations, in order, whose names go into one table. The first raw code that breaks a rule is refused.
fn codes_for(
    alloc: Global,
    names: &mut Names,
    declarations: &[Declaration],
) -> Result<Vec<CheckedCode>, LoadFault>
    requires { AreWellDeclared (map decl_of declarations.now) }
    ensures checked { IfOk result (λ codes. AreCodesOf declarations.now names.new codes.items) }
    ensures fault { IfErr result (IsLoadFault (map decl_of declarations.now)) }
{
    let mut codes = Vec::new(alloc);
    let mut earlier = Earlier::new(alloc);
    for declaration in declarations {
        let made = match code_for(alloc, names, &earlier, declaration) {
            Ok(made) => made,
            Err(CheckFault::Breaks(at)) => return Err(LoadFault::Refused(codes.len(), at)),
            Err(CheckFault::NoMemory) => return Err(LoadFault::NoMemory),
        };
        if let Some(code) = made {
            push_code(&mut codes, &mut earlier, declaration.name(), code)?;
        }
    }
    Ok(codes)
}

/// Puts the codes behind those of the machine.
fn add_codes(vm: &mut VirtualMachine, codes: Vec<CheckedCode>) -> Result<(), NoMemory>
    requires { AreLoadable vm.old.checked codes.items }
    ensures { OnOk result (vm.new ≡ with_codes vm.old codes.items) }
{
    for code in codes {
        let Ok(_) = vm.add_code(code) else {
            return Err(NoMemory);
        };
    }
    Ok(())
}

/// A new object of a value that names no other.
pub(crate) fn add_value(vm: &mut VirtualMachine, value: Payload) -> Result<PyObjectRef, NoMemory>
    requires value { IsValue value }
    ensures works { OnOk result (vm.new.failed ≡ false) }
    ensures is { IfOk result (λ object. HasPayload vm.new.objects object value) }
    ensures below { IfOk result (λ object. object.number < length vm.new.objects) }
    ensures grew { OnlyGrew vm.old vm.new }
{
    match vm.add_object(value) {
        Ok(object) => Ok(object),
        Err(_) => Err(NoMemory),
    }
}

/// A new object of a text.
pub(crate) fn add_text(
    alloc: Global,
    vm: &mut VirtualMachine,
    text: &PyText,
) -> Result<PyObjectRef, NoMemory>
    ensures works { OnOk result (vm.new.failed ≡ false) }
    ensures is { IfOk result (λ object. HasPayload vm.new.objects object (payload.Str text.now)) }
    ensures below { IfOk result (λ object. object.number < length vm.new.objects) }
    ensures grew { OnlyGrew vm.old vm.new }
{
    let text = text.copy(alloc)?;
    add_value(vm, Payload::Str(text))
}

/// Makes a text of each declaration's name, and pairs it with what is declared under it.
fn bind_names(
    alloc: Global,
    vm: &mut VirtualMachine,
    declarations: &[Declaration],
) -> Result<PairList, NoMemory>
    requires works { vm.old.failed ≡ false }
    requires declared { AreDeclared vm.old.objects (map decl_of declarations.now) }
    ensures works { OnOk result (vm.new.failed ≡ false) }
    ensures grew { OnOk result (OnlyGrew vm.old vm.new) }
    ensures bindings { IfOk result (AreBindings vm.new.objects (map decl_of declarations.now)) }
{
    let mut pairs = PairList::new(alloc);
    for declaration in declarations {
        let name = declaration.name();
        let value = object_named(vm, name);
        let key = add_text(alloc, vm, name)?;
        pairs.push((key, value))?;
    }
    Ok(pairs)
}

/// Takes a dict of these pairs as that of the globals.
fn take_globals(vm: &mut VirtualMachine, pairs: PairList) -> Result<(), NoMemory>
    requires nothing { vm.old.events ≡ [] }
    requires below { AllBelow (length vm.old.objects) (pair_numbers pairs) }
    ensures { OnOk result (TakesGlobals vm.old vm.new pairs) }
{
    let Ok(globals) = vm.add_object(Payload::Dict(pairs)) else {
        return Err(NoMemory);
    };
    match vm.use_globals(globals) {
        Ok(()) => Ok(()),
        Err(_) => Err(NoMemory),
    }
}

/// A machine with the codes and the objects of the declarations.
fn load_declarations(alloc: Global, script: &Script) -> Result<VirtualMachine, LoadFault>
    requires { IsWellFormed script.now }
    ensures has { IfOk result (λ vm. HasDeclarations (decls_of script.now) vm) }
    ensures fault { IfErr result (IsLoadFault (decls_of script.now)) }
{
    let declarations = script.declarations.as_slice();
    let mut names = Names::new(alloc);
    let codes = codes_for(alloc, &mut names, declarations)?;
    let mut vm = VirtualMachine::new(alloc, names)?;
    add_codes(&mut vm, codes)?;
    add_declarations(alloc, &mut vm, declarations)?;
    Ok(vm)
}

/// Has a machine use a dict of the declarations' names as its globals.
fn bind_declarations(
    alloc: Global,
    vm: &mut VirtualMachine,
    declarations: &[Declaration],
) -> Result<(), NoMemory>
    requires works { vm.old.failed ≡ false }
    requires nothing { vm.old.events ≡ [] }
    requires declared { AreDeclared vm.old.objects (map decl_of declarations.now) }
    ensures { OnOk result (BindsAll (map decl_of declarations.now) vm.old vm.new) }
{
    let pairs = bind_names(alloc, vm, declarations)?;
    take_globals(vm, pairs)
}

/// The source texts of a script: its own, under the path of each script.
fn sources_of(alloc: Global, text: &PyText) -> Result<Sources, NoMemory>
    ensures { IfOk result (λ sources. sources ≡ sources_of text.now) }
{
    let path = text_of(alloc, b"<script>")?;
    let source = Source::new(alloc, &path, text)?;
    let mut sources = Sources::new(alloc);
    sources.push(source)?;
    Ok(sources)
}

/// A machine that holds the declarations of the script, with the dict of their names as its globals.
fn load_session(alloc: Global, script: &Script) -> Result<Session, LoadFault>
    requires { IsWellFormed script.now }
    ensures loaded { IfOk result (λ session. IsLoaded (decls_of script.now) session) }
    ensures sources { IfOk result (λ session. session.sources ≡ sources_of script.now.text) }
    ensures fault { IfErr result (IsLoadFault (decls_of script.now)) }
{
    let mut vm = load_declarations(alloc, script)?;
    bind_declarations(alloc, &mut vm, script.declarations.as_slice())?;
    let sources = sources_of(alloc, &script.text)?;
    Ok(Session {
        alloc,
        vm,
        values: ObjList::new(alloc),
        raised: RaisedList::new(alloc),
        sources,
        failed: false,
    })
}

/// A session of the script's declarations, behind no drive. Its journal has no event, and is a whole run of the declarations without drives.
/// It comes only where each raw code keeps the rules. Else the first one that breaks one is named, and its first unit that does, or
/// memory ran out.
pub fn load_script(alloc: Global, script: &Script) -> Result<Session, LoadFault>
    requires { IsWellFormed script.now }
    ensures session { IfOk result (λ session. IsSessionOf (decls_of script.now) [] session) }
    ensures sources { IfOk result (λ session. session.sources ≡ sources_of script.now.text) }
    ensures runs { IfOk result (λ session. HasRunOf (decls_of script.now) [] session.sources (journal_of session)) }
    ensures whole { IfOk result (λ session. IsDone 0 (journal_of session).events) }
    ensures begun { IfOk result (λ session. (journal_of session).events ≡ []) }
    ensures keeps { IfOk result (λ _. AllKeepRules (decls_of script.now)) }
    ensures fault { IfErr result (IsLoadFault (decls_of script.now)) }
{
    // Taken apart, so that each clause speaks of the session itself.
    let session = load_session(alloc, script)?;
    Ok(session)
}
