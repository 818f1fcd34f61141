//! The objects of a script's declarations: functions, classes and managers, each behind those that it names.

ghost use Rattle.std.specs.Prelude.{◌≡◌, ◌≤◌, ◌+◌, ◌∷◌, [], false, IfOk, OnOk, map, length};
ghost use Rattle.py_objects.specs.Objects.{declared, IsClassObject};
ghost use Rattle.py_grammar.specs.Grammar.{ClassDecl, ManagerDecl, codes_in};
ghost use Rattle.py_grammar.specs.Script.{decl_of};
ghost use Rattle.py_run.specs.First.{first_objects};
ghost use Rattle.py_meaning.specs.Entries.{AreWellDeclared, IsEntryOf, IsFoundedOn, IsNamed};
ghost use Rattle.py_script.specs.Loaded.{HasObjects, IsOrderFrom};

use py_code::{NoMemory, PyText};
use py_grammar::Declaration;
use py_objects::{Boxed, ClassBody, FunctionBody, ManagerBody, ObjList, Payload, PyObjectRef};
use py_vm::VirtualMachine;
use std::alloc::Global;

/// What is declared under a name.
pub(crate) fn object_named(vm: &VirtualMachine, name: &PyText) -> PyObjectRef
    requires works { vm.now.failed ≡ false }
    requires named { IsNamed vm.now.objects name.now }
    ensures { declared vm.now.objects name.now ≡ Some result }
{
    match vm.declared(name) {
        Some(object) => object,
        None => unreachable!(),
    }
}

/// A class, and behind it those that it derives from.
fn mro_from(alloc: Global, vm: &VirtualMachine, base: PyObjectRef) -> Result<ObjList, NoMemory>
    requires unchanged { vm.now.changes ≡ [] }
    requires class { IsClassObject vm.now.objects base }
    ensures { IfOk result (IsOrderFrom vm.now.objects base) }
{
    let Payload::Class(body) = vm.store().get(base) else {
        unreachable!();
    };
    let mut mro = ObjList::new(alloc);
    mro.push(base)?;
    for class in body.value().mro.as_slice() {
        mro.push(*class)?;
    }
    Ok(mro)
}

/// The entry of a class, by its name and its base's.
fn class_entry(
    alloc: Global,
    vm: &VirtualMachine,
    name: &PyText,
    base: &PyText,
) -> Result<Payload, NoMemory>
    requires works { vm.now.failed ≡ false }
    requires unchanged { vm.now.changes ≡ [] }
    requires founded { IsFoundedOn vm.now.objects (ClassDecl name.now base.now) }
    ensures { IfOk result (IsEntryOf vm.now.objects 0 (ClassDecl name.now base.now)) }
{
    let base = object_named(vm, base);
    let mro = mro_from(alloc, vm, base)?;
    let class = ClassBody {
        name: name.copy(alloc)?,
        mro,
    };
    Ok(Payload::Class(Boxed::new(alloc, class)?))
}

/// The entry of a manager, by its name and its functions'.
fn manager_entry(
    alloc: Global,
    vm: &VirtualMachine,
    name: &PyText,
    enter: &PyText,
    exit: &PyText,
) -> Result<Payload, NoMemory>
    requires works { vm.now.failed ≡ false }
    requires founded { IsFoundedOn vm.now.objects (ManagerDecl name.now enter.now exit.now) }
    ensures { IfOk result (IsEntryOf vm.now.objects 0 (ManagerDecl name.now enter.now exit.now)) }
{
    let enter = object_named(vm, enter);
    let exit = object_named(vm, exit);
    Ok(Payload::Manager(ManagerBody {
        name: name.copy(alloc)?,
        enter,
        exit,
    }))
}

/// The entry of a declaration, which names what was declared before it, and the code of this number where it is a function's.
fn entry_of(
    alloc: Global,
    vm: &VirtualMachine,
    declaration: &Declaration,
    code: usize,
) -> Result<Payload, NoMemory>
    requires works { vm.now.failed ≡ false }
    requires unchanged { vm.now.changes ≡ [] }
    requires founded { IsFoundedOn vm.now.objects (decl_of declaration.now) }
    ensures { IfOk result (IsEntryOf vm.now.objects code (decl_of declaration.now)) }
{
    match declaration {
        Declaration::Class(name, base) => class_entry(alloc, vm, name, base),
        Declaration::Manager(name, enter, exit) => manager_entry(alloc, vm, name, enter, exit),
        Declaration::Function(body) => Ok(Payload::Function(FunctionBody {
            name: body.name.copy(alloc)?,
            code,
        })),
        Declaration::Raw(block) => Ok(Payload::Function(FunctionBody {
            name: block.name.copy(alloc)?,
            code,
        })),
    }
}

/// How many codes a declaration has.
fn code_count(declaration: &Declaration) -> usize
    ensures is { result ≡ length (codes_in (decl_of declaration.now ∷ [])) }
    ensures few { result ≤ 1 }
{
    match declaration {
        Declaration::Class(_, _) => 0,
        Declaration::Manager(_, _, _) => 0,
        Declaration::Function(_) => 1,
        Declaration::Raw(_) => 1,
    }
}

/// Makes an object of each declaration. The codes of functions are those of the machine, in order.
pub(crate) fn add_declarations(
    alloc: Global,
    vm: &mut VirtualMachine,
    declarations: &[Declaration],
) -> Result<(), NoMemory>
    requires works { vm.old.failed ≡ false }
    requires first { vm.old.objects ≡ first_objects }
    requires unchanged { vm.old.changes ≡ [] }
    requires well { AreWellDeclared (map decl_of declarations.now) }
    requires coded { length (codes_in (map decl_of declarations.now)) ≤ length vm.old.checked.codes }
    ensures { OnOk result (HasObjects (map decl_of declarations.now) vm.old vm.new) }
{
    let mut code = 0;
    for declaration in declarations {
        let entry = entry_of(alloc, vm, declaration, code)?;
        let Ok(_) = vm.add_object(entry) else {
            return Err(NoMemory);
        };
        code += code_count(declaration);
    }
    Ok(())
}
