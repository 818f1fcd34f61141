//! The built-in exception classes, which each machine begins with.

ghost use Rattle.std.specs.Prelude.{◌≡◌, ◌<◌, ◌+◌, ◌^◌, [], length, IfOk, OnOk, OnErr};
ghost use Rattle.py_objects.specs.ErrorPlaces.{place_of};
ghost use Rattle.py_objects.specs.Growth.{with_object};
ghost use Rattle.py_exceptions.specs.Classes.{class_of, class_payload, declarations_of, mro_of, with_classes, AddsName, AreBegun, DeclareNothing, HaveClasses, IsAddedOrNot};

use py_code::{NoMemory, text_of};
use py_objects::{
    AttrMap, Boxed, ClassBody, ErrorKind, ObjList, Payload, PyObjectRef, PyTypeRef, Store,
};
use std::alloc::Global;

/// The class of each kind of built-in exception. The classes stand one after the other, in the order of [`ErrorKind::all`].
#[derive(Clone, Copy, Debug, PartialEq, Eq)]
pub struct ExceptionZoo {
    /// The number of the first one.
    first: u32,
}

impl ExceptionZoo {
    /// Adds the classes to a store without declarations, after its objects, and their names to those that are declared. Where memory runs out,
    /// the store has the first ones.
    pub fn extend(store: &mut Store, declarations: &mut AttrMap) -> Result<ExceptionZoo, NoMemory>
        requires store { DeclareNothing store.old.made }
        requires short { length store.old.made < 2 ^ 32 }
        requires none { declarations.old ≡ [] }
        ensures first { IfOk result (λ zoo. zoo.first ≡ length store.old.made) }
        ensures added { IfOk result (λ zoo. store.new ≡ with_classes store.old zoo) }
        ensures classes { IfOk result (λ zoo. HaveClasses zoo store.new.made) }
        ensures declarations { IfOk result (λ zoo. declarations.new ≡ declarations_of zoo) }
        ensures err { OnErr result (AreBegun store.old store.new declarations.new) }
    {
        let zoo = ExceptionZoo {
            first: store.len() as u32,
        };
        for kind in ErrorKind::all() {
            zoo.add_class(store, declarations, *kind)?;
        }
        Ok(zoo)
    }

    /// The class of the exceptions of a kind.
    pub fn class(&self, kind: ErrorKind) -> PyTypeRef
        ensures { result ≡ class_of self.now kind }
    {
        PyTypeRef {
            number: u64::from(self.first) + kind.place(),
        }
    }

    /// The class of a kind goes after the other objects, where its bases are, declared under its name. Where memory runs out, it is there or not,
    /// and not declared.
    fn add_class(
        &self,
        store: &mut Store,
        declarations: &mut AttrMap,
        kind: ErrorKind,
    ) -> Result<(), NoMemory>
        requires place { length store.old.made ≡ self.now.first + place_of kind }
        ensures added { OnOk result (store.new ≡ with_object store.old (class_payload self.now kind)) }
        ensures declared { OnOk result (AddsName self.now kind declarations.old declarations.new) }
        ensures err { OnErr result (IsAddedOrNot store.old store.new (class_payload self.now kind)) }
        ensures undeclared { OnErr result (declarations.new ≡ declarations.old) }
    {
        let alloc = store.allocator();
        let name = kind.name();
        let class = ClassBody {
            name: text_of(alloc, name)?,
            mro: self.mro(alloc, kind)?,
        };
        let class = store.add(Payload::Class(Boxed::new(alloc, class)?))?;
        declarations.insert(text_of(alloc, name)?, class)?;
        Ok(())
    }

    /// The classes that the class of a kind derives from, the nearest first.
    fn mro(&self, alloc: Global, kind: ErrorKind) -> Result<ObjList, NoMemory>
        ensures { IfOk result (λ mro. mro ≡ mro_of self.now kind) }
    {
        let mut mro = ObjList::new(alloc);
        for base in kind.bases() {
            mro.push(PyObjectRef::from(self.class(*base)))?;
        }
        Ok(mro)
    }
}
