//! What frames ask of a stack.

ghost use Rattle.std.specs.Prelude.{◌≡◌, ◌+◌, ◌<◌, ◌≤◌, ◌∷◌, length, slice_get, Some, IfOk, OnOk, OnErr};
ghost use Rattle.py_stack.specs.Stacks.{Stack, above, bottom, entry_at, places, with_entry};

use py_code::NoMemory;
use py_objects::{ObjList, PyObjectRef};
use std::alloc::Global;

/// A stack of objects in places that are there from the beginning: only `drain` may want memory.
pub trait ValueStack {
    // What a stack is seen as: its entries, the top first, and the places that are left.
    ghost seen: { Self → Stack };

    /// How many entries there are.
    fn len(&self) -> usize
        ensures { result ≡ length (seen self.now).list };

    /// How many more entries there is a place for.
    fn spare(&self) -> usize
        ensures { result ≡ (seen self.now).room };

    /// Puts a value on the top.
    fn push(&mut self, value: PyObjectRef)
        requires { 0 < (seen self.old).room }
        ensures list { (seen self.new).list ≡ value ∷ (seen self.old).list }
        ensures room { (seen self.new).room + 1 ≡ (seen self.old).room };

    /// Takes the top off.
    fn pop(&mut self) -> PyObjectRef
        requires { 0 < length (seen self.old).list }
        ensures list { (seen self.old).list ≡ result ∷ (seen self.new).list }
        ensures room { (seen self.new).room ≡ (seen self.old).room + 1 };

    /// The top.
    fn top(&self) -> PyObjectRef
        requires { 0 < length (seen self.now).list }
        ensures { slice_get (seen self.now).list 0 ≡ Some result };

    /// Takes all but the lowest `len` entries off.
    fn truncate(&mut self, len: usize)
        requires { len ≤ length (seen self.old).list }
        ensures list { (seen self.new).list ≡ bottom len (seen self.old).list }
        ensures room { (seen self.new).room + len ≡ places (seen self.old) };

    /// The entry that has `index` others below it.
    fn at(&self, index: usize) -> PyObjectRef
        requires { index < length (seen self.now).list }
        ensures { entry_at index (seen self.now).list ≡ Some result };

    /// Puts a value in the place of the entry that has `index` others below it.
    fn put(&mut self, index: usize, value: PyObjectRef)
        requires { index < length (seen self.old).list }
        ensures list { (seen self.new).list ≡ with_entry index value (seen self.old).list }
        ensures room { (seen self.new).room ≡ (seen self.old).room };

    /// Takes all but the lowest `from` entries off and hands them over, the lowest of them first.
    fn drain(&mut self, alloc: Global, from: usize) -> Result<ObjList, NoMemory>
        requires { from ≤ length (seen self.old).list }
        ensures drained { IfOk result (λ values. values ≡ above from (seen self.old).list) }
        ensures list { OnOk result ((seen self.new).list ≡ bottom from (seen self.old).list) }
        ensures room { OnOk result ((seen self.new).room + from ≡ places (seen self.old)) }
        ensures err { OnErr result (seen self.new ≡ seen self.old) };
}
