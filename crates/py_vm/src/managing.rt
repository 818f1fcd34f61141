//! What the entries of managers and exits come to (Python Language Reference, 8.5): calls of their functions.

ghost use Rattle.std.specs.Prelude.{IfOk};
ghost use Rattle.py_answers.specs.Readable.{IsReadable};
ghost use Rattle.py_answers.specs.Replying.{IsLeft, IsManager};
ghost use Rattle.py_vm.specs.Worlds.{EntersFrom, HasGrown, IsExitFunction, IsSound, LeavesFrom};

use crate::calls::{Course, Standing};
use crate::reading::manager_body;
use crate::world::World;
use py_answers::entry;
use py_code::NoMemory;
use py_objects::{ObjList, PyObjectRef};

impl World {
    /// What the entry of a manager comes to: its enter function is called without arguments.
    pub(crate) fn entered(&mut self, manager: PyObjectRef, at: Standing) -> Result<Course, NoMemory>
        requires manager { IsManager self.old.store.made manager }
        requires sound { IsSound self.old }
        ensures grows { HasGrown self.old self.new }
        ensures course { IfOk result (EntersFrom self.old self.new at manager) }
    {
        let enter = manager_body(&self.store, manager).enter;
        let nothing = ObjList::new(self.alloc);
        self.called(enter, &nothing, at)
    }

    /// What leaving by an exit comes to: a function is called with what the exit is told. It is the manager's exit function, or the exit itself.
    pub(crate) fn exited(
        &mut self,
        exit: PyObjectRef,
        told: &ObjList,
        at: Standing,
    ) -> Result<Course, NoMemory>
        requires exit { IsLeft self.old.store.made exit }
        requires sound { IsSound self.old }
        ensures grows { HasGrown self.old self.new }
        ensures course { IfOk result (LeavesFrom self.old self.new at exit told.now) }
    {
        let function = self.exit_function(exit);
        self.called(function, told, at)
    }

    /// The function that leaving by an exit calls.
    fn exit_function(&self, exit: PyObjectRef) -> PyObjectRef
        requires exit { IsLeft self.now.store.made exit }
        requires readable { IsReadable self.now.store }
        ensures { IsExitFunction self.now.store.made exit result }
    {
        match entry(&self.store, exit).manager() {
            Some(body) => body.exit,
            None => exit,
        }
    }
}
