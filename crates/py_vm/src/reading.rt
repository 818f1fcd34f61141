//! What functions and managers hold, read off the store of a machine.

ghost use Rattle.py_objects.specs.declared.payload.Payload.TheVariants.{Function, Manager};
ghost use Rattle.py_objects.specs.Objects.{HasPayload, IsFunction};
ghost use Rattle.py_answers.specs.Readable.{IsReadable};
ghost use Rattle.py_answers.specs.Replying.{IsManager};

use py_answers::entry;
use py_objects::{FunctionBody, ManagerBody, PyObjectRef, Store};

/// What a function holds.
pub(crate) fn function_body(store: &Store, function: PyObjectRef) -> &FunctionBody
    requires readable { IsReadable store.now }
    requires function { IsFunction store.now.made function }
    ensures { HasPayload store.now.made function (Function result.now) }
{
    let Some(body) = entry(store, function).function() else {
        unreachable!();
    };
    body
}

/// What a context manager holds.
pub(crate) fn manager_body(store: &Store, manager: PyObjectRef) -> &ManagerBody
    requires readable { IsReadable store.now }
    requires manager { IsManager store.now.made manager }
    ensures { HasPayload store.now.made manager (Manager result.now) }
{
    let Some(body) = entry(store, manager).manager() else {
        unreachable!();
    };
    body
}
