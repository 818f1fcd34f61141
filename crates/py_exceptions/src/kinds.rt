//! Which exceptions are of the built-in kinds.

ghost use Rattle.py_objects.specs.Objects.{as_object, IsException};
ghost use Rattle.py_exceptions.specs.Kinds.{IsGenExit};

use crate::reading::exception_body;
use py_objects::{ErrorKind, PyBaseExceptionRef, Store};

/// Whether an exception is a GeneratorExit: its class is that one, or derives from it.
pub fn is_gen_exit(store: &Store, exc: PyBaseExceptionRef) -> bool
    requires { IsException store.now.made (as_object exc) }
    ensures { IsGenExit store.now.made exc result }
{
    let class = exception_body(store, exc).class;
    store.derives_from(class, ErrorKind::GeneratorExit)
}
