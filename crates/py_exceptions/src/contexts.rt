//! The context of an exception: the one that is handled as it comes (Python Language Reference, 7.8 and 8.4).

ghost use Rattle.std.specs.Prelude.{◌<◌, ◌≤◌, ◌+◌};
ghost use Rattle.py_objects.specs.Objects.{as_object, IfThere, IsException};
ghost use Rattle.py_objects.specs.Edits.{objects_of};
ghost use Rattle.py_stack.specs.Slots.{topmost};
ghost use Rattle.py_exceptions.specs.Contexts.{IsContextualized, LosesContext, IsLinked};
ghost use Rattle.py_exceptions.specs.Links.{exception_object};

use crate::links::{change_exception, first_to};
use py_objects::{Edit, LinkField, PyBaseExceptionRef, PyObjectRef, Store};
use py_stack::ExceptionStack;

/// Makes the exception that is being handled, where there is one, the context of another that comes, by at most two changes that
/// there is a place for. Where the way along contexts from the handled one leads to the other, the link that leads there is
/// cut first.
pub fn contextualize_exception(store: &mut Store, stack: &ExceptionStack, exc: PyBaseExceptionRef)
    requires spare { 2 ≤ store.old.spare }
    requires exception { IsException (objects_of store.old) (as_object exc) }
    requires handled { IfThere (IsException (objects_of store.old)) (exception_object (topmost stack.now)) }
    ensures contextualized { IsContextualized store.old store.new (topmost stack.now) exc }
    ensures spare { store.old.spare ≤ store.new.spare + 2 }
{
    let Some(handled) = stack.topmost_exception() else {
        return;
    };
    if handled.number == exc.number {
        return;
    }
    link_context(store, handled, exc);
}

/// The same for two exceptions that aren't one.
fn link_context(store: &mut Store, handled: PyBaseExceptionRef, exc: PyBaseExceptionRef)
    requires spare { 2 ≤ store.old.spare }
    requires exception { IsException (objects_of store.old) (as_object exc) }
    requires handled { IsException (objects_of store.old) (as_object handled) }
    ensures linked { IsLinked store.old store.new (as_object handled) (as_object exc) }
    ensures spare { store.old.spare ≤ store.new.spare + 2 }
{
    let handled = PyObjectRef::from(handled);
    let found = first_to(store, LinkField::Context, handled, PyObjectRef::from(exc));
    cut(store, found);
    change_exception(store, exc, Edit::Link(LinkField::Context, Some(handled)));
}

/// Takes the context off, where an exception was found.
fn cut(store: &mut Store, found: Option<PyObjectRef>)
    requires spare { 0 < store.old.spare }
    requires exception { IfThere (IsException (objects_of store.old)) found }
    ensures cut { LosesContext store.old store.new found }
    ensures spare { store.old.spare ≤ store.new.spare + 1 }
{
    if let Some(found) = found {
        let found = PyBaseExceptionRef {
            number: found.number,
        };
        change_exception(store, found, Edit::Link(LinkField::Context, None));
    }
}
