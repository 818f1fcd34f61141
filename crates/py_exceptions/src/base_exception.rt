//! What an exception is asked and given by its number: its arguments, its links, and its texts.

ghost use Rattle.std.specs.Prelude.{◌≡◌, ◌<◌, ◌≤◌, ◌+◌, true, Decides, List, IfOk};
ghost use Rattle.py_objects.specs.declared.refs.PyBaseExceptionRef.{PyBaseExceptionRef as ExceptionRef};
ghost use Rattle.py_objects.specs.Objects.{Obj, as_object, IfThere, IsException, IsTraceback};
ghost use Rattle.py_objects.specs.Edits.{objects_of, IsEdited};
ghost use Rattle.py_objects.specs.declared.edit.Edit.TheVariants.{Args as ArgsEdit, Flag as FlagEdit};
ghost use Rattle.py_objects.specs.declared.edit.LinkField.TheVariants.{Cause as CauseLink, Context as ContextLink};
ghost use Rattle.py_exceptions.specs.Arguments.{HasArgs, HasArguments, IsArgument, IsTuple};
ghost use Rattle.py_exceptions.specs.Links.{exception_object as object_of_exception, IsCaused, IsLinkSet, IsSuppressed, HasLink};
ghost use Rattle.py_objects.specs.Growth.{IsGrown};
ghost use Rattle.py_exceptions.specs.Reducing.{IsReduced, IsReducible};
ghost use Rattle.py_exceptions.specs.Texts.{repr_of, str_of};
ghost use Rattle.py_exceptions.specs.Tracebacks.{traceback_edit, traceback_object as object_of_traceback, HasTraceback, IsTracebackSet};

use crate::links::{as_exception, change_exception, set_link};
use crate::reading::{exception_body, tuple_items};
use crate::reducible::is_reducible;
use crate::reducing::reduced;
use crate::texts::{push_whole_repr, push_whole_str};
use crate::tracebacks::traceback_object;
use py_code::{NoMemory, PyText, text_of_str};
use py_objects::{Edit, LinkField, PyBaseExceptionRef, PyObjectRef, PyTracebackRef, Store};
use std::alloc::Global;

/// An exception of a store.
pub trait BaseException {
    ghost exception: { Self → ExceptionRef };

    /// The tuple of its arguments: the last that it was given.
    fn args(&self, store: &Store) -> PyObjectRef
        requires { IsException (objects_of store.now) (as_object (exception self.now)) }
        ensures { HasArgs (objects_of store.now) (exception self.now) result };

    /// Its argument at a place, from 0. None is past the end.
    fn get_arg(&self, store: &Store, idx: usize) -> Option<PyObjectRef>
        requires { (items : List Obj) × HasArguments (objects_of store.now) (exception self.now) items }
        ensures { IsArgument (objects_of store.now) (exception self.now) idx result };

    /// Its traceback: the last that it was given (Python Language Reference, 4.2).
    fn traceback(&self, store: &Store) -> Option<PyTracebackRef>
        requires { IsException (objects_of store.now) (as_object (exception self.now)) }
        ensures { HasTraceback (objects_of store.now) (exception self.now) result };

    /// Gives it a traceback in place of the one that it has, or takes that off, by a change that
    /// there is a place for.
    fn set_traceback(&self, store: &mut Store, tb: Option<PyTracebackRef>)
        requires spare { 0 < store.old.spare }
        requires exception { IsException (objects_of store.old) (as_object (exception self.now)) }
        requires traceback { IfThere (IsTraceback store.old.made) (object_of_traceback tb) }
        ensures edited { IsEdited store.old store.new (as_object (exception self.now)) (traceback_edit tb) }
        ensures set { IsTracebackSet (objects_of store.old) (objects_of store.new) (exception self.now) tb }
        ensures now { HasTraceback (objects_of store.new) (exception self.now) tb }
        ensures spare { store.old.spare ≤ store.new.spare + 1 };

    /// Gives it a traceback as [`BaseException::set_traceback`] does.
    fn with_traceback(&self, store: &mut Store, tb: Option<PyTracebackRef>)
        requires spare { 0 < store.old.spare }
        requires exception { IsException (objects_of store.old) (as_object (exception self.now)) }
        requires traceback { IfThere (IsTraceback store.old.made) (object_of_traceback tb) }
        ensures edited { IsEdited store.old store.new (as_object (exception self.now)) (traceback_edit tb) }
        ensures set { IsTracebackSet (objects_of store.old) (objects_of store.new) (exception self.now) tb }
        ensures now { HasTraceback (objects_of store.new) (exception self.now) tb }
        ensures spare { store.old.spare ≤ store.new.spare + 1 };

    /// The exception that it was raised from (Python Language Reference, 7.8): the last that it was given for its cause.
    fn cause(&self, store: &Store) -> Option<PyBaseExceptionRef>
        requires { IsException (objects_of store.now) (as_object (exception self.now)) }
        ensures { HasLink CauseLink (objects_of store.now) (exception self.now) result };

    /// The exception that was handled as it came: the last that it was given for its context.
    fn context(&self, store: &Store) -> Option<PyBaseExceptionRef>
        requires { IsException (objects_of store.now) (as_object (exception self.now)) }
        ensures { HasLink ContextLink (objects_of store.now) (exception self.now) result };

    /// Whether its context is left out of what is printed.
    fn get_suppress_context(&self, store: &Store) -> bool
        requires { IsException (objects_of store.now) (as_object (exception self.now)) }
        ensures { IsSuppressed (objects_of store.now) (exception self.now) result };

    /// Gives it a tuple of arguments in place of the one that it has, by a change that there is a place for.
    fn set_args(&self, store: &mut Store, args: PyObjectRef)
        requires spare { 0 < store.old.spare }
        requires exception { IsException (objects_of store.old) (as_object (exception self.now)) }
        requires args { IsTuple (objects_of store.old) args }
        ensures edited { IsEdited store.old store.new (as_object (exception self.now)) (ArgsEdit args) }
        ensures now { HasArgs (objects_of store.new) (exception self.now) args }
        ensures spare { store.old.spare ≤ store.new.spare + 1 };

    /// Gives it a cause in place of the one that it has, or takes that off, and suppresses its context, by two changes that
    /// there are places for.
    fn set_cause(&self, store: &mut Store, exc: Option<PyBaseExceptionRef>)
        requires spare { 2 ≤ store.old.spare }
        requires exception { IsException (objects_of store.old) (as_object (exception self.now)) }
        requires cause { IfThere (IsException (objects_of store.old)) (object_of_exception exc) }
        ensures edited { IsCaused store.old store.new (exception self.now) exc }
        ensures now { HasLink CauseLink (objects_of store.new) (exception self.now) exc }
        ensures suppressed { IsSuppressed (objects_of store.new) (exception self.now) true }
        ensures spare { store.old.spare ≤ store.new.spare + 2 };

    /// Gives it a context in place of the one that it has, or takes that off, by a change that there is a place for.
    fn set_context(&self, store: &mut Store, exc: Option<PyBaseExceptionRef>)
        requires spare { 0 < store.old.spare }
        requires exception { IsException (objects_of store.old) (as_object (exception self.now)) }
        requires context { IfThere (IsException (objects_of store.old)) (object_of_exception exc) }
        ensures edited { IsLinkSet store.old store.new ContextLink (exception self.now) exc }
        ensures now { HasLink ContextLink (objects_of store.new) (exception self.now) exc }
        ensures spare { store.old.spare ≤ store.new.spare + 1 };

    /// Sets whether its context is left out of what is printed, by a change that there is a place for.
    fn set_suppress_context(&self, store: &mut Store, b: bool)
        requires spare { 0 < store.old.spare }
        requires exception { IsException (objects_of store.old) (as_object (exception self.now)) }
        ensures edited { IsEdited store.old store.new (as_object (exception self.now)) (FlagEdit b) }
        ensures now { IsSuppressed (objects_of store.new) (exception self.now) b }
        ensures spare { store.old.spare ≤ store.new.spare + 1 };

    /// What it says (Python Library Reference, Built-in Exceptions), as `str` gives it.
    fn str(&self, alloc: Global, store: &Store) -> Result<PyText, NoMemory>
        ensures { IfOk result (λ text. text ≡ str_of (objects_of store.now) (exception self.now)) };

    /// What represents it (Python Language Reference, 3.3.1), as `repr` gives it.
    fn repr(&self, alloc: Global, store: &Store) -> Result<PyText, NoMemory>
        ensures { IfOk result (λ text. text ≡ repr_of (objects_of store.now) (exception self.now)) };

    /// Whether it is an exception, and its class, its arguments and the values of its attributes are there, so that it can be
    /// reduced. The names of attributes are copied for that.
    fn is_reducible(&self, store: &Store) -> Result<bool, NoMemory>
        ensures { IfOk result (λ yes. Decides yes (IsReducible store.now (exception self.now))) };

    /// What it can be made again from: a new tuple of its class and its arguments, and of a new dict of its attributes where it has
    /// any. Where memory runs out, objects may have come that nothing names.
    fn reduce(&self, store: &mut Store) -> Result<PyObjectRef, NoMemory>
        requires { IsReducible store.old (exception self.now) }
        ensures grows { IsGrown store.old store.new }
        ensures reduced { IfOk result (IsReduced store.old store.new (exception self.now)) };
}

impl BaseException for PyBaseExceptionRef {
    ghost exception = { λ e. e };

    fn args(&self, store: &Store) -> PyObjectRef {
        exception_body(store, *self).args
    }

    fn get_arg(&self, store: &Store, idx: usize) -> Option<PyObjectRef> {
        tuple_items(store, self.args(store)).get(idx).copied()
    }

    fn traceback(&self, store: &Store) -> Option<PyTracebackRef> {
        match exception_body(store, *self).traceback {
            None => None,
            Some(traceback) => Some(PyTracebackRef {
                number: traceback.number,
            }),
        }
    }

    fn set_traceback(&self, store: &mut Store, tb: Option<PyTracebackRef>) {
        let link = traceback_object(tb);
        store.change(
            PyObjectRef::from(*self),
            Edit::Link(LinkField::Traceback, link),
        );
    }

    fn with_traceback(&self, store: &mut Store, tb: Option<PyTracebackRef>) {
        self.set_traceback(store, tb);
    }

    fn cause(&self, store: &Store) -> Option<PyBaseExceptionRef> {
        as_exception(exception_body(store, *self).cause)
    }

    fn context(&self, store: &Store) -> Option<PyBaseExceptionRef> {
        as_exception(exception_body(store, *self).context)
    }

    fn get_suppress_context(&self, store: &Store) -> bool {
        exception_body(store, *self).suppress
    }

    fn set_args(&self, store: &mut Store, args: PyObjectRef) {
        change_exception(store, *self, Edit::Args(args));
    }

    fn set_cause(&self, store: &mut Store, exc: Option<PyBaseExceptionRef>) {
        set_link(store, *self, LinkField::Cause, exc);
        change_exception(store, *self, Edit::Flag(true));
    }

    fn set_context(&self, store: &mut Store, exc: Option<PyBaseExceptionRef>) {
        set_link(store, *self, LinkField::Context, exc);
    }

    fn set_suppress_context(&self, store: &mut Store, b: bool) {
        change_exception(store, *self, Edit::Flag(b));
    }

    fn str(&self, alloc: Global, store: &Store) -> Result<PyText, NoMemory> {
        let mut out = String::new(alloc);
        push_whole_str(&mut out, store.objects(), PyObjectRef::from(*self))?;
        text_of_str(alloc, out.as_str())
    }

    fn repr(&self, alloc: Global, store: &Store) -> Result<PyText, NoMemory> {
        let mut out = String::new(alloc);
        push_whole_repr(&mut out, store.objects(), PyObjectRef::from(*self))?;
        text_of_str(alloc, out.as_str())
    }

    fn is_reducible(&self, store: &Store) -> Result<bool, NoMemory> {
        is_reducible(store, *self)
    }

    fn reduce(&self, store: &mut Store) -> Result<PyObjectRef, NoMemory> {
        reduced(store, *self)
    }
}
