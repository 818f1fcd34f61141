//! What questions are answered, before it is known who asked.

ghost use Rattle.std.specs.Prelude.{◌≡◌, length, IfOk};
ghost use Rattle.py_objects.specs.Growth.{IsGrown};
ghost use Rattle.py_objects.specs.Objects.{numbers_if, AllBelow};
ghost use Rattle.py_exceptions.specs.Classes.{HaveClasses};
ghost use Rattle.py_vm.specs.Courses.{GivesAny, NamesThere};
ghost use Rattle.py_vm.specs.Made.{IsNewStop};
ghost use Rattle.py_vm.specs.Turns.{result_of, KeepsValue};

use py_code::NoMemory;
use py_exceptions::{ExceptionZoo, make_exception};
use py_frame::Answer;
use py_objects::{DriveAnswer, ErrorKind, ObjList, PyBaseExceptionRef, PyObjectRef, Store};
use std::alloc::Global;

/// What a question is answered.
#[derive(Clone, Copy, Drop)]
pub(crate) enum Reply {
    Value(PyObjectRef),
    /// The raise of an exception that the answer made.
    Fresh(PyBaseExceptionRef),
    /// The raise of an exception that came from elsewhere.
    Passed(PyBaseExceptionRef),
    /// A generator yielded this.
    Yields(PyObjectRef),
    /// It stopped, with this value where it has one.
    Stops(Option<PyObjectRef>),
    /// It is closed.
    Closes,
}

impl Reply {
    /// The answer that a body gets: what was yielded is its value, a stop is the raise of a new StopIteration (Python Language Reference,
    /// 6.2.9.1), and of what is closed it gets None.
    pub(crate) fn answer(
        self,
        alloc: Global,
        store: &mut Store,
        zoo: &ExceptionZoo,
    ) -> Result<Answer, NoMemory>
        requires classes { HaveClasses zoo.now store.old.made }
        requires there { NamesThere store.old.made self }
        ensures grows { IsGrown store.old store.new }
        ensures value { IfOk result (KeepsValue self) }
        ensures given { IfOk result (GivesAny store.old store.new self) }
    {
        match self {
            Reply::Value(value) => Ok(Answer::Value(value)),
            Reply::Fresh(exception) => Ok(Answer::Fresh(exception)),
            Reply::Passed(exception) => Ok(Answer::Passed(exception)),
            Reply::Yields(value) => Ok(Answer::Value(value)),
            Reply::Stops(value) => Ok(Answer::Fresh(stopped(alloc, store, zoo, value)?)),
            Reply::Closes => Ok(Answer::Value(store.none())),
        }
    }

    /// The result that a drive has.
    pub(crate) fn result(self) -> DriveAnswer
        ensures { result ≡ result_of self }
    {
        match self {
            Reply::Value(value) => DriveAnswer::Returns(value),
            Reply::Fresh(exception) => DriveAnswer::Raises(exception),
            Reply::Passed(exception) => DriveAnswer::Raises(exception),
            Reply::Yields(value) => DriveAnswer::Yields(value),
            Reply::Stops(value) => DriveAnswer::Stops(value),
            Reply::Closes => DriveAnswer::Closes,
        }
    }
}

/// A new StopIteration, with the value as its argument where there is one.
fn stopped(
    alloc: Global,
    store: &mut Store,
    zoo: &ExceptionZoo,
    value: Option<PyObjectRef>,
) -> Result<PyBaseExceptionRef, NoMemory>
    requires classes { HaveClasses zoo.now store.old.made }
    requires value { AllBelow (length store.old.made) (numbers_if value) }
    ensures grows { IsGrown store.old store.new }
    ensures made { IfOk result (IsNewStop zoo.now store.old store.new value) }
{
    let mut args = ObjList::new(alloc);
    if let Some(value) = value {
        args.push(value)?;
    }
    make_exception(store, zoo.class(ErrorKind::StopIteration), args)
}
