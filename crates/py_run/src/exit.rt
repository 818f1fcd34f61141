//! How an exception ends a program (Python Library Reference, SystemExit).

ghost use Rattle.std.specs.Prelude.{◌≡◌};
ghost use Rattle.py_run.specs.Exits.{byte_of, ends_by, ends_by_argument, ends_by_arguments, exit_of, status_of};

use py_exceptions::payload_at;
use py_objects::{
    ErrorKind, ExceptionBody, Payload, PyBaseExceptionRef, PyObjectRef, derives_from,
};

/// How an exception ends a program: its status, and what is printed.
#[derive(Clone, Copy, Debug, PartialEq, Eq)]
pub enum Exit {
    /// Nothing is printed, and the status is this.
    Silent(u8),
    /// An object is printed as a text, on a line of its own. The status is 1.
    Says(PyObjectRef),
    /// What represents an object (its `repr`) is printed, on a line of its own. The status is 1.
    Shows(PyObjectRef),
    /// The report of the exception is printed, and the status is this.
    Reports(u8),
}

impl Exit {
    /// How this exception ends a program, by these objects. One of a class that derives from `SystemExit` or `KeyboardInterrupt` counts as such.
    /// What is no exception ends it as any other exception does: by a report and the status 1.
    pub fn of(objects: &[Payload], exc: PyBaseExceptionRef) -> Exit
        ensures { result ≡ exit_of objects.now exc }
    {
        match payload_at(objects, PyObjectRef::from(exc)).and_then(Payload::exception) {
            Some(body) => exit_by(objects, body),
            None => Exit::Reports(1),
        }
    }

    /// The status of the program.
    pub fn status(self) -> u8
        ensures { result ≡ status_of self }
    {
        match self {
            Exit::Silent(status) | Exit::Reports(status) => status,
            Exit::Says(_) | Exit::Shows(_) => 1,
        }
    }
}

/// How an exception ends it: only a SystemExit gives a status of its own, and 130 is that of an interrupt.
fn exit_by(objects: &[Payload], body: &ExceptionBody) -> Exit
    ensures { result ≡ ends_by objects.now body.now }
{
    if derives_from(objects, body.class, ErrorKind::SystemExit) {
        return exit_by_arguments(objects, body.args);
    }
    if derives_from(objects, body.class, ErrorKind::KeyboardInterrupt) {
        return Exit::Reports(130);
    }
    Exit::Reports(1)
}

/// How a SystemExit with these arguments ends it: several are shown as their tuple. Arguments are always a tuple, and all else counts as none.
fn exit_by_arguments(objects: &[Payload], args: PyObjectRef) -> Exit
    ensures { result ≡ ends_by_arguments objects.now args }
{
    let Some(items) = payload_at(objects, args).and_then(Payload::tuple) else {
        return Exit::Silent(0);
    };
    match items.as_slice() {
        [] => Exit::Silent(0),
        [argument] => exit_by_argument(objects, *argument),
        _ => Exit::Shows(args),
    }
}

/// How one with a single argument ends it: None, a truth value and a whole number are statuses, and all else is said.
fn exit_by_argument(objects: &[Payload], argument: PyObjectRef) -> Exit
    ensures { result ≡ ends_by_argument objects.now argument }
{
    match payload_at(objects, argument) {
        Some(Payload::None) => Exit::Silent(0),
        Some(Payload::Bool(truth)) => Exit::Silent(u8::from(*truth)),
        Some(Payload::Int(number)) => Exit::Silent(byte_or_zero(*number)),
        _ => Exit::Says(argument),
    }
}

/// The number as a status, which is a byte.
fn byte_or_zero(number: i128) -> u8
    ensures { result ≡ byte_of number }
{
    u8::try_from(number).unwrap_or(0)
}
