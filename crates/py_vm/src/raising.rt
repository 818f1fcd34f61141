//! What an event brings into a body.

ghost use Rattle.std.specs.Prelude.{◌≡◌, Some};
ghost use Rattle.py_run.specs.Raises.{is_raising};
ghost use Rattle.py_vm.specs.Raising.{brought, raising_by, thrown_by};

use py_frame::Answer;
use py_objects::{PyBaseExceptionRef, PyTracebackRef, Request, ResumeHow};

/// An exception that an event brings into a body, and the links that it gets there (Python Language Reference, 3.2.13.1 and 7.8).
#[derive(Clone, Copy)]
pub(crate) struct Raising {
    pub exception: PyBaseExceptionRef,
    /// Whether what is handled there becomes its context. One that came from elsewhere keeps its own.
    pub gets_context: bool,
    /// The entry that its traceback gets in front. Where it was thrown in there is none.
    pub entry: Option<PyTracebackRef>,
}

impl Raising {
    /// An exception that gets no entry so far.
    fn new(exception: PyBaseExceptionRef, gets_context: bool) -> Raising
        ensures { result ≡ brought exception gets_context }
    {
        Raising {
            exception,
            gets_context,
            entry: None,
        }
    }

    /// What an answer to a question brings into the body that gets it, if it raises anything there.
    pub(crate) fn by_answer(request: &Request, answer: Answer) -> Option<Raising>
        ensures { result ≡ raising_by (Some request.now) answer }
    {
        match answer {
            Answer::Value(value) => {
                if is_raising(request) {
                    let exception = PyBaseExceptionRef {
                        number: value.number,
                    };
                    Some(Raising::new(exception, true))
                } else {
                    None
                }
            }
            Answer::Stop(_) => None,
            Answer::Fresh(exception) => Some(Raising::new(exception, true)),
            Answer::Passed(exception) => Some(Raising::new(exception, false)),
        }
    }

    /// What is thrown where an activation is entered like this, if anything is.
    pub(crate) fn by_throw(how: ResumeHow) -> Option<Raising>
        ensures { result ≡ thrown_by how }
    {
        match how {
            ResumeHow::Start => None,
            ResumeHow::Send(_) => None,
            ResumeHow::Throw(exception) => Some(Raising::new(exception, true)),
        }
    }
}

/// Whether who asks this raises the value that it is answered.
fn is_raising(request: &Request) -> bool
    ensures { result ≡ is_raising (Some request.now) }
{
    matches!(request, Request::Handled | Request::Raisable(_))
}
