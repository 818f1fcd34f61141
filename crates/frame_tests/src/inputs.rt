//! What frames are told, as words.

ghost use Rattle.std.specs.Prelude.{◌≡◌, IfSome, true};
ghost use Rattle.py_check.specs.declared.note.Kind.TheVariants as kind;
ghost use Rattle.py_rows.specs.declared.expect.Expect.TheVariants as expect;
ghost use Rattle.py_rows.specs.declared.expect.Wanted.TheVariants as want;
ghost use Rattle.py_frame.specs.declared.input.Answer.TheVariants as answer;
ghost use Rattle.py_frame.specs.declared.input.Input.TheVariants as input;
ghost use Rattle.frame_tests.specs.FirstObjects.{object_at};
ghost use Rattle.frame_tests.specs.Inputs.{IsExpected};

use crate::objects::object;
use crate::tables::Said;
use py_check::Kind;
use py_frame::{Answer, Expect, Input, Wanted};
use py_objects::{GotAnswer, PyBaseExceptionRef};

/// The exception with a number.
pub const fn exception(number: u64) -> PyBaseExceptionRef
    ensures { result ≡ record { number = number } }
{
    PyBaseExceptionRef { number }
}

/// Whether an exception is wanted.
fn is_exception(wanted: Wanted) -> bool
    ensures { result ≡ true → wanted ≡ want.Of kind.Exc }
{
    match wanted {
        Wanted::Of(Kind::Exc) => true,
        _ => false,
    }
}

/// The answer that a word is, where it may answer what is wanted.
fn answer(wanted: Wanted, said: Said) -> Option<Input>
    ensures { IfSome result (λ input. IsExpected (expect.Answer wanted) input) }
{
    match said {
        Said::Nothing => match wanted {
            Wanted::Of(Kind::Any) | Wanted::ExceptionOrNone => Some(value(0)),
            _ => None,
        },
        Said::False => match wanted {
            Wanted::Of(Kind::Any) | Wanted::Truth => Some(value(1)),
            _ => None,
        },
        Said::True => match wanted {
            Wanted::Of(Kind::Any) | Wanted::Truth => Some(value(2)),
            _ => None,
        },
        Said::Exception if is_exception(wanted) => Some(value(5)),
        Said::Fails => Some(Input::Answer(Answer::Fresh(exception(6)))),
        _ => None,
    }
}

/// The object with a number answers.
fn value(number: u64) -> Input
    ensures { result ≡ input.Answer (answer.Value (object_at number)) }
{
    Input::Answer(Answer::Value(object(number)))
}

/// The input that a word is, where a frame that expects this may be told so.
pub fn input(expects: Expect, said: Said) -> Option<Input>
    ensures { IfSome result (λ input. IsExpected expects input) }
{
    match expects {
        Expect::Start => match said {
            Said::Start => Some(Input::Start),
            Said::Throw => Some(Input::Throw(exception(5))),
            _ => None,
        },
        Expect::Go => match said {
            Said::Go => Some(Input::Go),
            _ => None,
        },
        Expect::Answer(wanted) => answer(wanted, said),
        Expect::Resume => match said {
            Said::Send => Some(Input::Send(object(2))),
            Said::Throw => Some(Input::Throw(exception(5))),
            _ => None,
        },
        Expect::Heard(_) | Expect::Ended => None,
    }
}

#[test]
fn an_answer_is_named_by_what_it_is(rt: HostRuntime) {
    let value = object(7);
    assert!(rt; Answer::Value(value).got() == GotAnswer::Value(value));
}
