//! Raises, and what is sent and thrown in.

use crate::drives::compare;
use crate::tables::Said::{Exception, Nothing, Send, Start, Throw, True};
use crate::tables::{Case, Open, Row};
use py_check::Kind::{Any, Exc};
use py_code::Instruction::{LoadFast, Raise, ReturnValue, SetupExcept, TestOperation, YieldValue};
use std::test::Fail;

/// The three kinds of raise, exceptions that are thrown in, and one that is matched.
const RAISES: [Case; 7] = [
    Case {
        name: "what is handled is raised again",
        rows: &[
            Row(SetupExcept, 3, &[], &[]),
            Row(LoadFast, 0, &[], &[Open::TryExcept(0, 3)]),
            Row(Raise, 1, &[Any], &[Open::TryExcept(0, 3)]),
            Row(Raise, 0, &[Exc], &[Open::ExceptHandler(0)]),
        ],
        said: &[Start, Exception, Exception],
        told: "3 Raisable 2; 4 Handled own 5 slot 5; 4 raise 5; ",
    },
    Case {
        name: "a value is raised",
        rows: &[Row(LoadFast, 0, &[], &[]), Row(Raise, 1, &[Any], &[])],
        said: &[Start, Exception],
        told: "2 Raisable 2; 2 raise 5; ",
    },
    Case {
        name: "a value is raised from a cause",
        rows: &[
            Row(LoadFast, 0, &[], &[]),
            Row(LoadFast, 1, &[Any], &[]),
            Row(Raise, 2, &[Any, Any], &[]),
        ],
        said: &[Start, Nothing, Exception],
        told: "3 Cause 8; 3 Raisable 2; 3 raise 5; ",
    },
    Case {
        name: "no unit runs where an exception is thrown into what hasn't begun",
        rows: &[
            Row(SetupExcept, 4, &[], &[]),
            Row(LoadFast, 0, &[], &[Open::TryExcept(0, 4)]),
            Row(YieldValue, 0, &[Any], &[Open::TryExcept(0, 4)]),
            Row(ReturnValue, 0, &[Any], &[Open::TryExcept(0, 4)]),
            Row(ReturnValue, 0, &[Exc], &[Open::ExceptHandler(0)]),
        ],
        said: &[Throw],
        told: "0 raise 5; ",
    },
    Case {
        name: "a value is sent where one was yielded",
        rows: &[
            Row(SetupExcept, 4, &[], &[]),
            Row(LoadFast, 0, &[], &[Open::TryExcept(0, 4)]),
            Row(YieldValue, 0, &[Any], &[Open::TryExcept(0, 4)]),
            Row(ReturnValue, 0, &[Any], &[Open::TryExcept(0, 4)]),
            Row(ReturnValue, 0, &[Exc], &[Open::ExceptHandler(0)]),
        ],
        said: &[Start, Send],
        told: "3 yield 2; 4 return 2; ",
    },
    Case {
        name: "an exception is thrown in where a value was yielded",
        rows: &[
            Row(SetupExcept, 4, &[], &[]),
            Row(LoadFast, 0, &[], &[Open::TryExcept(0, 4)]),
            Row(YieldValue, 0, &[Any], &[Open::TryExcept(0, 4)]),
            Row(ReturnValue, 0, &[Any], &[Open::TryExcept(0, 4)]),
            Row(ReturnValue, 0, &[Exc], &[Open::ExceptHandler(0)]),
        ],
        said: &[Start, Throw],
        told: "3 yield 2; 5 return 5; ",
    },
    Case {
        name: "an exception is matched",
        rows: &[
            Row(SetupExcept, 3, &[], &[]),
            Row(LoadFast, 0, &[], &[Open::TryExcept(0, 3)]),
            Row(Raise, 1, &[Any], &[Open::TryExcept(0, 3)]),
            Row(LoadFast, 0, &[Exc], &[Open::ExceptHandler(0)]),
            Row(TestOperation, 4, &[Any, Exc], &[Open::ExceptHandler(0)]),
            Row(ReturnValue, 0, &[Any], &[Open::ExceptHandler(0)]),
        ],
        said: &[Start, Exception, True],
        told: "3 Raisable 2; 5 Match 5 2 own 5 slot 5; 6 return 2; ",
    },
];

#[test]
fn raises_and_throws_go_to_their_handlers(rt: HostRuntime) -> Result<(), Fail> {
    compare(&rt, rt.alloc(), &RAISES)
}
