//! Managers: a `with` that is left by each reason.

use crate::drives::compare;
use crate::tables::Said::{Exception, Fails, False, Go, Nothing, Start, True};
use crate::tables::{Case, Open, Row};
use py_check::Kind::Any;
use py_check::Pending;
use py_code::Instruction::{
    Break, Continue, EnterFinally, LoadFast, PopBlock, PrintExpr, Raise, ReturnConst, ReturnValue,
    SetupLoop, SetupWith, WithCleanupFinish, WithCleanupStart,
};
use std::test::Fail;

/// A `with` that ends, and that is left by a break, a continue, a return and a raise.
const MANAGERS: [Case; 9] = [
    Case {
        name: "a with ends in order",
        rows: &[
            Row(LoadFast, 1, &[], &[]),
            Row(SetupWith, 5, &[Any], &[]),
            Row(PrintExpr, 0, &[Any, Any], &[Open::Finally(1, 5)]),
            Row(PopBlock, 0, &[Any], &[Open::Finally(1, 5)]),
            Row(EnterFinally, 0, &[Any], &[]),
            Row(
                WithCleanupStart,
                0,
                &[Any],
                &[Open::FinallyHandler(1, None)],
            ),
            Row(
                WithCleanupFinish,
                0,
                &[Any, Any],
                &[Open::FinallyHandler(1, None)],
            ),
            Row(ReturnConst, 0, &[], &[]),
        ],
        said: &[Start, True, Nothing, Nothing],
        told: "2 Enter 8; 3 Show 2; 6 Exit 8 10 11 12; 8 return 13; ",
    },
    Case {
        name: "a break leaves a with by its exit",
        rows: &[
            Row(SetupLoop, 0, &[], &[]),
            Row(LoadFast, 1, &[], &[Open::Loop(0)]),
            Row(SetupWith, 4, &[Any], &[Open::Loop(0)]),
            Row(Break, 7, &[Any, Any], &[Open::Finally(1, 4), Open::Loop(0)]),
            Row(
                WithCleanupStart,
                0,
                &[Any],
                &[
                    Open::FinallyHandler(1, Some(Pending::Break(7))),
                    Open::Loop(0),
                ],
            ),
            Row(
                WithCleanupFinish,
                0,
                &[Any, Any],
                &[
                    Open::FinallyHandler(1, Some(Pending::Break(7))),
                    Open::Loop(0),
                ],
            ),
            Row(PopBlock, 0, &[], &[Open::Loop(0)]),
            Row(ReturnConst, 0, &[], &[]),
        ],
        said: &[Start, Go, True, Nothing],
        told: "1 round; 3 Enter 8; 5 Exit 8 10 11 12; 8 return 13; ",
    },
    Case {
        name: "a continue leaves a with by its exit",
        rows: &[
            Row(SetupLoop, 0, &[], &[]),
            Row(LoadFast, 1, &[], &[Open::Loop(0)]),
            Row(SetupWith, 4, &[Any], &[Open::Loop(0)]),
            Row(
                Continue,
                1,
                &[Any, Any],
                &[Open::Finally(1, 4), Open::Loop(0)],
            ),
            Row(
                WithCleanupStart,
                0,
                &[Any],
                &[
                    Open::FinallyHandler(1, Some(Pending::Continue(1))),
                    Open::Loop(0),
                ],
            ),
            Row(
                WithCleanupFinish,
                0,
                &[Any, Any],
                &[
                    Open::FinallyHandler(1, Some(Pending::Continue(1))),
                    Open::Loop(0),
                ],
            ),
            Row(ReturnConst, 0, &[], &[Open::Loop(0)]),
        ],
        said: &[Start, Go, True, Nothing, Go, Fails],
        told: "1 round; 3 Enter 8; 5 Exit 8 10 11 12; 6 round; 3 Enter 8; 3 raise 6; ",
    },
    Case {
        name: "a return leaves a with by its exit, whose answer doesn't end it",
        rows: &[
            Row(LoadFast, 1, &[], &[]),
            Row(SetupWith, 3, &[Any], &[]),
            Row(ReturnValue, 0, &[Any, Any], &[Open::Finally(1, 3)]),
            Row(
                WithCleanupStart,
                0,
                &[Any],
                &[Open::FinallyHandler(1, None)],
            ),
            Row(
                WithCleanupFinish,
                0,
                &[Any, Any],
                &[Open::FinallyHandler(1, None)],
            ),
            Row(ReturnConst, 0, &[], &[]),
        ],
        said: &[Start, True, True],
        told: "2 Enter 8; 4 Exit 8 10 11 12; 5 return 2; ",
    },
    Case {
        name: "a raise leaves a with by its exit, and goes on",
        rows: &[
            Row(LoadFast, 1, &[], &[]),
            Row(SetupWith, 3, &[Any], &[]),
            Row(Raise, 1, &[Any, Any], &[Open::Finally(1, 3)]),
            Row(
                WithCleanupStart,
                0,
                &[Any],
                &[Open::FinallyHandler(1, None)],
            ),
            Row(
                WithCleanupFinish,
                0,
                &[Any, Any],
                &[Open::FinallyHandler(1, None)],
            ),
            Row(ReturnConst, 0, &[], &[]),
        ],
        said: &[Start, True, Exception, Nothing, False],
        told: "2 Enter 8; 3 Raisable 2; 4 Exit 8 3 5 10 own 5 slot 5; 5 Truth 0; 5 raise 5; ",
    },
    Case {
        name: "a raise leaves a with by its exit, which ends it",
        rows: &[
            Row(LoadFast, 1, &[], &[]),
            Row(SetupWith, 3, &[Any], &[]),
            Row(Raise, 1, &[Any, Any], &[Open::Finally(1, 3)]),
            Row(
                WithCleanupStart,
                0,
                &[Any],
                &[Open::FinallyHandler(1, None)],
            ),
            Row(
                WithCleanupFinish,
                0,
                &[Any, Any],
                &[Open::FinallyHandler(1, None)],
            ),
            Row(ReturnConst, 0, &[], &[]),
        ],
        said: &[Start, True, Exception, Nothing, True],
        told: "2 Enter 8; 3 Raisable 2; 4 Exit 8 3 5 10 own 5 slot 5; 5 Truth 0; 6 return 11; ",
    },
    Case {
        name: "an exit that raises ends the raise that waits",
        rows: &[
            Row(LoadFast, 1, &[], &[]),
            Row(SetupWith, 3, &[Any], &[]),
            Row(Raise, 1, &[Any, Any], &[Open::Finally(1, 3)]),
            Row(
                WithCleanupStart,
                0,
                &[Any],
                &[Open::FinallyHandler(1, None)],
            ),
            Row(
                WithCleanupFinish,
                0,
                &[Any, Any],
                &[Open::FinallyHandler(1, None)],
            ),
            Row(ReturnConst, 0, &[], &[]),
        ],
        said: &[Start, True, Exception, Fails],
        told: "2 Enter 8; 3 Raisable 2; 4 Exit 8 3 5 10 own 5 slot 5; 4 raise 6; ",
    },
    Case {
        name: "an exit is told the traceback that its exception has by then",
        rows: &[
            Row(LoadFast, 1, &[], &[]),
            Row(SetupWith, 3, &[Any], &[]),
            Row(Raise, 1, &[Any, Any], &[Open::Finally(1, 3)]),
            Row(
                WithCleanupStart,
                0,
                &[Any],
                &[Open::FinallyHandler(1, None)],
            ),
            Row(
                WithCleanupFinish,
                0,
                &[Any, Any],
                &[Open::FinallyHandler(1, None)],
            ),
            Row(ReturnConst, 0, &[], &[]),
        ],
        said: &[Start, True, Fails, Nothing, False],
        told: "2 Enter 8; 3 Raisable 2; 4 Exit 8 3 6 9 own 6; 5 Truth 0; 5 raise 6; ",
    },
    Case {
        name: "what is no manager has no exit",
        rows: &[
            Row(LoadFast, 0, &[], &[]),
            Row(SetupWith, 3, &[Any], &[]),
            Row(Raise, 1, &[Any, Any], &[Open::Finally(1, 3)]),
            Row(
                WithCleanupStart,
                0,
                &[Any],
                &[Open::FinallyHandler(1, None)],
            ),
            Row(
                WithCleanupFinish,
                0,
                &[Any, Any],
                &[Open::FinallyHandler(1, None)],
            ),
            Row(ReturnConst, 0, &[], &[]),
        ],
        said: &[Start, True, Fails],
        told: "2 Enter 2; 2 NoExit 2; 2 raise 6; ",
    },
];

#[test]
fn each_reason_leaves_a_with_by_its_exit(rt: HostRuntime) -> Result<(), Fail> {
    compare(&rt, rt.alloc(), &MANAGERS)
}
