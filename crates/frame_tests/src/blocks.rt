//! Blocks that are left: a code for each kind of block by each reason.

use crate::drives::compare;
use crate::tables::Said::{Exception, Fails, False, Go, Nothing, Start, True};
use crate::tables::{Case, Open, Row};
use py_check::Kind::{Any, Exc};
use py_check::Pending;
use py_code::Instruction::{
    Break, Continue, EndFinally, JumpIfFalse, LoadFast, PopBlock, PopException, PrintExpr, Raise,
    ReturnConst, ReturnValue, SetupExcept, SetupFinally, SetupLoop,
};
use std::test::Fail;

/// A loop is left by a break, a continue, a return and a raise.
const LOOP: [Case; 4] = [
    Case {
        name: "a break leaves its loop with what lies above its level",
        rows: &[
            Row(LoadFast, 0, &[], &[]),
            Row(SetupLoop, 0, &[Any], &[]),
            Row(LoadFast, 1, &[Any], &[Open::Loop(1)]),
            Row(Break, 4, &[Any, Any], &[Open::Loop(1)]),
            Row(ReturnValue, 0, &[Any], &[]),
        ],
        said: &[Start, Go],
        told: "2 round; 5 return 2; ",
    },
    Case {
        name: "a continue goes to its loop's next round",
        rows: &[
            Row(SetupLoop, 0, &[], &[]),
            Row(LoadFast, 0, &[], &[Open::Loop(0)]),
            Row(JumpIfFalse, 4, &[Any], &[Open::Loop(0)]),
            Row(Continue, 1, &[], &[Open::Loop(0)]),
            Row(PopBlock, 0, &[], &[Open::Loop(0)]),
            Row(ReturnConst, 0, &[], &[]),
        ],
        said: &[Start, Go, True, Go, False],
        told: "1 round; 3 Truth 2; 4 round; 3 Truth 2; 6 return 10; ",
    },
    Case {
        name: "a return leaves a loop",
        rows: &[
            Row(SetupLoop, 0, &[], &[]),
            Row(LoadFast, 0, &[], &[Open::Loop(0)]),
            Row(ReturnValue, 0, &[Any], &[Open::Loop(0)]),
        ],
        said: &[Start, Go],
        told: "1 round; 3 return 2; ",
    },
    Case {
        name: "a raise leaves a loop for the try around it",
        rows: &[
            Row(SetupExcept, 4, &[], &[]),
            Row(SetupLoop, 0, &[], &[Open::TryExcept(0, 4)]),
            Row(LoadFast, 0, &[], &[Open::Loop(0), Open::TryExcept(0, 4)]),
            Row(Raise, 1, &[Any], &[Open::Loop(0), Open::TryExcept(0, 4)]),
            Row(ReturnValue, 0, &[Exc], &[Open::ExceptHandler(0)]),
        ],
        said: &[Start, Go, Exception],
        told: "2 round; 4 Raisable 2; 5 return 5; ",
    },
];

/// A try is left by a break, a continue, a return and a raise.
const TRY_EXCEPT: [Case; 4] = [
    Case {
        name: "a break leaves a try, which takes no raise behind it",
        rows: &[
            Row(SetupLoop, 0, &[], &[]),
            Row(SetupExcept, 3, &[], &[Open::Loop(0)]),
            Row(Break, 4, &[], &[Open::TryExcept(0, 3), Open::Loop(0)]),
            Row(
                ReturnConst,
                0,
                &[Exc],
                &[Open::ExceptHandler(0), Open::Loop(0)],
            ),
            Row(LoadFast, 2, &[], &[]),
            Row(ReturnValue, 0, &[Any], &[]),
        ],
        said: &[Start, Go, Fails],
        told: "1 round; 5 Unbound x; 5 raise 6; ",
    },
    Case {
        name: "a continue leaves a try, which takes no raise in the next round",
        rows: &[
            Row(SetupLoop, 0, &[], &[]),
            Row(LoadFast, 0, &[], &[Open::Loop(0)]),
            Row(JumpIfFalse, 6, &[Any], &[Open::Loop(0)]),
            Row(SetupExcept, 5, &[], &[Open::Loop(0)]),
            Row(Continue, 1, &[], &[Open::TryExcept(0, 5), Open::Loop(0)]),
            Row(
                ReturnConst,
                0,
                &[Exc],
                &[Open::ExceptHandler(0), Open::Loop(0)],
            ),
            Row(ReturnConst, 0, &[], &[Open::Loop(0)]),
        ],
        said: &[Start, Go, True, Go, Fails],
        told: "1 round; 3 Truth 2; 5 round; 3 Truth 2; 3 raise 6; ",
    },
    Case {
        name: "a return leaves a try",
        rows: &[
            Row(SetupExcept, 3, &[], &[]),
            Row(LoadFast, 0, &[], &[Open::TryExcept(0, 3)]),
            Row(ReturnValue, 0, &[Any], &[Open::TryExcept(0, 3)]),
            Row(ReturnConst, 0, &[Exc], &[Open::ExceptHandler(0)]),
        ],
        said: &[Start],
        told: "3 return 2; ",
    },
    Case {
        name: "a try takes what is raised, and its handler ends",
        rows: &[
            Row(LoadFast, 0, &[], &[]),
            Row(SetupExcept, 4, &[Any], &[]),
            Row(LoadFast, 1, &[Any], &[Open::TryExcept(1, 4)]),
            Row(Raise, 1, &[Any, Any], &[Open::TryExcept(1, 4)]),
            Row(PrintExpr, 0, &[Exc, Any], &[Open::ExceptHandler(1)]),
            Row(PopException, 0, &[Any], &[Open::ExceptHandler(1)]),
            Row(ReturnValue, 0, &[Any], &[]),
        ],
        said: &[Start, Exception, Nothing],
        told: "4 Raisable 8; 5 Show 5 own 5 slot 5; 7 return 2; ",
    },
];

/// A body that a finally waits for is left by a break, a continue, a return and a raise.
const FINALLY: [Case; 4] = [
    Case {
        name: "a break waits for a finally",
        rows: &[
            Row(SetupLoop, 0, &[], &[]),
            Row(SetupFinally, 3, &[], &[Open::Loop(0)]),
            Row(Break, 7, &[], &[Open::Finally(0, 3), Open::Loop(0)]),
            Row(
                LoadFast,
                0,
                &[],
                &[
                    Open::FinallyHandler(0, Some(Pending::Break(7))),
                    Open::Loop(0),
                ],
            ),
            Row(
                PrintExpr,
                0,
                &[Any],
                &[
                    Open::FinallyHandler(0, Some(Pending::Break(7))),
                    Open::Loop(0),
                ],
            ),
            Row(
                EndFinally,
                0,
                &[],
                &[
                    Open::FinallyHandler(0, Some(Pending::Break(7))),
                    Open::Loop(0),
                ],
            ),
            Row(PopBlock, 0, &[], &[Open::Loop(0)]),
            Row(ReturnConst, 0, &[], &[]),
        ],
        said: &[Start, Go, Nothing],
        told: "1 round; 5 Show 2; 8 return 10; ",
    },
    Case {
        name: "a continue waits for a finally",
        rows: &[
            Row(SetupLoop, 0, &[], &[]),
            Row(LoadFast, 0, &[], &[Open::Loop(0)]),
            Row(JumpIfFalse, 8, &[Any], &[Open::Loop(0)]),
            Row(SetupFinally, 5, &[], &[Open::Loop(0)]),
            Row(Continue, 1, &[], &[Open::Finally(0, 5), Open::Loop(0)]),
            Row(
                LoadFast,
                0,
                &[],
                &[
                    Open::FinallyHandler(0, Some(Pending::Continue(1))),
                    Open::Loop(0),
                ],
            ),
            Row(
                PrintExpr,
                0,
                &[Any],
                &[
                    Open::FinallyHandler(0, Some(Pending::Continue(1))),
                    Open::Loop(0),
                ],
            ),
            Row(
                EndFinally,
                0,
                &[],
                &[
                    Open::FinallyHandler(0, Some(Pending::Continue(1))),
                    Open::Loop(0),
                ],
            ),
            Row(PopBlock, 0, &[], &[Open::Loop(0)]),
            Row(ReturnConst, 0, &[], &[]),
        ],
        said: &[Start, Go, True, Nothing, Go, False],
        told: "1 round; 3 Truth 2; 7 Show 2; 8 round; 3 Truth 2; 10 return 10; ",
    },
    Case {
        name: "a return waits for a finally",
        rows: &[
            Row(SetupFinally, 3, &[], &[]),
            Row(LoadFast, 0, &[], &[Open::Finally(0, 3)]),
            Row(ReturnValue, 0, &[Any], &[Open::Finally(0, 3)]),
            Row(LoadFast, 1, &[], &[Open::FinallyHandler(0, None)]),
            Row(PrintExpr, 0, &[Any], &[Open::FinallyHandler(0, None)]),
            Row(EndFinally, 0, &[], &[Open::FinallyHandler(0, None)]),
            Row(ReturnConst, 0, &[], &[]),
        ],
        said: &[Start, Nothing],
        told: "5 Show 8; 6 return 2; ",
    },
    Case {
        name: "a raise waits for a finally, which handles it",
        rows: &[
            Row(SetupFinally, 3, &[], &[]),
            Row(LoadFast, 0, &[], &[Open::Finally(0, 3)]),
            Row(Raise, 1, &[Any], &[Open::Finally(0, 3)]),
            Row(LoadFast, 1, &[], &[Open::FinallyHandler(0, None)]),
            Row(PrintExpr, 0, &[Any], &[Open::FinallyHandler(0, None)]),
            Row(EndFinally, 0, &[], &[Open::FinallyHandler(0, None)]),
            Row(ReturnConst, 0, &[], &[]),
        ],
        said: &[Start, Exception, Nothing],
        told: "3 Raisable 2; 5 Show 8 own 5 slot 5; 6 raise 5; ",
    },
];

/// A finally that runs is left by a break, a continue, a return and a raise.
const FINALLY_HANDLER: [Case; 4] = [
    Case {
        name: "a break in a finally ends the raise that waits there",
        rows: &[
            Row(SetupLoop, 0, &[], &[]),
            Row(SetupFinally, 4, &[], &[Open::Loop(0)]),
            Row(LoadFast, 0, &[], &[Open::Finally(0, 4), Open::Loop(0)]),
            Row(Raise, 1, &[Any], &[Open::Finally(0, 4), Open::Loop(0)]),
            Row(
                Break,
                5,
                &[],
                &[Open::FinallyHandler(0, None), Open::Loop(0)],
            ),
            Row(LoadFast, 0, &[], &[]),
            Row(PrintExpr, 0, &[Any], &[]),
            Row(ReturnConst, 0, &[], &[]),
        ],
        said: &[Start, Go, Exception, Nothing],
        told: "1 round; 4 Raisable 2; 7 Show 2; 8 return 10; ",
    },
    Case {
        name: "a continue in a finally ends the return that waits there",
        rows: &[
            Row(SetupLoop, 0, &[], &[]),
            Row(LoadFast, 0, &[], &[Open::Loop(0)]),
            Row(JumpIfFalse, 6, &[Any], &[Open::Loop(0)]),
            Row(SetupFinally, 5, &[], &[Open::Loop(0)]),
            Row(ReturnConst, 0, &[], &[Open::Finally(0, 5), Open::Loop(0)]),
            Row(
                Continue,
                1,
                &[],
                &[Open::FinallyHandler(0, None), Open::Loop(0)],
            ),
            Row(ReturnConst, 0, &[], &[Open::Loop(0)]),
        ],
        said: &[Start, Go, True, Go, False],
        told: "1 round; 3 Truth 2; 6 round; 3 Truth 2; 7 return 11; ",
    },
    Case {
        name: "a return in a finally ends the raise that waits there",
        rows: &[
            Row(SetupFinally, 3, &[], &[]),
            Row(LoadFast, 0, &[], &[Open::Finally(0, 3)]),
            Row(Raise, 1, &[Any], &[Open::Finally(0, 3)]),
            Row(LoadFast, 1, &[], &[Open::FinallyHandler(0, None)]),
            Row(ReturnValue, 0, &[Any], &[Open::FinallyHandler(0, None)]),
        ],
        said: &[Start, Exception],
        told: "3 Raisable 2; 5 return 8; ",
    },
    Case {
        name: "a raise in a finally ends the return that waits there",
        rows: &[
            Row(SetupFinally, 3, &[], &[]),
            Row(LoadFast, 0, &[], &[Open::Finally(0, 3)]),
            Row(ReturnValue, 0, &[Any], &[Open::Finally(0, 3)]),
            Row(LoadFast, 1, &[], &[Open::FinallyHandler(0, None)]),
            Row(Raise, 1, &[Any], &[Open::FinallyHandler(0, None)]),
        ],
        said: &[Start, Exception],
        told: "5 Raisable 8; 5 raise 5; ",
    },
];

/// A handler that runs is left by a break, a continue, a return and a raise.
const EXCEPT_HANDLER: [Case; 4] = [
    Case {
        name: "a break leaves a handler",
        rows: &[
            Row(SetupLoop, 0, &[], &[]),
            Row(SetupExcept, 4, &[], &[Open::Loop(0)]),
            Row(LoadFast, 0, &[], &[Open::TryExcept(0, 4), Open::Loop(0)]),
            Row(Raise, 1, &[Any], &[Open::TryExcept(0, 4), Open::Loop(0)]),
            Row(Break, 5, &[Exc], &[Open::ExceptHandler(0), Open::Loop(0)]),
            Row(LoadFast, 0, &[], &[]),
            Row(PrintExpr, 0, &[Any], &[]),
            Row(ReturnConst, 0, &[], &[]),
        ],
        said: &[Start, Go, Exception, Nothing],
        told: "1 round; 4 Raisable 2; 7 Show 2; 8 return 10; ",
    },
    Case {
        name: "a continue leaves a handler",
        rows: &[
            Row(SetupLoop, 0, &[], &[]),
            Row(LoadFast, 0, &[], &[Open::Loop(0)]),
            Row(JumpIfFalse, 7, &[Any], &[Open::Loop(0)]),
            Row(SetupExcept, 6, &[], &[Open::Loop(0)]),
            Row(LoadFast, 0, &[], &[Open::TryExcept(0, 6), Open::Loop(0)]),
            Row(Raise, 1, &[Any], &[Open::TryExcept(0, 6), Open::Loop(0)]),
            Row(
                Continue,
                1,
                &[Exc],
                &[Open::ExceptHandler(0), Open::Loop(0)],
            ),
            Row(ReturnConst, 0, &[], &[Open::Loop(0)]),
        ],
        said: &[Start, Go, True, Exception, Go, False],
        told: "1 round; 3 Truth 2; 6 Raisable 2; 7 round; 3 Truth 2; 8 return 10; ",
    },
    Case {
        name: "a return leaves a handler",
        rows: &[
            Row(SetupExcept, 3, &[], &[]),
            Row(LoadFast, 0, &[], &[Open::TryExcept(0, 3)]),
            Row(Raise, 1, &[Any], &[Open::TryExcept(0, 3)]),
            Row(ReturnValue, 0, &[Exc], &[Open::ExceptHandler(0)]),
        ],
        said: &[Start, Exception],
        told: "3 Raisable 2; 4 return 5; ",
    },
    Case {
        name: "a raise leaves a handler",
        rows: &[
            Row(SetupExcept, 3, &[], &[]),
            Row(LoadFast, 0, &[], &[Open::TryExcept(0, 3)]),
            Row(Raise, 1, &[Any], &[Open::TryExcept(0, 3)]),
            Row(LoadFast, 1, &[Exc], &[Open::ExceptHandler(0)]),
            Row(Raise, 1, &[Any, Exc], &[Open::ExceptHandler(0)]),
        ],
        said: &[Start, Exception, Fails],
        told: "3 Raisable 2; 5 Raisable 8 own 5 slot 5; 5 raise 6; ",
    },
];

#[test]
fn each_reason_leaves_a_loop(rt: HostRuntime) -> Result<(), Fail> {
    compare(&rt, rt.alloc(), &LOOP)
}

#[test]
fn each_reason_leaves_a_try(rt: HostRuntime) -> Result<(), Fail> {
    compare(&rt, rt.alloc(), &TRY_EXCEPT)
}

#[test]
fn each_reason_leaves_a_body_of_a_finally(rt: HostRuntime) -> Result<(), Fail> {
    compare(&rt, rt.alloc(), &FINALLY)
}

#[test]
fn each_reason_leaves_a_finally(rt: HostRuntime) -> Result<(), Fail> {
    compare(&rt, rt.alloc(), &FINALLY_HANDLER)
}

#[test]
fn each_reason_leaves_a_handler(rt: HostRuntime) -> Result<(), Fail> {
    compare(&rt, rt.alloc(), &EXCEPT_HANDLER)
}
