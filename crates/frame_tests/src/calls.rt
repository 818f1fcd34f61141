//! Calls, by what is called.

use crate::drives::compare;
use crate::tables::Said::{Start, True};
use crate::tables::{Case, Row};
use py_check::Kind::Any;
use py_code::Instruction::{CallFunctionPositional, LoadConst, LoadFast, ReturnValue};
use std::test::Fail;

/// Calls of the functions that drive a generator, which are constants 1, 2 and 3, and come as object 10, and of another object.
const CALLS: [Case; 7] = [
    Case {
        name: "a value is sent",
        rows: &[
            Row(LoadConst, 1, &[], &[]),
            Row(LoadFast, 0, &[Any], &[]),
            Row(LoadFast, 1, &[Any, Any], &[]),
            Row(CallFunctionPositional, 2, &[Any, Any, Any], &[]),
            Row(ReturnValue, 0, &[Any], &[]),
        ],
        said: &[Start, True],
        told: "4 Send 2 8; 5 return 2; ",
    },
    Case {
        name: "an exception is thrown in",
        rows: &[
            Row(LoadConst, 2, &[], &[]),
            Row(LoadFast, 0, &[Any], &[]),
            Row(LoadFast, 1, &[Any, Any], &[]),
            Row(CallFunctionPositional, 2, &[Any, Any, Any], &[]),
            Row(ReturnValue, 0, &[Any], &[]),
        ],
        said: &[Start, True],
        told: "4 Throw 2 8; 5 return 2; ",
    },
    Case {
        name: "an exception is thrown in with a value",
        rows: &[
            Row(LoadConst, 2, &[], &[]),
            Row(LoadFast, 0, &[Any], &[]),
            Row(LoadFast, 1, &[Any, Any], &[]),
            Row(LoadFast, 0, &[Any, Any, Any], &[]),
            Row(CallFunctionPositional, 3, &[Any, Any, Any, Any], &[]),
            Row(ReturnValue, 0, &[Any], &[]),
        ],
        said: &[Start, True],
        told: "5 Throw 2 8 2; 6 return 2; ",
    },
    Case {
        name: "a throw with a traceback is a plain call",
        rows: &[
            Row(LoadConst, 2, &[], &[]),
            Row(LoadFast, 0, &[Any], &[]),
            Row(LoadFast, 1, &[Any, Any], &[]),
            Row(LoadFast, 0, &[Any, Any, Any], &[]),
            Row(LoadFast, 0, &[Any, Any, Any, Any], &[]),
            Row(CallFunctionPositional, 4, &[Any, Any, Any, Any, Any], &[]),
            Row(ReturnValue, 0, &[Any], &[]),
        ],
        said: &[Start, True],
        told: "6 Call 10 2 8 2 2; 7 return 2; ",
    },
    Case {
        name: "a generator is closed",
        rows: &[
            Row(LoadConst, 3, &[], &[]),
            Row(LoadFast, 0, &[Any], &[]),
            Row(CallFunctionPositional, 1, &[Any, Any], &[]),
            Row(ReturnValue, 0, &[Any], &[]),
        ],
        said: &[Start, True],
        told: "3 Close 2; 4 return 2; ",
    },
    Case {
        name: "a call with an argument too many is a plain call",
        rows: &[
            Row(LoadConst, 3, &[], &[]),
            Row(LoadFast, 0, &[Any], &[]),
            Row(LoadFast, 1, &[Any, Any], &[]),
            Row(CallFunctionPositional, 2, &[Any, Any, Any], &[]),
            Row(ReturnValue, 0, &[Any], &[]),
        ],
        said: &[Start, True],
        told: "4 Call 10 2 8; 5 return 2; ",
    },
    Case {
        name: "a call of any other object is a plain call",
        rows: &[
            Row(LoadFast, 0, &[], &[]),
            Row(LoadFast, 1, &[Any], &[]),
            Row(CallFunctionPositional, 1, &[Any, Any], &[]),
            Row(ReturnValue, 0, &[Any], &[]),
        ],
        said: &[Start, True],
        told: "3 Call 2 8; 4 return 2; ",
    },
];

#[test]
fn a_call_asks_what_its_callee_comes_to(rt: HostRuntime) -> Result<(), Fail> {
    compare(&rt, rt.alloc(), &CALLS)
}
