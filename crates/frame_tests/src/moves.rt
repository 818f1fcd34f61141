//! Locals that are deleted, and entries that are moved.

use crate::drives::compare;
use crate::tables::Said::{Fails, False, Start, True};
use crate::tables::{Case, Row};
use py_check::Kind::Any;
use py_code::Instruction::{
    CompareOperation, DeleteFast, Duplicate, LoadConst, LoadFast, Pop, ReturnConst, ReturnValue,
    Rotate2, Rotate3,
};
use std::test::Fail;

/// Locals and entries of the stack.
const MOVES: [Case; 5] = [
    Case {
        name: "a local that is unset isn't deleted",
        rows: &[Row(DeleteFast, 2, &[], &[]), Row(ReturnConst, 0, &[], &[])],
        said: &[Start, Fails],
        told: "1 Unbound x; 1 raise 6; ",
    },
    Case {
        name: "a local that was deleted is unset",
        rows: &[
            Row(DeleteFast, 0, &[], &[]),
            Row(LoadFast, 0, &[], &[]),
            Row(ReturnValue, 0, &[Any], &[]),
        ],
        said: &[Start, Fails],
        told: "2 Unbound x; 2 raise 6; ",
    },
    Case {
        name: "the top is copied",
        rows: &[
            Row(LoadFast, 0, &[], &[]),
            Row(Duplicate, 0, &[Any], &[]),
            Row(CompareOperation, 2, &[Any, Any], &[]),
            Row(ReturnValue, 0, &[Any], &[]),
        ],
        said: &[Start, False],
        told: "3 Compare 2 2; 4 return 1; ",
    },
    Case {
        name: "two entries change places",
        rows: &[
            Row(LoadFast, 0, &[], &[]),
            Row(LoadFast, 1, &[Any], &[]),
            Row(Rotate2, 0, &[Any, Any], &[]),
            Row(CompareOperation, 2, &[Any, Any], &[]),
            Row(ReturnValue, 0, &[Any], &[]),
        ],
        said: &[Start, False],
        told: "4 Compare 8 2; 5 return 1; ",
    },
    Case {
        name: "the top goes under the next two entries",
        rows: &[
            Row(LoadFast, 0, &[], &[]),
            Row(LoadFast, 1, &[Any], &[]),
            Row(LoadConst, 0, &[Any, Any], &[]),
            Row(Rotate3, 0, &[Any, Any, Any], &[]),
            Row(CompareOperation, 2, &[Any, Any, Any], &[]),
            Row(Pop, 0, &[Any, Any], &[]),
            Row(ReturnValue, 0, &[Any], &[]),
        ],
        said: &[Start, True],
        told: "5 Compare 2 8; 7 return 10; ",
    },
];

#[test]
fn locals_are_deleted_and_entries_moved(rt: HostRuntime) -> Result<(), Fail> {
    compare(&rt, rt.alloc(), &MOVES)
}
