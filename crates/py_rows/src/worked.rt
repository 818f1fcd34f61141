//! Frames that leave blocks, worked by hand.

ghost use Rattle.std.specs.Prelude.{◌≡◌, Some, None, true, false};
ghost use Rattle.py_code.specs.declared.instruction.Instruction.TheVariants as op;
ghost use Rattle.py_objects.specs.Objects.{Obj};
ghost use Rattle.py_rows.specs.declared.block.BlockType.TheVariants as typ;
ghost use Rattle.py_rows.specs.Receiving.{passes_if};
ghost use Rattle.py_rows.specs.Rows.{asks_exit};
ghost use Rattle.py_rows.specs.States.{Stuck};
ghost use Rattle.py_rows.specs.Unwinding.{unwinds};
ghost use Rattle.py_rows.specs.WorkedUnwinding.{below, breaks, calls_exit, catching, continues, enters_except, exited, exiting, finishing, goes_behind, handling, inside, leaves_around, leaves_loop, lowest, next_round, object, raises, returns, asks_truth, Acts, Enters, GoesBehind, GoesOn, Passes};

/// Where each reason leads from each kind of block, and how the handlers of finallies and the exits of managers end.
pub fn worked_unwinding()
    // A loop takes a break and a continue.
    ensures raise_in_loop { Passes raises (inside typ.Loop) 20 }
    ensures return_in_loop { Passes returns (inside typ.Loop) 20 }
    ensures break_in_loop { unwinds breaks (inside typ.Loop) ≡ leaves_loop }
    ensures continue_in_loop { unwinds continues (inside typ.Loop) ≡ next_round }
    // A try takes what is raised, and the other reasons pass it.
    ensures raise_in_try { unwinds raises (inside (typ.TryExcept 8)) ≡ enters_except }
    ensures return_in_try { Passes returns (inside (typ.TryExcept 8)) 20 }
    ensures break_in_try { Passes breaks (inside (typ.TryExcept 8)) 20 }
    ensures continue_in_try { Passes continues (inside (typ.TryExcept 8)) 20 }
    // A finally takes each reason.
    ensures raise_in_finally { Enters raises 10 }
    ensures return_in_finally { Enters returns 20 }
    ensures break_in_finally { Enters breaks 20 }
    ensures continue_in_finally { Enters continues 20 }
    // Each reason passes a handler; what was handled outside of it is handled again.
    ensures raise_in_finally_handler { Passes raises (finishing (Some breaks)) 21 }
    ensures return_in_finally_handler { Passes returns (finishing (Some breaks)) 21 }
    ensures break_in_finally_handler { Passes breaks (finishing (Some breaks)) 21 }
    ensures continue_in_finally_handler { Passes continues (finishing (Some breaks)) 21 }
    ensures raise_in_except_handler { Passes raises catching 21 }
    ensures return_in_except_handler { Passes returns catching 21 }
    ensures break_in_except_handler { Passes breaks catching 21 }
    ensures continue_in_except_handler { Passes continues catching 21 }
    // Handlers and blocks that end in order.
    ensures handler_ends { GoesBehind op.PopException catching below 21 }
    ensures block_ends { GoesBehind op.PopBlock (inside (typ.Finally 8)) below 20 }
    // The handler of a finally ends, and goes on with its reason.
    ensures finally_ends { GoesBehind op.EndFinally (finishing None) below 21 }
    ensures raise_behind_finally { GoesOn op.EndFinally raises }
    ensures return_behind_finally { GoesOn op.EndFinally returns }
    ensures break_behind_finally { GoesOn op.EndFinally breaks }
    ensures continue_behind_finally { GoesOn op.EndFinally continues }
    // The exit of a manager is right under its block. Only an exception may end there, and only by an answer that is true.
    ensures exit_called { (t v b : Obj) → asks_exit exiting t v b ≡ calls_exit t v b }
    ensures exit_covered { (t v b : Obj) → asks_exit (finishing None) t v b ≡ Stuck }
    ensures no_exit { (t v b : Obj) → asks_exit (record catching { stack = below }) t v b ≡ Stuck }
    ensures exit_answered { GoesBehind op.WithCleanupFinish (finishing None) lowest 21 }
    ensures raise_behind_exit { Acts op.WithCleanupFinish (finishing (Some raises)) asks_truth }
    ensures return_behind_exit { GoesOn op.WithCleanupFinish returns }
    ensures break_behind_exit { GoesOn op.WithCleanupFinish breaks }
    ensures continue_behind_exit { GoesOn op.WithCleanupFinish continues }
    ensures raise_goes_on { passes_if false (object 10) exited ≡ leaves_around raises (handling 21) }
    ensures raise_ends { passes_if true (object 10) exited ≡ goes_behind lowest (handling 21) }
{}
