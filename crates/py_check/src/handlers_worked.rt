//! Codes that were worked by hand, with handlers, finallies, managers, moves and yields.

ghost use Rattle.std.specs.Prelude.{[], ◌∷◌};
ghost use Rattle.py_code.specs.declared.instruction.Instruction.TheVariants as op;
ghost use Rattle.py_code.specs.declared.flags.TheConstants.CodeFlags.{HAS_VARARGS, IS_COROUTINE, IS_GENERATOR};
ghost use Rattle.py_code.specs.Flags.{all_of};
ghost use Rattle.py_check.specs.declared.note.Kind.TheVariants as kind;
ghost use Rattle.py_check.specs.declared.note.Pending.TheVariants as pending;
ghost use Rattle.py_check.specs.declared.note.Note.TheVariants as note;
ghost use Rattle.py_check.specs.Worked.{Typed, Breaks, unit, sheet, holds, nothing, two, one_text, on_both, on_first, ending, returning, beginning, stranded, handles, handled, loop_above, values};
ghost use Rattle.py_check.specs.WorkedHandlers.{trying, trying_by, jumping_out, breaking, breaking_twice, handling, finishing, rotating, raising_with_cause, copying, yielding, jumping, managing};

/// Codes that leave blocks for a reason keep the rules, and others break them, each first at a certain unit.
pub fn worked_handlers()
    // A try has a handler at a label, with the exception on top, and it alone ends as a handler.
    ensures tries { Typed trying }
    ensures no_label { Breaks (trying_by 6 (unit op.PopException 0) handles) 0 }
    ensures no_exception { Breaks (trying_by 3 (unit op.PopException 0) handled) 1 }
    ensures handler_popped { Breaks (trying_by 3 (unit op.PopBlock 0) handles) 4 }
    ensures handler_as_finally { Breaks (trying_by 3 (unit op.EndFinally 0) handles) 4 }
    // A break out of a finally waits in its handler, if that lets it.
    ensures break_waits { Typed (breaking (pending.Break 7 ∷ [])) }
    ensures break_may_not_wait { Breaks (breaking []) 2 }
    ensures only_continue_may_wait { Breaks (breaking (pending.Continue 7 ∷ [])) 2 }
    ensures continue_waits { Typed (jumping_out (unit op.Continue 1) (pending.Continue 1 ∷ [])) }
    ensures waits_twice { Typed (breaking_twice (pending.Break 9 ∷ [])) }
    ensures may_not_wait_twice { Breaks (breaking_twice []) 4 }
    ensures finally_popped { Breaks (finishing (unit op.PopBlock 0) 0 [] []) 1 }
    ensures waits_for_nowhere { Breaks (breaking (pending.Break 7 ∷ pending.Break 6 ∷ [])) 5 }
    // A break lands after its loop, and a continue in it.
    ensures breaks_out_of_handler { Typed handling }
    ensures breaks_out { Typed (jumping (unit op.Break 2) nothing) }
    ensures break_keeps_its_loop { Breaks (jumping (unit op.Break 1) nothing) 1 }
    ensures continues { Typed (jumping (unit op.Continue 1) note.Dead) }
    ensures continue_leaves_its_loop { Breaks (jumping (unit op.Continue 2) nothing) 1 }
    ensures break_without_loop { Breaks (sheet (unit op.Break 0 ∷ []) (nothing ∷ [])) 0 }
    // The exit of a manager lies under its block, and goes with it.
    ensures manages { Typed (managing (unit op.WithCleanupFinish 0)) }
    ensures exit_stays { Breaks (managing (unit op.EndFinally 0)) 6 }
    ensures value_above_exit { Breaks (finishing (unit op.WithCleanupStart 0) 1 (values 2) (values 3)) 1 }
    ensures no_answer_of_exit { Breaks (finishing (unit op.WithCleanupFinish 0) 1 (values 1) []) 1 }
{}

/// Codes that move values, raise or yield keep the rules, and others break them.
pub fn worked_values()
    ensures rotates { Typed (rotating (unit op.Rotate2 0)) }
    ensures rotates_too_many { Breaks (rotating (unit op.Rotate3 0)) 2 }
    ensures duplicates { Typed (on_first (unit op.Duplicate 0) two) }
    // A copy is of any kind.
    ensures copies { Typed (copying one_text (holds (kind.Any ∷ kind.Str ∷ []))) }
    ensures copy_keeps_kind { Breaks (copying one_text (holds (kind.Str ∷ kind.Str ∷ []))) 1 }
    ensures duplicates_nothing { Breaks (returning (unit op.Duplicate 0)) 0 }
    ensures moves_below { Breaks (stranded (unit op.Rotate2 0) (loop_above 2) (loop_above 2)) 1 }
    ensures matches { Typed (on_both op.TestOperation 4) }
    ensures tests_otherwise { Breaks (on_both op.TestOperation 5) 2 }
    ensures deletes { Typed (beginning (unit op.DeleteFast 1)) }
    ensures deletes_no_local { Breaks (beginning (unit op.DeleteFast 2)) 0 }
    ensures raises { Typed (ending (unit op.Raise 1)) }
    ensures raises_again { Typed (sheet (unit op.Raise 0 ∷ []) (nothing ∷ [])) }
    ensures raises_with_cause { Typed raising_with_cause }
    ensures raises_without_cause { Breaks (ending (unit op.Raise 2)) 1 }
    ensures raises_otherwise { Breaks (ending (unit op.Raise 3)) 1 }
    // A generator yields, and a coroutine.
    ensures yields { Typed (yielding IS_GENERATOR) }
    ensures yields_in_a_function { Breaks (record (yielding HAS_VARARGS) { arg_count = 1 }) 1 }
    ensures yields_in_a_coroutine { Typed (yielding IS_COROUTINE) }
    ensures yields_asynchronously { Typed (yielding (all_of (IS_GENERATOR ∷ IS_COROUTINE ∷ []))) }
{}
