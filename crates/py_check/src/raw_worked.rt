//! Codes that were worked by hand, as a host might write them.

ghost use Rattle.std.specs.Prelude.{[], ◌∷◌};
ghost use Rattle.py_code.specs.declared.instruction.Instruction.TheVariants as op;
ghost use Rattle.py_check.specs.Worked.{Typed, Breaks, unit, nothing, one};
ghost use Rattle.py_check.specs.WorkedRaw.{before_return, into_prefixes, looping_async, managing_async, none_as_tuple, plain, prefix_alone, yielding_in_none};

/// In code that a host might write, the first unit that breaks a rule is named. An asynchronous manager and loop keep the rules.
pub fn worked_raw()
    ensures label_behind_prefix { Breaks into_prefixes 1 }
    ensures return_alone { Typed (plain 1 (unit op.ReturnConst 0 ∷ []) (nothing ∷ [])) }
    ensures room { Typed (before_return 1 (unit op.LoadConst 0) one) }
    ensures no_room { Breaks (before_return 0 (unit op.LoadConst 0) one) 0 }
    ensures none_is_no_tuple { Breaks none_as_tuple 0 }
    ensures pops_nothing { Breaks (before_return 0 (unit op.Pop 0) nothing) 0 }
    ensures breaks_no_loop { Breaks (before_return 0 (unit op.Break 1) nothing) 0 }
    ensures yields_in_no_generator { Breaks yielding_in_none 1 }
    ensures prefix_at_the_end { Breaks prefix_alone 0 }
    ensures pops_no_exception { Breaks (before_return 0 (unit op.PopException 0) nothing) 0 }
    ensures manages_async { Typed managing_async }
    ensures loops_async { Typed (looping_async (unit op.EndAsyncFor 0)) }
    ensures loops_otherwise { Breaks (looping_async (unit op.PopException 0)) 13 }
{}
