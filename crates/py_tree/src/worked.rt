//! Small trees, worked by hand.

ghost use Rattle.py_tree.specs.Worked.{HandledIsTrace, LeftIsTrace, NoExceptionLetOut, NoExceptionStays, NoFinallyBrokenOutOf, NoFinallySkipped, ReturnedIsTrace, ShownIsTrace};
ghost use Rattle.py_tree.specs.WorkedGenerators.{NoClauseBeforeStart, NoOtherYielded, NoThrowIntoFunction, NoThrowWhereItMayNot, NoneGoesOnAlone, ThrownInIsTrace, ThrownWhileHandling, YieldedIsTrace};
ghost use Rattle.py_tree.specs.WorkedHandlers.{FinallyHandles, NameIsForgotten, NotByTheClause, NoFinallyForgets, RaisedAgain};
ghost use Rattle.py_tree.specs.WorkedManagers.{LeftByReturnIsTrace, NoExitSkipped, NoExitSkippedByRaise, NoExitUnhandled, NoRaiseSwallowed, NoReturnSwallowed, SwallowedIsTrace};

/// States what small trees may not tell, and what they may in place of it, and does nothing.
pub fn worked_trees()
    ensures no_finally_skipped { NoFinallySkipped }
    ensures shown { ShownIsTrace }
    ensures no_finally_broken_out_of { NoFinallyBrokenOutOf }
    ensures left { LeftIsTrace }
    ensures no_exception_let_out { NoExceptionLetOut }
    ensures returned { ReturnedIsTrace }
    ensures no_exception_stays { NoExceptionStays }
    ensures handled { HandledIsTrace }
{}

/// States which exception is handled in small trees with handlers, and from which line what is asked, and does nothing.
pub fn worked_handlers()
    ensures handles { FinallyHandles }
    ensures no_finally_forgets { NoFinallyForgets }
    ensures raised_again { RaisedAgain }
    ensures not_by_the_clause { NotByTheClause }
    ensures forgotten { NameIsForgotten }
{}

/// States what small generators yield, how they go on, what ends them before their start, and what they handle where an exception is
/// thrown in, and does nothing.
pub fn worked_yields()
    ensures yielded { YieldedIsTrace }
    ensures no_other_yielded { NoOtherYielded }
    ensures none_goes_on_alone { NoneGoesOnAlone }
    ensures thrown_in { ThrownInIsTrace }
    ensures no_clause_before_start { NoClauseBeforeStart }
    ensures no_throw_into_function { NoThrowIntoFunction }
    ensures thrown_while_handling { ThrownWhileHandling }
    ensures no_throw_where_it_may_not { NoThrowWhereItMayNot }
{}

/// States what the exits of managers are asked in small trees, that one may swallow a raise, and that none is left out behind a
/// return or swallows it, and does nothing. Nor is one left out behind a raise, or asked as if nothing were handled, and a raise goes on
/// where the answer isn't true.
pub fn worked_managers()
    ensures swallowed { SwallowedIsTrace }
    ensures left { LeftByReturnIsTrace }
    ensures no_exit_skipped { NoExitSkipped }
    ensures no_return_swallowed { NoReturnSwallowed }
    ensures no_exit_skipped_by_raise { NoExitSkippedByRaise }
    ensures no_exit_unhandled { NoExitUnhandled }
    ensures no_raise_swallowed { NoRaiseSwallowed }
{}
