//! What follows from how trees tell their events.

ghost use Rattle.py_tree.specs.Laws.{TracesCarry};
ghost use Rattle.py_tree.specs.Endings.{ClauseEndsAsSuite, ClausesRunOnRaise, CutStaysCut, ExitGoesOn, ExitIsAsked, FinallyIsRun, FinallyPassesOn, FirstClauseDecides, NameIsUnset, NoClauseRaises, StatementsGoOn, SuiteEndsClause, TracesComeToPoints};

/// States a law, and does nothing: a trace may be cut anywhere behind the making of its activation, and goes over to more objects,
/// to more units that may ask and to more events that may throw an exception in.
pub fn laws_of_traces()
    ensures carry { TracesCarry }
{}

/// States laws, and does nothing, of where statements may come to: a trace that is started comes from a point that its body comes to,
/// and statements in order from one to the next. Behind each outcome of its body, and behind no cut, a finally runs: where it ends
/// normally it passes that outcome on, and any other ending replaces it. Behind a clause that binds a name this is unset at every
/// ending, and all else is as its suite left it. A try with clauses comes to what its body came to, unless that raised: then, while
/// the exception is handled, its clauses are tried in order. The suite of the first one runs where the exception is of the class that
/// it names, those behind it are tried where it isn't. Where none is left some exception is
/// raised, or the telling is cut; which exception, the answer to `Handled` says. Behind each outcome of its body but a cut a `with`
/// asks the exit of its manager: a raise goes on unless the answer is true, and any other outcome goes on whatever the answer is.
pub fn laws_of_endings()
    ensures traces { TracesComeToPoints }
    ensures goes_on { StatementsGoOn }
    ensures passes { FinallyPassesOn }
    ensures cut { CutStaysCut }
    ensures runs { FinallyIsRun }
    ensures unset { NameIsUnset }
    ensures ends_as_suite { ClauseEndsAsSuite }
    ensures suite_ends { SuiteEndsClause }
    ensures on_raise { ClausesRunOnRaise }
    ensures decides { FirstClauseDecides }
    ensures none_fits { NoClauseRaises }
    ensures leaves { ExitIsAsked }
    ensures left { ExitGoesOn }
{}
