//! What follows from the rows of calls.

ghost use Rattle.py_coro.specs.Laws.{ClosedIsDoneAtCloses, ClosedRaisesAtThrows, ClosedStopsAtSends, EntriesRun, LeftRunsNot, OnlyEntriesRun, RefusedClosesChangeNothing, RefusedSendsChangeNothing, RefusedThrowsChangeNothing, RunningRefuses};

/// States laws, and does nothing. A generator that refuses a call is what it was. One that is closed stops at each send, raises what is
/// thrown and is done at each close, however deep, and stays closed. One that runs refuses all three. Each entry makes it run, and
/// nothing else does; one that was left doesn't run.
pub fn laws_of_coros()
    ensures refused_sends { RefusedSendsChangeNothing }
    ensures refused_throws { RefusedThrowsChangeNothing }
    ensures refused_closes { RefusedClosesChangeNothing }
    ensures closed_stops { ClosedStopsAtSends }
    ensures closed_raises { ClosedRaisesAtThrows }
    ensures closed_is_done { ClosedIsDoneAtCloses }
    ensures running_refuses { RunningRefuses }
    ensures entries { EntriesRun }
    ensures only_entries { OnlyEntriesRun }
    ensures left { LeftRunsNot }
{}
