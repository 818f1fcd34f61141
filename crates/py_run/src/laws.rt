//! What holds of all events that may come one after another.

ghost use Rattle.py_run.specs.Laws.{ActivationsNest, AnswersKeepGenerators, ClosedCloses, ClosedRaises, ClosedStops, CutWhereItRuns, PastIsOfEvents, RunsGoOn, RunsGrow, RunsHaveFronts, RunsTakeMore};

/// States laws, and does nothing.
///
/// The past behind some events has these and the state behind them. Events that may come one after another (`Comes`) still may as objects come
/// that declare nothing, and as more drives are begun; so may they with one more behind them that may come next; and so may each front of them.
/// Activations nest: where one is left that was entered, by its end or by a yield, as many drives are done as before its entry, the same
/// activations run, each with what it asked, at the same depth, with the same question open, and the same exception is handled (Python Language
/// Reference, 6.2.9, 7.8 and 8.4). What an activation told is cut inside only where it still runs: else it is its making alone, or ends by a yield
/// or its end. What activations tell is another part of a run (`IsRunBy`).
pub fn laws_of_runs()
    ensures past { PastIsOfEvents }
    ensures grow { RunsGrow }
    ensures more { RunsTakeMore }
    ensures on { RunsGoOn }
    ensures fronts { RunsHaveFronts }
    ensures nest { ActivationsNest }
    ensures cut { CutWhereItRuns }
{}

/// States laws, and does nothing.
///
/// A closed generator answers each send by a stop without a value, each throw by the exception that its arguments normalise to, or by their
/// refusal, and each close by nothing more, at any depth (Python Language Reference, 6.2.9.1). An answer at once, which enters no generator,
/// leaves all of them as they are, a refusal too; that to a close alone closes one that hasn't been entered yet.
pub fn laws_of_generators()
    ensures stops { ClosedStops }
    ensures raises { ClosedRaises }
    ensures closes { ClosedCloses }
    ensures keeps { AnswersKeepGenerators }
{}
