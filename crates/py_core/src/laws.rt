//! What follows for runs of core scripts.

ghost use Rattle.py_core.specs.Laws.{FailsAtOnePlace, MachineRunsAreCore, WholeNeverFails};

/// States laws, and does nothing: a journal of a machine is a run to somebody who has the script alone; no journal is both a
/// whole run and none, and one that is none fails at one place.
pub fn laws_of_core_runs()
    ensures machine { MachineRunsAreCore }
    ensures whole { WholeNeverFails }
    ensures one_place { FailsAtOnePlace }
{}
