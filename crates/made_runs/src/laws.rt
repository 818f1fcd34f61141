//! What is so of each text that is made from a seed: it has a whole run.

ghost use Rattle.made_runs.specs.Runs.{AreCore, HaveRuns};

/// States laws, and does nothing. Each text that is made with at most `MOST_GROUPS` groups is a script that has a whole run,
/// of at most 37 events a group, and no raw code and no report.
pub fn laws_of_made_runs()
    ensures runs { HaveRuns }
    ensures core { AreCore }
{}
