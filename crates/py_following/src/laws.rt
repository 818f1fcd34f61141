//! What follows for events that are followed.

ghost use Rattle.py_following.specs.Laws.{FollowedAreRuns, RunsAreFollowed};

/// States laws, and does nothing: events that may come one after another are a front of a run of a core script, and each event of a run may come behind
/// those before it.
pub fn laws_of_following()
    ensures sound { FollowedAreRuns }
    ensures complete { RunsAreFollowed }
{}
