//! What follows for places.

ghost use Rattle.py_places.specs.Checking.{Decided};

/// States a law, and does nothing: the own events of an activation are accepted, one after another, just where they are a trace of its body.
pub fn laws_of_places()
    ensures decided { Decided }
{}
