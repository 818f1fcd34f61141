//! What follows from the rules, of raw codes.

ghost use Rattle.py_raw.specs.Laws.{KeepsOrBreaksRule, NoneBreaksRule, OneBreaksRule};

/// States three laws, and does nothing: a raw code that a script may have keeps the rules, or a unit breaks one first; at most one
/// unit does, and none in a raw code that keeps them.
pub fn laws_of_raw_codes()
    ensures some_breaks { KeepsOrBreaksRule }
    ensures one_breaks { OneBreaksRule }
    ensures none_breaks { NoneBreaksRule }
{}
