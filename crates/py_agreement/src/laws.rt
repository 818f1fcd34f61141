//! What follows for two traces of one tree.

ghost use Rattle.py_agreement.specs.Laws.{TracesAgree};

/// States a law, and does nothing: two traces of one tree whose arguments are related agree as far as both go. Up to the first thing
/// that they hear differently both tell the same, but for the numbers of objects, of events and of units, and for the traceback that an
/// exit takes: the same requests while the same exception is handled, the same rounds, yields and end. Which objects are related a test
/// on their numbers says, of which no more is asked than that bodies see the same of related objects.
pub fn laws_of_agreement()
    ensures { TracesAgree }
{}
