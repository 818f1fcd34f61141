//! Short lists of events, compared by hand.

ghost use Rattle.py_agreement.specs.Worked.{NoOperandsSwapped, NoOtherEnd, NoOtherHandled, NoOtherShown, NoQuestionForEnd, NothingBehindAnswers, NumbersAreFree, ScenesAreFaithful};

/// States which short lists agree and which don't, where objects are the same by their numbers, and does nothing: the operands of a
/// sum in the other order don't agree, nor does another object that is shown, another exception that is handled, a question where the
/// other list ends, or an end by another object. Behind different answers nothing is said, numbers of events and units are free. The
/// law's premise is met: bodies see the same of related objects in a scene and itself, or one with more objects, where one object, and any
/// two that one literal may stand for, are related.
pub fn worked_agreement()
    ensures no_operands_swapped { NoOperandsSwapped }
    ensures no_other_shown { NoOtherShown }
    ensures no_other_handled { NoOtherHandled }
    ensures no_question_for_end { NoQuestionForEnd }
    ensures no_other_end { NoOtherEnd }
    ensures nothing_behind_answers { NothingBehindAnswers }
    ensures numbers_are_free { NumbersAreFree }
    ensures faithful { ScenesAreFaithful }
{}
