//! What answers of the top call were worked out to say, whatever the source tells.

ghost use Rattle.py_script.specs.Worked.{WholeIsOfSome, WholeIsAtEnd, BadLineIsAtEnd, OutOfTurnsIsAtEnd, TooLongIsBeforeEnd, TooLongIsNoFault, NoRoundIsFirst};

/// A run that is answered as whole is one of some script, also where the source tells no bytes, and comes only once the source
/// has told its end.
pub fn worked_answers()
    ensures some_script { WholeIsOfSome }
    ensures at_the_end { WholeIsAtEnd }
    // So do a bad line, and turns that ran out.
    ensures bad_line_at_the_end { BadLineIsAtEnd }
    ensures out_of_turns_at_the_end { OutOfTurnsIsAtEnd }
    // Too long is a source whose last read gave more, and none of whose reads failed.
    ensures no_too_long_at_the_end { TooLongIsBeforeEnd }
    ensures no_too_long_after_a_fault { TooLongIsNoFault }
    // A journal that no script has.
    ensures no_round_before_a_drive { NoRoundIsFirst }
{}
