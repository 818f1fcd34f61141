//! Two runs of one script, compared.

ghost use Rattle.py_meaning.specs.Compared.{NoOtherAnswer, NoOtherIdentity, NoOtherOrder};

/// States what can't differ in two runs of one script, and does nothing: at one place the one run doesn't get a 1 and the other a 2, nor does the one look
/// up a name and the other another one, and where the one gets one generator at two places the other doesn't get two.
pub fn worked_runs()
    ensures no_other_answer { NoOtherAnswer }
    ensures no_other_order { NoOtherOrder }
    ensures no_other_identity { NoOtherIdentity }
{}
