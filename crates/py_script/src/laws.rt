//! What is so of each script that is loaded or refused.

ghost use Rattle.py_script.specs.Laws.{NeverBoth, OneIsBroken, ScriptsKeepOrBreak, SomeIsBroken};

/// States laws, and does nothing. Of each script either all raw codes keep the typing rules, or one is the first that breaks one,
/// at a unit that is the first of it; and never both, nor two.
pub fn laws_of_refusals()
    // Also of declarations that no bytes spell, where they are well formed.
    ensures some { SomeIsBroken }
    ensures scripts { ScriptsKeepOrBreak }
    ensures never_both { NeverBoth }
    ensures one { OneIsBroken }
{}
