//! What is so of each text that is made from a seed, with at most `MOST_GROUPS` groups.

ghost use Rattle.py_make.specs.Laws.{AreScripts, AreShort};

/// States laws, and does nothing. Each text that is made with at most `MOST_GROUPS` groups is a script, of at most 2^20 bytes.
pub fn laws_of_made()
    ensures scripts { AreScripts }
    ensures short { AreShort }
{}
