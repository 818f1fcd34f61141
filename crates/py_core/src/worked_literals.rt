//! Journals of scripts that show a number twice, worked by hand, and what the definitions say of them.

ghost use Rattle.py_grammar.specs.Lines.{lines};
ghost use Rattle.py_grammar.specs.Script.{Spells};
ghost use Rattle.py_meaning.specs.Worked.{object};
ghost use Rattle.py_core.specs.WorkedLiterals.{
  ShowsFailing,
  ShowsWhole,
  decls_with,
  drives,
  literals_script,
  one_value,
  two_literals,
  value_script,
};

/// Each time that a literal is evaluated it may be any object of its value; what was assigned stays the object that it is.
pub fn worked_literal_runs()
    // The scripts.
    ensures literals_spelled { Spells (lines literals_script) (decls_with two_literals) drives }
    ensures value_spelled { Spells (lines value_script) (decls_with one_value) drives }
    // Two literals may be two objects, and one.
    ensures two_objects { ShowsWhole two_literals (object 4) (object 5) }
    ensures one_object { ShowsWhole two_literals (object 4) (object 4) }
    // A value is either of the two, and stays it.
    ensures one_value_is_one { ShowsWhole one_value (object 4) (object 4) }
    ensures or_the_other { ShowsWhole one_value (object 5) (object 5) }
    ensures one_value_is_not_two { ShowsFailing one_value 5 (object 4) (object 5) }
{}
