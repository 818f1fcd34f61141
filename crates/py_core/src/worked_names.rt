//! Journals with an entry whose name the script doesn't declare, worked by hand, and what the definitions say of them.

ghost use Rattle.py_grammar.specs.Lines.{lines};
ghost use Rattle.py_grammar.specs.Script.{Spells};
ghost use Rattle.py_core.specs.WorkedLiterals.{decls_with, drives};
ghost use Rattle.py_core.specs.WorkedNames.{Fails, IsWhole, answering, raising, script, suite};

/// A name that the script doesn't declare is answered by NameError, whatever entries a journal has.
pub fn worked_name_runs()
    ensures spelled { Spells (lines script) (decls_with suite) drives }
    ensures raises { IsWhole raising }
    ensures not_answered { Fails 4 answering }
{}
