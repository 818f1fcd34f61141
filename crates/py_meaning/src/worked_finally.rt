//! A journal with a finally that was worked by hand, and what the definitions say of it.

ghost use Rattle.std.specs.Prelude.{◌≡◌, [], codes};
ghost use Rattle.py_grammar.specs.Lines.{lines};
ghost use Rattle.py_grammar.specs.Script.{Spells};
ghost use Rattle.py_run.specs.Coming.{IsDone};
ghost use Rattle.py_meaning.specs.Whole.{IsRunOf};
ghost use Rattle.py_meaning.specs.Text.{events_text};
ghost use Rattle.py_meaning.specs.WorkedFinally.{script, decls, objects, events, passed_by, unhandled, swallowed};
ghost use Rattle.py_meaning.specs.WorkedLoop.{drives};

/// The journal of a `try` whose body raises, and whose `finally` shows a number, is a whole run of its script (Python Language Reference, 8.4.4).
/// What differs from it in one thing is none.
pub fn worked_finallies()
    // The script, and its journal.
    ensures spelled { Spells (lines script) decls drives }
    ensures is_run { IsRunOf decls drives objects events }
    ensures is_whole { IsDone 1 events }
    ensures text { events_text objects [] events ≡ codes "1\n1 raises NameError: name 'z' is not defined\n" }
    // The finally runs, while the exception is handled, and passes it on.
    ensures no_finally_passed_by { IsRunOf decls drives objects passed_by → ⊥ }
    ensures no_finally_without_its_exception { IsRunOf decls drives objects unhandled → ⊥ }
    ensures no_exception_swallowed { IsRunOf decls drives objects swallowed → ⊥ }
{}
