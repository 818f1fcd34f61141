//! A journal of a generator that was worked by hand, and what the definitions say of it.

ghost use Rattle.std.specs.Prelude.{◌≡◌, []};
ghost use Rattle.py_grammar.specs.Lines.{lines};
ghost use Rattle.py_grammar.specs.Script.{Spells};
ghost use Rattle.py_run.specs.Coming.{IsDone};
ghost use Rattle.py_meaning.specs.Whole.{IsRunOf};
ghost use Rattle.py_meaning.specs.Text.{events_text};
ghost use Rattle.py_meaning.specs.Worked.{object};
ghost use Rattle.py_meaning.specs.WorkedGenerator.{script, decls, drives, objects, events, never_entered, entered_by_call, returned_other, text, YieldsAs};

/// The journal of a call of a generator function and of the first `next` is a whole run of its script (Python Language Reference, 6.2.9). What
/// differs from it in one thing is none.
pub fn worked_generators()
    // The script, and its journal.
    ensures spelled { Spells (lines script) decls drives }
    ensures is_run { IsRunOf decls drives objects events }
    ensures is_whole { IsDone 2 events }
    ensures text { events_text objects [] events ≡ text }
    // The call enters nothing, and returns a generator.
    ensures no_entry_by_the_call { IsRunOf decls drives objects entered_by_call → ⊥ }
    ensures no_call_that_returns_another { IsRunOf decls drives objects returned_other → ⊥ }
    // The drive yields what the body yields, which is entered first.
    ensures no_other_value_yielded { YieldsAs (object 5) (object 3) → ⊥ }
    ensures no_other_value_of_the_body { YieldsAs (object 3) (object 3) → ⊥ }
    ensures no_yield_without_an_entry { IsRunOf decls drives objects never_entered → ⊥ }
{}
