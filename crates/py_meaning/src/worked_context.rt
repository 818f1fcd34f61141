//! A journal with a raise in a handler that was worked by hand, and what the definitions say of it.

ghost use Rattle.std.specs.Prelude.{◌≡◌, [], ◌∷◌, codes};
ghost use Rattle.py_code.specs.Codes.{Codes};
ghost use Rattle.py_objects.specs.declared.edit.LinkField.TheVariants.{Cause, Context, Traceback};
ghost use Rattle.py_grammar.specs.Lines.{lines};
ghost use Rattle.py_grammar.specs.Script.{Spells};
ghost use Rattle.py_run.specs.Coming.{IsDone};
ghost use Rattle.py_meaning.specs.Text.{text_of};
ghost use Rattle.py_meaning.specs.Worked.{object};
ghost use Rattle.py_meaning.specs.WorkedLoop.{drives};
ghost use Rattle.py_meaning.specs.WorkedContext.{script, decls, events, linked, first_entry, context, second_entry, links, journal, AreItsChanges, AreNotItsChanges, NeedsTheLine};

/// The journal of a handler that raises is a whole run of its script, where the exception gets the one that is handled as its context, as soon as it is
/// there (Python Language Reference, 7.8), and each exception an entry of its traceback (3.2.13.1). With other changes it is none.
pub fn worked_contexts()
    // The script, and its journal.
    ensures spelled { Spells (lines script) decls drives }
    ensures is_run { AreItsChanges links }
    ensures is_whole { IsDone 1 events }
    ensures text { (k : Codes) → text_of (journal k links) ≡ codes "1 raises NameError: name 'z' is not defined\n" }
    // The context is set, no later, and to what is handled.
    ensures no_context_left_out { AreNotItsChanges (first_entry ∷ second_entry ∷ []) }
    ensures no_context_set_later { AreNotItsChanges (first_entry ∷ second_entry ∷ linked Context 14 (object 7) (object 6) ∷ []) }
    ensures no_other_exception { AreNotItsChanges (first_entry ∷ linked Context 13 (object 7) (object 8) ∷ second_entry ∷ []) }
    // The first exception, which is raised where nothing is handled, gets none, and no other link is set.
    ensures no_context_of_the_first { AreNotItsChanges (linked Context 5 (object 6) (object 8) ∷ links) }
    ensures no_cause { AreNotItsChanges (first_entry ∷ context ∷ second_entry ∷ linked Cause 13 (object 7) (object 6) ∷ []) }
    // Each exception gets one entry, as soon as it is raised, behind its context, with the line of the unit that asked.
    ensures no_first_entry_left_out { AreNotItsChanges (context ∷ second_entry ∷ []) }
    ensures no_second_entry_left_out { AreNotItsChanges (first_entry ∷ context ∷ []) }
    ensures no_entry_too_many { AreNotItsChanges (first_entry ∷ context ∷ second_entry ∷ linked Traceback 13 (object 7) (object 12) ∷ []) }
    ensures no_entry_put_later { AreNotItsChanges (linked Traceback 6 (object 6) (object 10) ∷ context ∷ second_entry ∷ []) }
    ensures no_entry_before_the_context { AreNotItsChanges (first_entry ∷ second_entry ∷ context ∷ []) }
    ensures no_other_line { NeedsTheLine }
{}
