//! Journals with a loop and with an unknown name that were worked by hand, and what the definitions say of them.

ghost use Rattle.std.specs.Prelude.{◌≡◌, [], false};
ghost use Rattle.py_objects.specs.declared.error_kind.ErrorKind.TheVariants.{TypeError};
ghost use Rattle.py_objects.specs.Singletons.{none_object};
ghost use Rattle.py_grammar.specs.Lines.{lines};
ghost use Rattle.py_grammar.specs.Script.{Spells};
ghost use Rattle.py_run.specs.Coming.{IsDone};
ghost use Rattle.py_meaning.specs.Whole.{IsRunOf};
ghost use Rattle.py_meaning.specs.Text.{events_text};
ghost use Rattle.py_meaning.specs.WorkedLoop.{script, decls, drives, objects_by, objects, events, without_round, untested, left_early, unknown_script, unknown_decls, unknown_by, unknown_objects, unknown_events, asked_in, unknown_given, unknown_text, IsUnknownRun};

/// The journal of a `while True` as far as its second round is a part of a run, and no whole one. What differs from it in
/// one thing is none. A name that is nowhere raises NameError, and nothing else.
pub fn worked_loops()
    // The script, and the front of its journal.
    ensures spelled { Spells (lines script) decls drives }
    ensures is_run { IsRunOf decls drives objects events }
    ensures is_not_whole { IsDone 1 events → ⊥ }
    // Each round is told, and tests what stands behind the while: what is True counts as true, and the loop goes on.
    ensures no_round_untold { IsRunOf decls drives objects without_round → ⊥ }
    ensures no_round_untested { IsRunOf decls drives objects untested → ⊥ }
    ensures no_true_that_is_false { IsRunOf decls drives (objects_by false) events → ⊥ }
    ensures no_end_where_it_is_true { IsRunOf decls drives objects left_early → ⊥ }
    // The script with an unknown name, and its journal.
    ensures unknown_spelled { Spells (lines unknown_script) unknown_decls drives }
    ensures unknown_is_run { IsUnknownRun unknown_objects unknown_events }
    ensures unknown_is_whole { IsDone 1 unknown_events }
    ensures unknown_text { events_text unknown_objects [] unknown_events ≡ unknown_text }
    // It is asked for in the dict of the globals, and no value answers it, nor an exception of another class.
    ensures no_name_asked_of_none { IsUnknownRun unknown_objects (asked_in none_object []) → ⊥ }
    ensures no_value_of_an_unknown_name { IsUnknownRun unknown_objects unknown_given → ⊥ }
    ensures no_other_error { IsUnknownRun (unknown_by TypeError) unknown_events → ⊥ }
{}
