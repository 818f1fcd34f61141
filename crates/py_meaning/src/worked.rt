//! Journals that were worked by hand, and what the definitions say of them.

ghost use Rattle.std.specs.Prelude.{◌≡◌, [], codes};
ghost use Rattle.py_objects.specs.declared.error_kind.ErrorKind.TheVariants.{TypeError};
ghost use Rattle.py_grammar.specs.Lines.{lines};
ghost use Rattle.py_grammar.specs.Script.{Spells};
ghost use Rattle.py_run.specs.Coming.{IsDone};
ghost use Rattle.py_meaning.specs.Whole.{IsRunOf};
ghost use Rattle.py_meaning.specs.Text.{events_text};
ghost use Rattle.py_meaning.specs.Worked.{script, decls, drives, object, exception, function_entry, objects_by, objects, objects_with_manager, events_by, events, unfinished, with_round, without_end, swapped, driven_twice, raising_objects, overflow_objects, caused_objects, overflow_by, overflow_line, IsOverflowRun, RaisesSecond, WritesSums, WritesOverflows};

/// The journal of `call f 33 12` is a whole run of its script, and so is that of a sum out of range. What differs from
/// them in one thing is none, and no whole run of such a call writes another text.
pub fn worked_journals()
    // The script, and its journal.
    ensures spelled { Spells (lines script) decls drives }
    ensures is_run { IsRunOf decls drives objects events }
    ensures is_whole { IsDone 1 events }
    ensures text { events_text objects [] events ≡ codes "1 returns 45\n" }
    // Whatever a whole run of such a call is, it writes the sum of its numbers, or that it's out of range.
    ensures text_of_sum { WritesSums }
    ensures text_of_overflow { WritesOverflows }
    // A front of it is a run, and no whole one.
    ensures front_is_run { IsRunOf decls drives objects unfinished }
    ensures front_is_not_whole { IsDone 1 unfinished → ⊥ }
    // One event too many, one too few, or another one.
    ensures no_round_without_a_loop { IsRunOf decls drives objects with_round → ⊥ }
    ensures no_result_without_an_end { IsRunOf decls drives objects without_end → ⊥ }
    ensures no_swapped_operands { IsRunOf decls drives objects swapped → ⊥ }
    ensures no_drive_beyond_the_script { IsRunOf decls drives objects driven_twice → ⊥ }
    ensures no_wrong_sum { IsRunOf decls drives objects (events_by (object 3)) → ⊥ }
    ensures no_object_that_is_not_there { IsRunOf decls drives objects (events_by (object 7)) → ⊥ }
    // Another function than the script's, or a manager.
    ensures no_other_code { IsRunOf decls drives (objects_by (function_entry (codes "f") 1)) events → ⊥ }
    ensures no_other_name { IsRunOf decls drives (objects_by (function_entry (codes "g") 0)) events → ⊥ }
    ensures no_manager { IsRunOf decls drives objects_with_manager events → ⊥ }
    // A sum out of range raises a new OverflowError.
    ensures overflow_is_run { IsOverflowRun overflow_objects (overflow_by (exception 8)) }
    ensures overflow_is_whole { IsDone 1 (overflow_by (exception 8)) }
    ensures overflow_text { events_text overflow_objects [] (overflow_by (exception 8)) ≡ overflow_line }
    ensures no_other_error { IsOverflowRun (raising_objects TypeError []) (overflow_by (exception 8)) → ⊥ }
    ensures no_error_with_a_cause { IsOverflowRun caused_objects (overflow_by (exception 8)) → ⊥ }
    ensures no_object_as_error { IsOverflowRun overflow_objects (overflow_by (exception 3)) → ⊥ }
    // Two drives raise two exceptions, and never the same one.
    ensures errors_are_run { RaisesSecond (exception 9) }
    ensures no_error_twice { RaisesSecond (exception 8) → ⊥ }
{}
