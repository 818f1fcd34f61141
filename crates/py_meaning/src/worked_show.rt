//! A journal with a shown value that was worked by hand, and what the definitions say of it.

ghost use Rattle.std.specs.Prelude.{◌≡◌, [], codes};
ghost use Rattle.py_objects.specs.Singletons.{none_object};
ghost use Rattle.py_grammar.specs.Lines.{lines};
ghost use Rattle.py_grammar.specs.Script.{Spells};
ghost use Rattle.py_run.specs.Coming.{IsDone};
ghost use Rattle.py_meaning.specs.Whole.{IsRunOf};
ghost use Rattle.py_meaning.specs.Text.{events_text};
ghost use Rattle.py_meaning.specs.Worked.{object, exception, overflow_by, overflow_line};
ghost use Rattle.py_meaning.specs.WorkedShow.{script, decls, drives, objects, shows, events, without_show, shown_twice, overflow_objects, shown_behind_raise, Shows, ReturnsAnyNone, IsOverflowRun};

/// The journal of a `call g 33 12` that shows the sum is a whole run of its script, and its text has the sum's line. What
/// differs from it in one thing is none. A raise ends the body where it asked, and nothing is shown behind it.
pub fn worked_shows()
    // The script, and its journal.
    ensures spelled { Spells (lines script) decls drives }
    ensures is_run { IsRunOf decls drives objects events }
    ensures is_whole { IsDone 1 events }
    ensures text { events_text objects [] events ≡ codes "45\n1 returns None\n" }
    // Any None answers the show, and any None is returned.
    ensures any_none_is_returned { ReturnsAnyNone }
    // The sum is shown once, None answers that, and None is returned.
    ensures no_show_dropped { IsRunOf decls drives objects without_show → ⊥ }
    ensures no_show_twice { IsRunOf decls drives objects shown_twice → ⊥ }
    ensures no_other_value_shown { Shows (object 3) none_object (object 7) → ⊥ }
    ensures no_answer_but_none { Shows (object 6) (object 6) (object 7) → ⊥ }
    ensures no_end_by_the_shown_value { Shows (object 6) none_object (object 6) → ⊥ }
    // A sum out of range raises, and the raise ends the body where it asked.
    ensures raise_ends { IsOverflowRun (overflow_by (exception 8)) }
    ensures raise_is_whole { IsDone 1 (overflow_by (exception 8)) }
    ensures raise_text { events_text overflow_objects [] (overflow_by (exception 8)) ≡ overflow_line }
    ensures no_statement_behind_a_raise { IsOverflowRun shown_behind_raise → ⊥ }
    // None is shown without a line.
    ensures none_is_not_shown { events_text objects [] (shows none_object []) ≡ [] }
{}
