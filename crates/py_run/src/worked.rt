//! Journals of generators, and of a manager, that were worked by hand, and what the definitions say of them, whatever activations tell.

ghost use Rattle.std.specs.Prelude.{◌≡◌, [], ◌∷◌};
ghost use Rattle.py_run.specs.Coming.{nothing, Comes, IsDone, IsRunBy};
ghost use Rattle.py_run.specs.Past.{past_behind};
ghost use Rattle.py_run.specs.Worked.{anything, object, NoneEnters, OnlyEnters, OnlyThrows};
ghost use Rattle.py_run.specs.WorkedNext.{objects as next_objects, plan as next_plan, entering, stopped, events as next_events, two_objects, naming, giving};
ghost use Rattle.py_run.specs.WorkedClose.{objects as close_objects, plan as close_plan, closing, closed, events as close_events};
ghost use Rattle.py_run.specs.WorkedStop.{objects as stop_objects, plan as stop_plan, events_by};
ghost use Rattle.py_run.specs.WorkedSelf.{objects as self_objects, plan as self_plan, sending, refused as self_refused, events as self_events};
ghost use Rattle.py_run.specs.WorkedIgnored.{objects as ignored_objects, plan as ignored_plan, ignored, events as ignored_events};
ghost use Rattle.py_run.specs.WorkedThrow.{objects as throw_objects, plan as throw_plan, throwing, refused as throw_refused, events as throw_events, sending as send_plan, started};
ghost use Rattle.py_run.specs.WorkedExit.{objects as exit_objects, plan as exit_plan, events as exit_events, again, told_another, told_none, enters_again, first_entry, entries_again, Linked, Unlinked};
ghost use Rattle.py_run.specs.WorkedHandled.{objects as handled_objects, plan as handled_plan, events as handled_events, got_another};

/// A generator yields, stops, and stays closed. What its call gives is a new object, and the first next enters no activation but its own.
pub fn worked_next()
    ensures is_run { IsRunBy anything next_plan next_objects next_events }
    ensures is_whole { IsDone 4 next_events }
    ensures enters_its_own { OnlyEnters next_plan next_objects entering 1 }
    ensures no_entry_of_a_closed { NoneEnters next_plan next_objects (stopped []) }
    ensures new_object { IsRunBy anything naming two_objects (giving 4) }
    ensures no_old_object { Comes naming two_objects nothing (giving 2) → ⊥ }
{}

/// A generator that hasn't begun is closed without being entered, and then stops.
pub fn worked_close()
    ensures is_run { IsRunBy anything close_plan close_objects close_events }
    ensures is_whole { IsDone 3 close_events }
    ensures no_entry_by_the_close { NoneEnters close_plan close_objects (closing []) }
    ensures no_entry_of_a_closed { NoneEnters close_plan close_objects (closed []) }
{}

/// A StopIteration that comes out of a generator becomes a RuntimeError whose cause it is (PEP 479).
pub fn worked_stop()
    ensures is_run { IsRunBy anything stop_plan stop_objects (events_by 10) }
    ensures is_whole { IsDone 2 (events_by 10) }
    ensures no_raise_without_cause { Comes stop_plan stop_objects nothing (events_by 11) → ⊥ }
    ensures no_raise_of_itself { Comes stop_plan stop_objects nothing (events_by 7) → ⊥ }
{}

/// A generator that sends to itself is refused, is not entered, and runs on.
pub fn worked_self()
    ensures is_run { IsRunBy anything self_plan self_objects self_events }
    ensures is_whole { IsDone 3 self_events }
    ensures unchanged { (past_behind self_plan nothing (self_refused [])).generators ≡ (past_behind self_plan nothing (sending [])).generators }
    ensures no_entry_of_a_running { NoneEnters self_plan self_objects (sending []) }
{}

/// A generator that yields while it is closed is refused, and closed.
pub fn worked_ignored()
    ensures is_run { IsRunBy anything ignored_plan ignored_objects ignored_events }
    ensures is_whole { IsDone 4 ignored_events }
    ensures no_entry_of_a_closed { NoneEnters ignored_plan ignored_objects (ignored []) }
{}

/// A throw of a number is refused and leaves a generator that hasn't begun, which a next may start then. A throw of a class enters it by a throw
/// alone, and ends it.
pub fn worked_throw()
    ensures is_run { IsRunBy anything throw_plan throw_objects throw_events }
    ensures is_whole { IsDone 3 throw_events }
    ensures no_entry_by_a_refused { NoneEnters throw_plan throw_objects throwing }
    ensures enters_by_a_throw { OnlyThrows throw_plan throw_objects (throw_refused []) }
    ensures starts { Comes send_plan throw_objects nothing started }
{}

/// What a generator raises again is what its resumer handles.
pub fn worked_handled()
    ensures is_run { IsRunBy anything handled_plan handled_objects handled_events }
    ensures is_whole { IsDone 3 handled_events }
    ensures no_other_exception { Comes handled_plan handled_objects nothing got_another → ⊥ }
{}

/// Two exits behind one raise are told one and the same traceback, which its exception has got by that raise, and each calls the exit function of its
/// manager (Python Language Reference, 8.5). Where the exit function raises the exception again, this has got two entries more by the next exit.
pub fn worked_exit()
    ensures is_run { IsRunBy anything exit_plan exit_objects exit_events }
    ensures is_whole { IsDone 1 exit_events }
    ensures no_other_callee { Comes exit_plan exit_objects nothing enters_again → ⊥ }
    // The traceback that both exits are told.
    ensures linked { Linked exit_events (first_entry ∷ []) }
    ensures no_other_traceback { Unlinked told_another (first_entry ∷ []) }
    ensures no_none_as_traceback { Unlinked told_none (first_entry ∷ []) }
    ensures no_entry_left_out { Unlinked exit_events [] }
    // That behind another raise.
    ensures linked_again { Linked (again (object 16)) entries_again }
    ensures no_old_traceback { Unlinked (again (object 8)) entries_again }
    ensures no_raise_without_an_entry { Unlinked (again (object 8)) (first_entry ∷ []) }
{}
