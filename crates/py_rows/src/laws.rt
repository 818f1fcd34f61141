//! What holds of every run of the rows.

ghost use Rattle.py_rows.specs.Laws.{EndsKeepSlot, EventsTold, FitsGrow, FitsWithin, NextFits, NextGoes, RunsFit, RunsGoUnder, RunsGrow, RunsKeepSlot, RunsBelow, RunsTell, SilentLater, SlotKept, StartFits, StartStands, StartBelow, StepsFit, StepsTell, StepsStand, StepsBelow};

/// States laws, and does nothing.
///
/// A frame of a code that keeps the rules, and each of whose units runs so far, fits its notes before it has begun. It is never stuck:
/// there is a step that it can make, among these objects or more, as a constant may have to be made; and it fits behind what it does
/// next. It fits behind each step, also one that it hears, and so wherever a run comes to; and where it fits it is within the sizes.
/// Each event that it tells is one that its unit may tell.
///
/// The slot holds the exception of the innermost handler, or what it held at first, and this where a run has ended. Of every
/// code: a frame that waits is at the unit that was begun last, and each event that it tells is of that unit; a question names
/// what is handled in its blocks; a silent step leads to a later unit; and where all that goes in are objects, so is all that
/// comes out. What fits, and what is a run, stays so as objects are added. A run is also one under each other test of what is
/// handled where exceptions are thrown in, as long as that lets them through.
pub fn laws_of_rows()
    ensures start { StartFits }
    ensures next { NextFits }
    ensures goes { NextGoes }
    ensures steps { StepsFit }
    ensures tells { StepsTell }
    ensures within { FitsWithin }
    ensures slot { SlotKept }
    ensures start_stands { StartStands }
    ensures steps_stand { StepsStand }
    ensures told { EventsTold }
    ensures later { SilentLater }
    ensures start_below { StartBelow }
    ensures steps_below { StepsBelow }
    ensures runs_fit { RunsFit }
    ensures runs_tell { RunsTell }
    ensures runs_below { RunsBelow }
    ensures runs_keep_slot { RunsKeepSlot }
    ensures slot_kept { EndsKeepSlot }
    ensures fits_grow { FitsGrow }
    ensures runs_grow { RunsGrow }
    ensures runs_go_under { RunsGoUnder }
{}
