//! What the drives of a made script came to, counted from the events of its run.

ghost use Rattle.std.specs.Prelude.{◌≡◌, IfOk, string_bytes};
ghost use Rattle.std.specs.List.{count_by};
ghost use Rattle.py_make.specs.Summaries.{counts, counts_result, summary_of, summary_text};

use py_code::NoMemory;
use py_objects::{DriveAnswer, Event};
use std::alloc::Global;

/// How many drives and events there are, and how many drives came to each kind of result.
#[derive(Clone, Copy, Debug, PartialEq, Eq)]
pub struct Summary {
    pub drives: u64,
    pub events: u64,
    pub returns: u64,
    pub yields: u64,
    pub stops: u64,
    pub closes: u64,
    pub raises: u64,
}

/// What is counted of a run: its drives, or those that came to one kind of result.
#[derive(Clone, Copy)]
pub enum Tally {
    Drives,
    Returns,
    Yields,
    Stops,
    Closes,
    Raises,
}

impl Summary {
    /// The counts of these events.
    pub fn of(events: &[Event]) -> Summary
        ensures { result ≡ summary_of events.now }
    {
        Summary {
            drives: count(events, Tally::Drives),
            events: events.len() as u64,
            returns: count(events, Tally::Returns),
            yields: count(events, Tally::Yields),
            stops: count(events, Tally::Stops),
            closes: count(events, Tally::Closes),
            raises: count(events, Tally::Raises),
        }
    }

    /// The line of the counts, with its line feed.
    pub fn line(&self, alloc: Global) -> Result<String, NoMemory>
        ensures { IfOk result (λ text. string_bytes text ≡ summary_text self.now) }
    {
        let Summary {
            drives,
            events,
            returns,
            yields,
            stops,
            closes,
            raises,
        } = *self;
        let mut text = format!(in alloc; "drives {drives} events {events} returns {returns} ")?;
        write!(
            text,
            "yields {yields} stops {stops} closes {closes} raises {raises}\n"
        )?;
        Ok(text)
    }
}

/// How many of these events count.
fn count(events: &[Event], tally: Tally) -> u64
    ensures { result ≡ count_by (counts tally) events.now }
{
    events
        .iter()
        .filter(|event| is_counted(event, tally))
        .count() as u64
}

/// Whether an event counts: it is the beginning of a drive, or a drive's result of the kind.
fn is_counted(event: &Event, tally: Tally) -> bool
    ensures { result ≡ counts tally event.now }
{
    match event {
        Event::Drive { .. } => matches!(tally, Tally::Drives),
        Event::Result { answer, .. } => is_of(answer, tally),
        _ => false,
    }
}

/// Whether the answer of a drive is of the kind.
fn is_of(answer: &DriveAnswer, tally: Tally) -> bool
    ensures { result ≡ counts_result tally answer.now }
{
    match tally {
        Tally::Drives => false,
        Tally::Returns => matches!(answer, DriveAnswer::Returns(_)),
        Tally::Yields => matches!(answer, DriveAnswer::Yields(_)),
        Tally::Stops => matches!(answer, DriveAnswer::Stops(_)),
        Tally::Closes => matches!(answer, DriveAnswer::Closes),
        Tally::Raises => matches!(answer, DriveAnswer::Raises(_)),
    }
}
