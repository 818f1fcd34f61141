//! What happened, as lines.

use crate::fault::HostFault;
use py_objects::{DriveAnswer, Event, Payload, PayloadList, PyObjectRef, Request};
use py_vm::Journal;

/// What a drive came to, in a word.
pub(crate) fn said_of(answer: &DriveAnswer) -> &'static str {
    match answer {
        DriveAnswer::Returns(_) => "returns",
        DriveAnswer::Raises(_) => "raises",
        DriveAnswer::Yields(_) => "yields",
        DriveAnswer::Stops(_) => "stops",
        DriveAnswer::Closes => "closes",
        DriveAnswer::Reported(_) => "is reported",
    }
}

/// Prints a line for each event of a journal.
pub(crate) fn print_journal(rt: &HostRuntime, journal: &Journal) -> Result<(), HostFault> {
    for event in journal.events.as_slice() {
        print_event(rt, &journal.objects, event)?;
    }
    Ok(())
}

/// Prints the line of an event: what happened, to which drive or activation.
fn print_event(rt: &HostRuntime, objects: &PayloadList, event: &Event) -> Result<(), HostFault> {
    match event {
        Event::Drive { drive } => println!(rt; "drive {drive}")?,
        Event::Result { drive, answer } => {
            println!(rt; "drive {drive} {}", said_of(answer))?;
        }
        Event::Make { act, .. } => println!(rt; "activation {act} is made")?,
        Event::Resume { act, .. } => println!(rt; "activation {act} is entered")?,
        Event::Ask { act, request, .. } => print_request(rt, objects, *act, request)?,
        Event::Got { act, .. } => println!(rt; "activation {act} gets its answer")?,
        Event::Round { act, .. } => println!(rt; "activation {act} goes round")?,
        Event::Yield { act, .. } => println!(rt; "activation {act} yields")?,
        Event::End { act, .. } => println!(rt; "activation {act} ends")?,
    }
    Ok(())
}

/// Prints the line of what an activation asks; of a number that it shows, the number too.
fn print_request(
    rt: &HostRuntime,
    objects: &PayloadList,
    act: u64,
    request: &Request,
) -> Result<(), HostFault> {
    match shown_number(objects, request) {
        Some(number) => println!(rt; "activation {act} shows {number}")?,
        None => println!(rt; "activation {act} asks {}", what_is_asked(request))?,
    }
    Ok(())
}

/// The number that a request shows, if it shows one.
fn shown_number(objects: &PayloadList, request: &Request) -> Option<i128> {
    let value = shown_value(request)?;
    number_of(objects.get(value.number as usize)?)
}

/// The value that a request shows, if it shows one.
fn shown_value(request: &Request) -> Option<PyObjectRef> {
    match request {
        Request::Show(value) => Some(*value),
        _ => None,
    }
}

/// The number that an object is, if it is one.
fn number_of(payload: &Payload) -> Option<i128> {
    match payload {
        Payload::Int(number) => Some(*number),
        _ => None,
    }
}

/// What is asked, in words behind `asks`.
fn what_is_asked(request: &Request) -> &'static str {
    match request {
        Request::Show(_) => "to show a value",
        Request::Global(_, _) => "for a global",
        Request::Truth(_) => "whether a value is true",
        Request::Binary(_, _, _) => "for an operator's value",
        Request::Call(_, _, _) => "for a call",
        _ => "for something else",
    }
}
