//! What the host tells, as lines.

use crate::fault::Refusal;
use crate::payloads::{class_name, class_of, payload_at};
use py_code::{ItemList, NoMemory, PyText, push_utf8};
use py_objects::{DriveAnswer, Payload, PyBaseExceptionRef, PyObjectRef, Store};
use py_vm::VmFault;
use std::alloc::Global;
use std::str;

/// What is told of an object of which there is no more to tell.
const OBJECT: &str = "an object";

/// Lines, and the texts that plug-ins are registered under.
#[derive(Drop)]
pub(crate) struct Report {
    lines: String,
    registered: ItemList<PyText>,
}

impl Report {
    /// One without lines.
    pub(crate) fn new(alloc: Global) -> Report {
        Report {
            lines: String::new(alloc),
            registered: ItemList::new(alloc),
        }
    }

    /// The lines.
    pub(crate) fn lines(&self) -> &[u8] {
        self.lines.as_bytes()
    }

    /// Tells that a plug-in is refused.
    pub(crate) fn put_refused(&mut self, name: &str, refusal: &Refusal) -> Result<(), NoMemory> {
        write!(self.lines, "{name} is refused: {refusal}\n")?;
        Ok(())
    }

    /// Tells that a plug-in is left out.
    pub(crate) fn put_left_out(&mut self, name: &str, why: &str) -> Result<(), NoMemory> {
        write!(self.lines, "{name} is left out: {why}\n")?;
        Ok(())
    }

    /// Tells that a plug-in is kept, how many events it had, and the text of its journal. Registers it, where it gave a text for that.
    pub(crate) fn put_kept(
        &mut self,
        name: &str,
        registered: Option<PyText>,
        events: u64,
        text: &[u8],
    ) -> Result<(), NoMemory> {
        write!(self.lines, "{name} is kept: {events} events\n")?;
        if let Ok(text) = str::from_utf8(text) {
            self.lines.push_str(text)?;
        }
        match registered {
            Some(registered) => self.registered.push(registered),
            None => Ok(()),
        }
    }

    /// Tells the texts that plug-ins are registered under.
    pub(crate) fn put_registered(&mut self) -> Result<(), NoMemory> {
        self.lines.push_str("registered:")?;
        for text in self.registered.as_slice() {
            self.lines.push_str(" ")?;
            push_utf8(&mut self.lines, text)?;
        }
        self.lines.push_str("\n")?;
        Ok(())
    }

    /// Tells what came of the drive of this number.
    pub(crate) fn put_came(
        &mut self,
        name: &str,
        number: u64,
        came: &Result<DriveAnswer, VmFault>,
        store: &Store,
    ) -> Result<(), NoMemory> {
        write!(self.lines, "{name}: drive {number} ")?;
        match came {
            Ok(answer) => self.put_answer(answer, store)?,
            Err(fault) => self.lines.push_str(said_of(*fault))?,
        }
        self.lines.push_str("\n")?;
        Ok(())
    }

    /// Tells what a drive was answered.
    fn put_answer(&mut self, answer: &DriveAnswer, store: &Store) -> Result<(), NoMemory> {
        match answer {
            DriveAnswer::Returns(value) => self.put_value("returns", Some(*value), store),
            DriveAnswer::Yields(value) => self.put_value("yields", Some(*value), store),
            DriveAnswer::Stops(value) => self.put_value("stops", *value, store),
            DriveAnswer::Closes => Ok(self.lines.push_str("closes")?),
            DriveAnswer::Raises(exception) => self.put_raised(*exception, store),
            DriveAnswer::Reported(_) => Ok(self.lines.push_str("is reported")?),
        }
    }

    /// Tells a value behind a word.
    fn put_value(
        &mut self,
        word: &str,
        value: Option<PyObjectRef>,
        store: &Store,
    ) -> Result<(), NoMemory> {
        self.lines.push_str(word)?;
        if let Some(value) = value {
            self.lines.push_str(" ")?;
            match payload_at(store, value) {
                Some(payload) => self.put_told(told_of(payload))?,
                None => self.lines.push_str(OBJECT)?,
            }
        }
        Ok(())
    }

    /// Tells an object.
    fn put_told(&mut self, told: Told<'_>) -> Result<(), NoMemory> {
        match told {
            Told::Number(number) => write!(self.lines, "{number}")?,
            Told::Text(text) => push_utf8(&mut self.lines, text)?,
            Told::Kind(kind) => self.lines.push_str(kind)?,
        }
        Ok(())
    }

    /// Tells the class of an exception.
    fn put_raised(&mut self, exception: PyBaseExceptionRef, store: &Store) -> Result<(), NoMemory> {
        self.lines.push_str("raises ")?;
        match raised_name(store, exception) {
            Some(name) => push_utf8(&mut self.lines, name),
            None => Ok(self.lines.push_str("something")?),
        }
    }
}

/// The name of an exception's class, where the store has that.
fn raised_name(store: &Store, exception: PyBaseExceptionRef) -> Option<&PyText> {
    class_name(store, class_of(store, exception)?)
}

/// What is told of an object.
enum Told<'a> {
    Number(i128),
    Text(&'a PyText),
    /// What kind of object it is, in words.
    Kind(&'static str),
}

/// What is told of an object.
fn told_of(payload: &Payload) -> Told<'_> {
    match payload {
        Payload::Int(number) => Told::Number(*number),
        Payload::Str(text) => Told::Text(text),
        _ => Told::Kind(kind_of(payload)),
    }
}

/// What kind of object this is, in words.
fn kind_of(payload: &Payload) -> &'static str {
    match payload {
        Payload::None => "None",
        Payload::Generator(_) => "a generator",
        _ => OBJECT,
    }
}

/// What is told of a drive without an answer.
fn said_of(fault: VmFault) -> &'static str {
    match fault {
        VmFault::OutOfTurns => "is out of turns",
        VmFault::NoMemory => "is out of memory",
        VmFault::Failed => "comes behind one that failed",
        // The raise of a drive is its answer.
        VmFault::Exception(_) => "is too deep",
    }
}
