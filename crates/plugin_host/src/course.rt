//! How a plug-in does, drive by drive.

use crate::payloads::text_at;
use py_code::{NoMemory, PyText};
use py_objects::{DriveAnswer, Store};
use py_vm::VmFault;
use std::alloc::Global;

/// How a plug-in stands behind some drives.
#[derive(Clone, Copy, Debug, PartialEq, Eq)]
pub(crate) enum Standing {
    /// Each had an answer, and none raised.
    Sound,
    /// Each had an answer, and one raised.
    Raised,
    /// The last one had no answer.
    GivenUp,
}

impl Standing {
    /// Why a plug-in that stands so is left out; one that answered each drive without a raise is kept.
    pub(crate) fn why_left_out(self) -> Option<&'static str> {
        match self {
            Standing::Sound => None,
            Standing::Raised => Some("it raised"),
            Standing::GivenUp => Some("it was given up"),
        }
    }
}

/// How a plug-in stands, and the text that it registers under, where its first drive returned one.
#[derive(Drop)]
pub(crate) struct Course {
    alloc: Global,
    /// How many drives it had.
    made: u64,
    pub standing: Standing,
    pub registered: Option<PyText>,
}

impl Course {
    /// That of a plug-in which wasn't driven yet.
    pub(crate) fn new(alloc: Global) -> Course {
        Course {
            alloc,
            made: 0,
            standing: Standing::Sound,
            registered: None,
        }
    }

    /// The number of the next drive, from 1.
    pub(crate) fn next(&self) -> u64 {
        self.made.saturating_add(1)
    }

    /// Takes what came of the next drive.
    pub(crate) fn take(
        &mut self,
        came: &Result<DriveAnswer, VmFault>,
        store: &Store,
    ) -> Result<(), NoMemory> {
        if self.made == 0 {
            self.register(came, store)?;
        }
        match came {
            Ok(DriveAnswer::Raises(_)) => self.standing = Standing::Raised,
            Ok(_) => {}
            Err(_) => self.standing = Standing::GivenUp,
        }
        self.made = self.next();
        Ok(())
    }

    /// Takes the text that the first drive returned, where it returned one.
    fn register(
        &mut self,
        came: &Result<DriveAnswer, VmFault>,
        store: &Store,
    ) -> Result<(), NoMemory> {
        if let Ok(DriveAnswer::Returns(value)) = came {
            if let Some(text) = text_at(store, *value) {
                self.registered = Some(text.copy(self.alloc)?);
            }
        }
        Ok(())
    }
}
