//! Where a SyntaxError was found.

ghost use Rattle.std.specs.Prelude.{◌≡◌, IfOk};
ghost use Rattle.py_exceptions.specs.Writing.{Adds};
ghost use Rattle.py_reports.specs.Inside.{HasBytes};
ghost use Rattle.py_reports.specs.SyntaxLines.{attribute_text, found_end, found_line, found_of};

use crate::lines::push_words;
use crate::traceback::push_file;
use py_code::NoMemory;
use py_exceptions::{attribute, push_whole_str};
use py_objects::{ExceptionBody, Payload};
use std::alloc::Global;
use std::marker::Model;

/// A file and a line, as texts, where they are known.
#[derive(Drop)]
pub(crate) struct Found {
    path: Option<String>,
    line: Option<String>,
}

impl Model for Found {
    ghost use Rattle.std.specs.Prelude.{option_map, string_bytes};
    ghost use Rattle.py_reports.specs.SyntaxLines.{Found as FoundValue};

    ghost Value = { FoundValue };

    ghost view = { λ f. record { path = option_map string_bytes f.path; line = option_map string_bytes f.line } };
}

impl Found {
    /// Where an exception says that it was found.
    pub(crate) fn of(
        alloc: Global,
        objects: &[Payload],
        exception: &ExceptionBody,
    ) -> Result<Found, NoMemory>
        ensures { IfOk result (λ found. found ≡ found_of objects.now exception.now) }
    {
        Ok(Found {
            path: str_of_attribute(alloc, objects, exception, b"filename")?,
            line: str_of_attribute(alloc, objects, exception, b"lineno")?,
        })
    }

    /// Puts a line with both after a text, where the line is known.
    pub(crate) fn push_line(&self, out: &mut String) -> Result<(), NoMemory>
        ensures { Adds result out.old out.new (found_line self.now) }
    {
        let Some(line) = &self.line else {
            return Ok(());
        };
        match &self.path {
            Some(path) => push_file(out, path.as_str())?,
            None => push_file(out, "<string>")?,
        }
        out.push_str(line.as_str())?;
        push_words(out, "\n")
    }

    /// Puts the file after a text, where the line isn't known.
    pub(crate) fn push_end(&self, out: &mut String) -> Result<(), NoMemory>
        ensures { Adds result out.old out.new (found_end self.now) }
    {
        let Some(path) = &self.path else {
            return Ok(());
        };
        if self.line.is_some() {
            return Ok(());
        }
        out.push_str(" (")?;
        out.push_str(path.as_str())?;
        push_words(out, ")")
    }
}

/// An attribute as a text, where the exception has it.
pub(crate) fn str_of_attribute(
    alloc: Global,
    objects: &[Payload],
    exception: &ExceptionBody,
    name: &[u8],
) -> Result<Option<String>, NoMemory>
    ensures { IfOk result (HasBytes (attribute_text objects.now exception.now name.now)) }
{
    let Some(object) = attribute(alloc, objects, exception, name)? else {
        return Ok(None);
    };
    let mut text = String::new(alloc);
    push_whole_str(&mut text, objects, object)?;
    Ok(Some(text))
}
