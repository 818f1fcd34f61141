//! The text that shows a code: its name, number, file and first line.
//! It stands apart from the code itself, which needs neither the table of names nor texts.

ghost use Rattle.std.specs.Prelude.{◌≡◌, ◌<◌, ◌++◌, IfOk, OnOk, length};
ghost use Rattle.py_code.specs.CodeText.{code_repr, line_text};

use crate::code::PyCode;
use crate::list::NoMemory;
use crate::names::Names;
use crate::text::{PyText, push_bytes, push_decimal, push_text, text_of, text_of_str};
use std::alloc::Global;

impl PyCode {
    /// The text `<code object N at K file "F", line L>`: N is the code's name, K the given number,
    /// F its file, and L its first line, -1 for code without a source.
    pub fn repr(&self, alloc: Global, names: &Names, number: usize) -> Result<PyText, NoMemory>
        requires obj_name { self.now.code.obj_name.index < length names.now }
        requires source_path { self.now.code.source_path.index < length names.now }
        ensures { IfOk result (λ text. text ≡ code_repr names.now self.now number) }
    {
        let mut text = text_of(alloc, b"<code object ")?;
        push_text(
            &mut text,
            &text_of_str(alloc, names.text(self.code.obj_name))?,
        )?;
        push_bytes(&mut text, b" at ")?;
        push_decimal(&mut text, number)?;
        push_bytes(&mut text, b" file \"")?;
        push_text(
            &mut text,
            &text_of_str(alloc, names.text(self.code.source_path))?,
        )?;
        push_bytes(&mut text, b"\", line ")?;
        push_line(&mut text, self.code.first_line_number)?;
        push_bytes(&mut text, b">")?;
        Ok(text)
    }
}

/// Puts a line after a text, -1 where there is none. Out of memory, a front of it may be there.
fn push_line(text: &mut PyText, line: Option<u32>) -> Result<(), NoMemory>
    ensures { OnOk result (text.new ≡ text.old ++ line_text line) }
{
    match line {
        None => push_bytes(text, b"-1"),
        Some(line) => push_decimal(text, line as usize),
    }
}
