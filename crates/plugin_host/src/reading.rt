//! From the text of a plug-in to a script that the host may drive.

ghost use Rattle.std.specs.Prelude.{IfOk};
ghost use Rattle.py_grammar.specs.WellFormed.{IsWellFormed};

use crate::fault::Refusal;
use crate::plugins::LINES;
use py_script::{LIMIT, Script, parse_script};
use std::alloc::Global;

/// The script that a text is.
fn parse(alloc: Global, text: &str) -> Result<Script, Refusal>
    ensures { IfOk result IsWellFormed }
{
    let bytes = text.as_bytes();
    if bytes.len() > LIMIT {
        return Err(Refusal::TooLong);
    }
    Ok(parse_script(alloc, bytes)?)
}

/// Whether a text is by itself a script without drives.
fn check_alone(alloc: Global, text: &str) -> Result<(), Refusal> {
    let script = parse(alloc, text)?;
    if script.drives.as_slice().is_empty() {
        Ok(())
    } else {
        Err(Refusal::DrivesItself)
    }
}

/// A text with the host's lines behind it.
fn with_lines(alloc: Global, text: &str) -> Result<String, Refusal> {
    let mut whole = String::from_str(alloc, text)?;
    // Its last line may have no end of its own.
    whole.push_str("\n")?;
    whole.push_str(LINES)?;
    Ok(whole)
}

/// The script of a plug-in, whose drives are the host's lines. By itself it must be a script without drives; that it declares what the lines call,
/// the grammar says.
pub(crate) fn read_plugin(alloc: Global, text: &str) -> Result<Script, Refusal>
    ensures { IfOk result IsWellFormed }
{
    check_alone(alloc, text)?;
    let whole = with_lines(alloc, text)?;
    match parse(alloc, whole.as_str()) {
        Ok(script) => Ok(script),
        Err(Refusal::Malformed(_)) => Err(Refusal::Lacks),
        Err(refusal) => Err(refusal),
    }
}
