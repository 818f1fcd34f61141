//! Bytes to scripts.

ghost use Rattle.std.specs.Prelude.{◌≡◌, ◌≤◌, ◌⊎◌, IfOk, OnOk, Err, length, ℕ, encode_utf8_all};
ghost use Rattle.std.specs.Str.{IsUtf8};
ghost use Rattle.py_grammar.specs.Script.{IsScript, IsBadLine, HasBadLine, HasOneTree, SpellsSome};
ghost use Rattle.py_grammar.specs.WellFormed.{IsWellFormed};
ghost use Rattle.py_grammar.specs.Lines.{lines};
ghost use Rattle.py_grammar.specs.Reader.{start};
ghost use Rattle.py_grammar.specs.Reading.{state_of, IsAnswerTo, NamesEachBadLine, TakesBytes, TakesEachScript};
ghost use Rattle.py_grammar.specs.Tables.{TableIsKept};
ghost use Rattle.py_grammar.specs.declared.fault.ParseFault.TheVariants.{Malformed};
ghost use Rattle.py_grammar.specs.declared.script.Script.{Script as ScriptOf};

use crate::fault::ParseFault;
use crate::lines::first_line;
use crate::reader::Reader;
use crate::script::Script;
use py_code::{NoMemory, PyText, text_of_str};
use py_lines::{LineRead, laws_of_lines, read_line};
use std::alloc::Global;
use std::mem;

/// Hands one more line of the text to the reader, which takes it where it may stand here.
fn push_bytes(
    reader: &mut Reader,
    alloc: Global,
    number: u32,
    line: &[u8],
) -> Result<bool, NoMemory>
    requires { TableIsKept reader.old }
    ensures taken { IfOk result (TakesBytes reader.old reader.new number line.now) }
    ensures kept { OnOk result (TableIsKept reader.new) }
{
    match read_line(alloc, line)? {
        LineRead::Blank => Ok(true),
        LineRead::Said(line) => reader.push_line(alloc, number, line),
        LineRead::Malformed => Ok(false),
    }
}

/// Hands the lines of bytes to a reader that has read nothing, one after another, and says what they come to.
fn push_lines(reader: &mut Reader, alloc: Global, bytes: &[u8]) -> Result<Script, ParseFault>
    requires few { length bytes.now ≤ 1048576 }
    requires kept { TableIsKept reader.old }
    requires start { state_of reader.old ≡ start }
    ensures { IsAnswerTo (lines bytes.now) result }
{
    let mut rest = bytes;
    let mut number: u32 = 1;
    while let Some((line, more)) = first_line(rest) {
        if !push_bytes(reader, alloc, number, line)? {
            return Err(ParseFault::Malformed(u64::from(number)));
        }
        rest = more;
        number += 1;
    }
    reader.finish(alloc, number)
}

/// What the lines of bytes come to. The reader is lent, so that none of the ways out of the loop has to let it go.
fn read_lines(alloc: Global, bytes: &[u8]) -> Result<Script, ParseFault>
    requires { length bytes.now ≤ 1048576 }
    ensures { IsAnswerTo (lines bytes.now) result }
{
    let mut reader = Reader::new(alloc);
    let answer = push_lines(&mut reader, alloc, bytes);
    mem::drop(reader);
    answer
}

/// The script that bytes are, without its text, or the line that makes them none.
#[tactic(auto, using(crate::proofs::Verdicts::answer_ok, crate::proofs::Verdicts::answer_malformed))]
fn parse_lines(alloc: Global, bytes: &[u8]) -> Result<Script, ParseFault>
    requires { length bytes.now ≤ 1048576 }
    ensures ok { IfOk result (λ script. IsScript bytes.now script) }
    ensures malformed { (k : ℕ) → result ≡ Err (Malformed k) → IsBadLine bytes.now k }
    ensures only_scripts { TakesEachScript bytes.now result }
    ensures bad { NamesEachBadLine bytes.now result }
{
    read_lines(alloc, bytes)
}

/// The characters of bytes.
fn characters(alloc: Global, bytes: &[u8]) -> Result<PyText, NoMemory>
    requires { IsUtf8 bytes.now }
    ensures { IfOk result (λ text. encode_utf8_all text ≡ bytes.now) }
{
    let Ok(text) = str::from_utf8(bytes) else {
        unreachable!();
    };
    let text = text_of_str(alloc, text)?;
    Ok(text)
}

/// The script that bytes are, with their characters, or the line that makes them none.
pub fn parse_script(alloc: Global, bytes: &[u8]) -> Result<Script, ParseFault>
    requires { length bytes.now ≤ 1048576 }
    ensures ok { IfOk result (λ script. IsScript bytes.now script) }
    ensures text { IfOk result (λ script. encode_utf8_all script.text ≡ bytes.now) }
    ensures well_formed { IfOk result (λ script. IsWellFormed script) }
    ensures malformed { (k : ℕ) → result ≡ Err (Malformed k) → IsBadLine bytes.now k }

    // Memory is the only reason for which it refuses a script, or doesn't name the bad line.
    ensures only_scripts { TakesEachScript bytes.now result }
    ensures bad { NamesEachBadLine bytes.now result }
{
    let mut script = parse_lines(alloc, bytes)?;
    laws_of_lines();
    script.text = characters(alloc, bytes)?;
    Ok(script)
}

/// What the grammar keeps: bytes are one script or have one bad line, never both.
pub fn one_script(bytes: &[u8])
    ensures script_or_bad { SpellsSome bytes.now ⊎ HasBadLine bytes.now }
    ensures one_tree { HasOneTree bytes.now }
    ensures not_both { (s : ScriptOf) → (k : ℕ) → IsScript bytes.now s → IsBadLine bytes.now k → ⊥ }
    ensures one_bad { (j : ℕ) → (k : ℕ) → IsBadLine bytes.now j → IsBadLine bytes.now k → j ≡ k }
{
    laws_of_lines();
}
