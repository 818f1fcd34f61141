//! Units of raw codes, by what the tokens mean that print them.

ghost use Rattle.std.specs.Prelude.{◌∷◌, [], IfOk};
ghost use Rattle.py_lines.specs.Finding.{Prints, Reads};
ghost use Rattle.py_lines.specs.RawFinding.{ReadsLive};
ghost use Rattle.py_lines.specs.RawLines.{byte_token, instruction_token, note_tokens, unit_tokens};
ghost use Rattle.py_lines.specs.Senses.{meaning_of};

use crate::blocks::{RawBlockList, blocks_of};
use crate::instruction::instruction_of;
use crate::kinds::{RawKindList, kinds_of};
use crate::meaning::Sense;
use py_code::{Instruction, NoMemory};
use std::alloc::Global;

/// What a unit says of the stack in front of it.
#[derive(Drop)]
pub enum RawNote {
    /// `dead`: control never gets there.
    Dead,
    /// The kinds of its entries, and the open blocks, the outermost first.
    Live {
        kinds: RawKindList,
        blocks: RawBlockList,
    },
}

/// The note that a lone token is.
fn dead_of(token: &Sense<'_>) -> Option<RawNote>
    ensures { Prints note_tokens (meaning_of token.now ∷ []) result }
{
    let Sense::Word(word) = token else {
        return None;
    };
    if *word == b"dead".as_slice() {
        Some(RawNote::Dead)
    } else {
        None
    }
}

/// The note that kinds and blocks are.
fn live_of(
    alloc: Global,
    kinds: &Sense<'_>,
    blocks: &Sense<'_>,
) -> Result<Option<RawNote>, NoMemory>
    ensures { IfOk result (ReadsLive (meaning_of kinds.now) (meaning_of blocks.now)) }
{
    let Some(kinds) = kinds_of(alloc, kinds)? else {
        return Ok(None);
    };
    let Some(blocks) = blocks_of(alloc, blocks)? else {
        return Ok(None);
    };
    Ok(Some(RawNote::Live { kinds, blocks }))
}

/// The note that the tokens are.
fn note_of(alloc: Global, tokens: &[Sense<'_>]) -> Result<Option<RawNote>, NoMemory>
    ensures { IfOk result (Reads note_tokens tokens.now) }
{
    match tokens {
        [] => Ok(None),
        [dead] => Ok(dead_of(dead)),
        [kinds, blocks] => live_of(alloc, kinds, blocks),
        [_, _, _, ..] => Ok(None),
    }
}

/// The argument of a unit that a token is.
fn arg_of(token: &Sense<'_>) -> Option<u8>
    ensures { Prints byte_token (meaning_of token.now) result }
{
    let Sense::Number(number) = token else {
        return None;
    };
    u8::try_from(*number).ok()
}

/// The instruction that a token names.
fn instruction_at(token: &Sense<'_>) -> Option<Instruction>
    ensures { Prints instruction_token (meaning_of token.now) result }
{
    let Sense::Word(word) = token else {
        return None;
    };
    instruction_of(word)
}

/// An argument, and the note behind it.
fn arg_and_note(alloc: Global, tokens: &[Sense<'_>]) -> Result<Option<(u8, RawNote)>, NoMemory>
    ensures { IfOk result (Reads (λ p. byte_token p.0 ∷ note_tokens p.1) tokens.now) }
{
    let Some((first, rest)) = tokens.split_first() else {
        return Ok(None);
    };
    let Some(arg) = arg_of(first) else {
        return Ok(None);
    };
    let Some(note) = note_of(alloc, rest)? else {
        return Ok(None);
    };
    Ok(Some((arg, note)))
}

/// An instruction, and its argument and the note behind it.
pub fn whole_unit(
    alloc: Global,
    tokens: &[Sense<'_>],
) -> Result<Option<(Instruction, u8, RawNote)>, NoMemory>
    ensures { IfOk result (Reads unit_tokens tokens.now) }
{
    let Some((first, rest)) = tokens.split_first() else {
        return Ok(None);
    };
    let Some(instruction) = instruction_at(first) else {
        return Ok(None);
    };
    let Some((arg, note)) = arg_and_note(alloc, rest)? else {
        return Ok(None);
    };
    Ok(Some((instruction, arg, note)))
}
