//! Reading a source to its end.

ghost use Rattle.std.specs.Prelude.{◌≡◌, ◌==◌, ◌+◌, ◌^◌, ◌≤◌, vec_len, IfOk, OnOk, OnErr, IsErrOf, IsTrue, false};
ghost use Rattle.py_outside.specs.Reading.{Takes, HasFailed, HasOver, HasRead, LosesPiece, LosesUpTo, IsCounted, StaysUntouched};
ghost use Rattle.py_outside.specs.declared.reading.ReadError.TheVariants.{Fault, NoMemory, TooLong};

use crate::source::Source;
use std::alloc::{AllocError, Global};
use thiserror::Error;

/// The most bytes that are read of a source, 2 ^ 20.
pub const LIMIT: usize = 1_048_576;

// How many bytes a read asks for.
const PIECE: usize = 4096;

/// Why a source wasn't read to its end.
#[derive(Clone, Copy, Debug, PartialEq, Eq, Error)]
pub enum ReadError {
    /// A read failed.
    #[error("a read failed")]
    Fault,
    /// The source has more than `LIMIT` bytes.
    #[error("there are more than 2^20 bytes")]
    TooLong,
    /// Memory ran out.
    #[error("memory ran out")]
    NoMemory,
}

impl From<AllocError> for ReadError {
    ghost from_gives = { λ _ e. e ≡ NoMemory };

    fn from(_error: AllocError) -> ReadError {
        ReadError::NoMemory
    }
}

// Puts the next piece of the source, up to the byte after the limit, behind the bytes.
fn read_piece<S: Source>(source: &mut S, bytes: &mut Vec<u8>) -> Result<usize, ReadError>
    requires { vec_len bytes.old ≤ LIMIT }
    ensures takes { IfOk result (Takes (S.seen source.old) (S.seen source.new) bytes.old.items bytes.new.items) }
    ensures bound { vec_len bytes.new ≤ LIMIT + 1 }
    ensures end { IfOk result (λ count. (S.seen source.new).at_end ≡ (count == 0)) }
    ensures later { (S.seen source.old).faults ≤ (S.seen source.new).faults }
    ensures fault { IsErrOf result Fault → HasFailed (S.seen source.old) (S.seen source.new) }
    ensures counted { IsCounted Fault (S.seen source.old) (S.seen source.new) result }
    ensures not_long { IsErrOf result TooLong → ⊥ }
    ensures turns { (S.seen source.new).reads ≤ (S.seen source.old).reads + 1 }
    ensures err { OnErr result (LosesPiece (S.seen source.old) (S.seen source.new) bytes.old.items) }
    ensures sound { StaysUntouched Fault (S.seen source.old) (S.seen source.new) result }
{
    let mut room = [0u8; PIECE];
    let most = PIECE.min(LIMIT + 1 - bytes.len());
    match source.read(&mut room[..most]) {
        Ok(count) => {
            bytes.extend_from_slice(&room[..count])?;
            Ok(count)
        }
        Err(_) => Err(ReadError::Fault),
    }
}

/// Reads to the end of the source, or to the byte after the limit. What was read before an error
/// is lost.
pub fn read_bytes<S: Source>(alloc: Global, source: &mut S) -> Result<Vec<u8>, ReadError>
    ensures read { IfOk result (λ bytes. HasRead (S.seen source.old) (S.seen source.new) bytes.items) }
    ensures short { IfOk result (λ bytes. vec_len bytes ≤ 2 ^ 20) }
    ensures err { OnErr result (LosesUpTo (S.seen source.old) (S.seen source.new) (2 ^ 20 + 1)) }
    ensures long { IsErrOf result TooLong → HasOver (S.seen source.old) (2 ^ 20) }

    // The source has told its end, and where it is too long its last read gave more.
    ensures end { OnOk result (IsTrue (S.seen source.new).at_end) }
    ensures more { IsErrOf result TooLong → (S.seen source.new).at_end ≡ false }
    // Faults are counted by the source alone, and no read failed without an answer that says so.
    ensures fault { IsErrOf result Fault → HasFailed (S.seen source.old) (S.seen source.new) }
    ensures later { (S.seen source.old).faults ≤ (S.seen source.new).faults }
    ensures counted { IsCounted Fault (S.seen source.old) (S.seen source.new) result }
    ensures turns { (S.seen source.new).reads ≤ (S.seen source.old).reads + (2 ^ 20 + 1) }
    ensures sound { StaysUntouched Fault (S.seen source.old) (S.seen source.new) result }
{
    let mut bytes = Vec::new(alloc);
    for _turn in 0..LIMIT + 1 {
        if read_piece(source, &mut bytes)? == 0 {
            return Ok(bytes);
        }
        if bytes.len() > LIMIT {
            return Err(ReadError::TooLong);
        }
    }
    unreachable!()
}
