//! Lines of scripts and texts: as they stand, or a piece so many times, with signs for bytes that a file of lines can't hold.

use crate::fault::LineFault;
use std::alloc::Global;

/// What the bytes of a piece that were read last leave open.
#[derive(Clone, Copy)]
enum Sign {
    None,
    Begun,
    Hex,
    Half(u8),
}

/// Puts a line behind the bytes, with its end. One that begins with `@N` and a blank is a piece, which is put N times
/// and has no end of its own.
pub(crate) fn put_line(alloc: Global, bytes: &mut Vec<u8>, line: &str) -> Result<(), LineFault> {
    if let Some(rest) = line.strip_prefix('@') {
        if let Some((count, piece)) = rest.split_once(' ') {
            if let Ok(count) = count.parse::<u32>() {
                return put_pieces(alloc, bytes, piece.as_bytes(), count);
            }
        }
    }
    bytes.extend_from_slice(line.as_bytes())?;
    bytes.push(b'\n')?;
    Ok(())
}

/// Puts a piece so many times behind the bytes.
fn put_pieces(
    alloc: Global,
    bytes: &mut Vec<u8>,
    piece: &[u8],
    count: u32,
) -> Result<(), LineFault> {
    for number in 0..count {
        put_piece(alloc, bytes, piece, u64::from(number) + 1)?;
    }
    Ok(())
}

/// Puts a piece behind the bytes, where it stands for the time of this number. A sign in it must have its end.
fn put_piece(
    alloc: Global,
    bytes: &mut Vec<u8>,
    piece: &[u8],
    number: u64,
) -> Result<(), LineFault> {
    let mut sign = Sign::None;
    for byte in piece {
        sign = put_byte(alloc, bytes, sign, *byte, number)?;
    }
    match sign {
        Sign::None => Ok(()),
        _ => Err(LineFault::Unknown),
    }
}

/// Puts what a byte of a piece stands for behind the bytes.
fn put_byte(
    alloc: Global,
    bytes: &mut Vec<u8>,
    sign: Sign,
    byte: u8,
    number: u64,
) -> Result<Sign, LineFault> {
    match sign {
        Sign::None if byte == b'\\' => return Ok(Sign::Begun),
        Sign::None => bytes.push(byte)?,
        Sign::Begun if byte == b'x' => return Ok(Sign::Hex),
        Sign::Begun => put_sign(alloc, bytes, byte, number)?,
        Sign::Hex => return Ok(Sign::Half(hex_of(byte)?)),
        Sign::Half(high) => bytes.push((high << 4) | hex_of(byte)?)?,
    }
    Ok(Sign::None)
}

/// Puts what a sign of one byte stands for behind the bytes: the number, the end of a line, a blank, or a backslash.
fn put_sign(alloc: Global, bytes: &mut Vec<u8>, sign: u8, number: u64) -> Result<(), LineFault> {
    match sign {
        b'#' => bytes.extend_from_slice(format!(in alloc; "{number}")?.as_bytes())?,
        b'n' => bytes.push(b'\n')?,
        b'r' => bytes.push(b'\r')?,
        b't' => bytes.push(b'\t')?,
        b'\\' => bytes.push(sign)?,
        _ => return Err(LineFault::Unknown),
    }
    Ok(())
}

/// The value of a hexadecimal digit.
fn hex_of(digit: u8) -> Result<u8, LineFault> {
    match digit {
        b'0'..=b'9' => Ok(digit - b'0'),
        b'a'..=b'f' => Ok(digit - b'a' + 10),
        _ => Err(LineFault::Unknown),
    }
}
