//! The words of a script: names, numbers and texts.

ghost use Rattle.std.specs.Prelude.{◌≡◌, option_copied};
ghost use Rattle.std.specs.List.{list_all};
ghost use Rattle.py_lines.specs.Words.{starts_name as starts_name_byte, continues_name as continues_name_byte, is_spelled_as_name as is_spelled};
ghost use Rattle.py_lines.specs.Words.{number_of as number_in, short_number as short_number_in, drive_number as drive_number_in, quoted_text as quoted_text_in, stands_in_text as stands_in_text_byte};

fn starts_name(byte: u8) -> bool
    ensures { result ≡ starts_name_byte byte }
{
    byte.is_ascii_alphabetic() || byte == b'_'
}

fn continues_name(byte: u8) -> bool
    ensures { result ≡ continues_name_byte byte }
{
    starts_name(byte) || byte.is_ascii_digit()
}

fn all_continue(bytes: &[u8]) -> bool
    ensures { result ≡ list_all continues_name_byte bytes.now }
{
    bytes.iter().all(|b| continues_name(*b))
}

/// Whether a word is a letter or `_`, then letters, digits or `_`.
pub fn is_spelled_as_name(word: &[u8]) -> bool
    ensures { result ≡ is_spelled word.now }
{
    match word.split_first() {
        None => false,
        Some((first, rest)) => { starts_name(*first) && all_continue(rest) }
    }
}

/// The number that a word spells: digits, with a minus in front or without, of at most 128 bits.
pub fn number_of(word: &[u8]) -> Option<i128>
    ensures { result ≡ number_in word.now }
{
    if word.starts_with(b"+") {
        return None;
    }
    let Ok(text) = str::from_utf8(word) else {
        return None;
    };
    text.parse().ok()
}

/// The number that one or more decimal digits spell, of at most 64 bits.
pub fn short_number(digits: &[u8]) -> Option<u64>
    ensures { result ≡ short_number_in digits.now }
{
    if digits.starts_with(b"+") {
        return None;
    }
    let Ok(text) = str::from_utf8(digits) else {
        return None;
    };
    text.parse().ok()
}

/// The number of the drive that a word names: `$`, then digits.
pub fn drive_number(word: &[u8]) -> Option<u64>
    ensures { result ≡ drive_number_in word.now }
{
    let (first, digits) = word.split_first()?;
    if *first == b'$' {
        short_number(digits)
    } else {
        None
    }
}

fn stands_in_text(byte: u8) -> bool
    ensures { result ≡ stands_in_text_byte byte }
{
    (b' '..=b'~').contains(&byte) && byte != b'\'' && byte != b'\\'
}

fn all_stand_in_text(bytes: &[u8]) -> bool
    ensures { result ≡ list_all stands_in_text_byte bytes.now }
{
    bytes.iter().all(|b| stands_in_text(*b))
}

/// The text that a word spells: its characters between two quotes.
pub fn quoted_text(word: &[u8]) -> Option<&[u8]>
    ensures { option_copied result ≡ quoted_text_in word.now }
{
    let (first, rest) = word.split_first()?;
    if *first != b'\'' {
        return None;
    }
    let (last, text) = rest.split_last()?;
    if *last == b'\'' && all_stand_in_text(text) {
        Some(text)
    } else {
        None
    }
}
