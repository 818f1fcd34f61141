//! Texts: lists of characters, made of bytes and strings, grown at their end, and written in UTF-8.

ghost use Rattle.std.specs.Prelude.{◌≡◌, ◌++◌, IfOk, OnOk, OnErr, bytes_eq, chars, decimal, encode_utf8, encode_utf8_all, string_bytes};
ghost use Rattle.std.specs.Char.{IsScalar};
ghost use Rattle.py_code.specs.Texts.{IsGrown};

use crate::list::{ItemList, NoMemory};
use std::alloc::Global;

/// Characters in order.
pub type PyText = ItemList<char>;

/// Whether two texts have the same characters.
pub fn same_text(left: &PyText, right: &PyText) -> bool
    ensures { result ≡ bytes_eq left.now right.now }
{
    left.as_slice() == right.as_slice()
}

/// The text of some bytes, each of which is one character.
pub fn text_of(alloc: Global, bytes: &[u8]) -> Result<PyText, NoMemory>
    ensures { IfOk result (λ text. text ≡ bytes.now) }
{
    let mut text = PyText::new(alloc);
    push_bytes(&mut text, bytes)?;
    Ok(text)
}

/// The text of a string's characters.
pub fn text_of_str(alloc: Global, string: &str) -> Result<PyText, NoMemory>
    ensures { IfOk result (λ text. text ≡ chars string.now) }
{
    let characters: Vec<char> = string.chars().collect(alloc)?;
    Ok(PyText::of(characters))
}

/// Puts a text behind another. Without memory a front of it may be there.
pub fn push_text(text: &mut PyText, more: &PyText) -> Result<(), NoMemory>
    ensures added { OnOk result (text.new ≡ text.old ++ more.now) }
    ensures err { OnErr result (IsGrown text.old text.new) }
{
    for character in more.as_slice() {
        text.push(*character)?;
    }
    Ok(())
}

/// Puts bytes, each of which is one character, behind a text. Without memory a front of them may be there.
pub fn push_bytes(text: &mut PyText, more: &[u8]) -> Result<(), NoMemory>
    ensures added { OnOk result (text.new ≡ text.old ++ more.now) }
    ensures err { OnErr result (IsGrown text.old text.new) }
{
    for byte in more {
        text.push(char::from(*byte))?;
    }
    Ok(())
}

/// Puts the decimal digits of a number behind a text. Without memory a front of them may be there.
pub fn push_decimal(text: &mut PyText, number: usize) -> Result<(), NoMemory>
    ensures added { OnOk result (text.new ≡ text.old ++ decimal number) }
    ensures err { OnErr result (IsGrown text.old text.new) }
{
    let mut digits = String::new(text.allocator());
    write!(digits, "{number}")?;
    push_bytes(text, digits.as_bytes())
}

/// A text in UTF-8.
pub fn utf8_of(alloc: Global, text: &PyText) -> Result<String, NoMemory>
    ensures text { IfOk result (λ string. string_bytes string ≡ encode_utf8_all text.now) }
    ensures spells { OnOk result (chars (encode_utf8_all text.now) ≡ text.now) }
{
    let mut string = String::new(alloc);
    push_utf8(&mut string, text)?;
    Ok(string)
}

/// Puts a text behind a string, in UTF-8. Without memory a front of it may be there.
pub fn push_utf8(string: &mut String, text: &PyText) -> Result<(), NoMemory>
    ensures text { OnOk result (string_bytes string.new ≡ string_bytes string.old ++ encode_utf8_all text.now) }
    ensures spells { OnOk result (chars (encode_utf8_all text.now) ≡ text.now) }
    ensures err { OnErr result (IsGrown (string_bytes string.old) (string_bytes string.new)) }
{
    for character in text.as_slice() {
        push_character(string, *character)?;
    }
    Ok(())
}

/// Puts a character behind a string.
fn push_character(string: &mut String, character: char) -> Result<(), NoMemory>
    ensures text { OnOk result (string_bytes string.new ≡ string_bytes string.old ++ encode_utf8 character) }
    ensures scalar { IsScalar character }
    ensures err { OnErr result (string_bytes string.new ≡ string_bytes string.old) }
{
    string.push(character)?;
    Ok(())
}
