//! What the tokens of a line mean.

ghost use Rattle.std.specs.Prelude.{◌≡◌, IfOk, map, option_copied};
ghost use Rattle.py_lines.specs.Reading.{meanings};
ghost use Rattle.py_lines.specs.Meaning.{code_name as code_name_in, is_name as is_name_in, literal_meaning as literal_meaning_in, meaning as meaning_in, word_meaning as word_meaning_in};
ghost use Rattle.py_lines.specs.Senses.{meaning_of};
ghost use Rattle.py_lines.specs.Pieces.{lexeme_of};

use crate::keyword::Keyword;
use crate::token::{Token, first_token};
use crate::word::{drive_number, is_spelled_as_name, number_of, quoted_text};
use py_code::NoMemory;
use std::alloc::Global;

/// A token as it is understood.
#[derive(Clone, Copy, Debug, PartialEq, Eq)]
pub enum Sense<'a> {
    /// `(`.
    Open,
    /// `)`.
    Close,
    /// `=`.
    Equals,
    /// A word of the language.
    Key(Keyword),
    /// Any other word that is spelled as a name is; operators are such words.
    Word(&'a [u8]),
    /// A whole number.
    Number(i128),
    /// The characters between two quotes.
    Text(&'a [u8]),
    /// The drive that `$` and a number name.
    Drive(u64),
    /// The code that `@` and a name name.
    Ref(&'a [u8]),
    /// `-`.
    Dash,
    /// Any other word, by the pieces that commas and dots join in it, if it is such a word.
    Parts(&'a [u8]),
}

/// Whether a word is a name, which no keyword is.
fn is_name(word: &[u8]) -> bool
    ensures { result ≡ is_name_in word.now }
{
    is_spelled_as_name(word) && Keyword::of(word).is_none()
}

/// The name of the code that a word names: `@`, then a name.
fn code_name(word: &[u8]) -> Option<&[u8]>
    ensures { option_copied result ≡ code_name_in word.now }
{
    let (first, name) = word.split_first()?;
    if *first == b'@' && is_name(name) {
        Some(name)
    } else {
        None
    }
}

/// What a word means that is neither a keyword nor spelled as a name.
fn literal_meaning(word: &[u8]) -> Sense<'_>
    ensures { meaning_of result ≡ literal_meaning_in word.now }
{
    if let Some(number) = number_of(word) {
        return Sense::Number(number);
    }
    if let Some(text) = quoted_text(word) {
        return Sense::Text(text);
    }
    if let Some(number) = drive_number(word) {
        return Sense::Drive(number);
    }
    if let Some(name) = code_name(word) {
        return Sense::Ref(name);
    }
    if word == b"-".as_slice() {
        Sense::Dash
    } else {
        Sense::Parts(word)
    }
}

fn word_meaning(word: &[u8]) -> Sense<'_>
    ensures { meaning_of result ≡ word_meaning_in word.now }
{
    match Keyword::of(word) {
        Some(keyword) => Sense::Key(keyword),
        None => {
            if is_spelled_as_name(word) {
                Sense::Word(word)
            } else {
                literal_meaning(word)
            }
        }
    }
}

/// What a token means.
fn meaning<'a>(token: &Token<'a>) -> Sense<'a>
    ensures { meaning_of result ≡ meaning_in (lexeme_of token.now) }
{
    match token {
        Token::Open => Sense::Open,
        Token::Close => Sense::Close,
        Token::Equals => Sense::Equals,
        Token::Word(word) => word_meaning(word),
    }
}

/// What the tokens of a line mean.
pub fn meanings_of(alloc: Global, line: &[u8]) -> Result<Vec<Sense<'_>>, NoMemory>
    ensures { IfOk result (λ found. map meaning_of found.items ≡ meanings line.now) }
{
    let mut meanings = Vec::new(alloc);
    let mut rest = line;
    while let Some((token, more)) = first_token(rest) {
        meanings.push(meaning(&token))?;
        rest = more;
    }
    Ok(meanings)
}
