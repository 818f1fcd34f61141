//! The tokens of a line.

ghost use Rattle.std.specs.Prelude.{◌≡◌, ◌≤◌, length};
ghost use Rattle.std.specs.List.{prefix_len};
ghost use Rattle.py_lines.specs.Comments.{is_comment};
ghost use Rattle.py_lines.specs.Tokens.{is_blank as is_blank_byte, is_mark as is_mark_byte, tokens_of as tokens_in};
ghost use Rattle.py_lines.specs.Pieces.{is_plain, quoted_len as quoted_len_in, word_size, IsFirstToken, IsMarkOf};

/// A token of a line.
#[derive(Clone, Copy, Debug, PartialEq, Eq)]
pub enum Token<'a> {
    /// `(`.
    Open,
    /// `)`.
    Close,
    /// `=`.
    Equals,
    /// The bytes between blanks and the other tokens; blanks stand in it within quotes alone.
    Word(&'a [u8]),
}

fn is_blank(byte: u8) -> bool
    ensures { result ≡ is_blank_byte byte }
{
    byte == b' ' || byte == b'\t'
}

fn is_mark(byte: u8) -> bool
    ensures { result ≡ is_mark_byte byte }
{
    byte == b'(' || byte == b')' || byte == b'='
}

/// How many bytes stand in front of the first blank or mark.
#[tactic(auto, using(crate::proofs::Lexing::plain_within))]
fn word_len(bytes: &[u8]) -> usize
    ensures is { result ≡ prefix_len is_plain bytes.now }
    ensures within { result ≤ length bytes.now }
{
    bytes
        .iter()
        .take_while(|b| !(is_blank(**b) || is_mark(**b)))
        .count()
}

/// How long the rest of a quoted text is, with what is joined to its closing quote.
fn quoted_len(bytes: &[u8]) -> usize
    ensures is { result ≡ quoted_len_in bytes.now }
    ensures within { result ≤ length bytes.now }
{
    let mut rest = bytes;
    let mut before: usize = 0;
    while let Some((first, more)) = rest.split_first() {
        before += 1;
        if *first == b'\'' {
            return before + word_len(more);
        }
        rest = more;
    }
    before
}

/// The bytes behind the blanks in front.
pub fn behind_blanks(bytes: &[u8]) -> &[u8]
    ensures same { tokens_in result.now ≡ tokens_in bytes.now }
    ensures comment { is_comment result.now ≡ is_comment bytes.now }
    ensures shorter { length result.now ≤ length bytes.now }
    ensures front { prefix_len is_blank_byte result.now ≡ 0 }
{
    let mut rest = bytes;
    while let [b' ' | b'\t', more @ ..] = rest {
        rest = more;
    }
    rest
}

/// The token that a byte is by itself.
fn mark_of(byte: u8) -> Option<Token<'static>>
    ensures { IsMarkOf byte result }
{
    match byte {
        b'(' => Some(Token::Open),
        b')' => Some(Token::Close),
        b'=' => Some(Token::Equals),
        _ => None,
    }
}

/// How long a word is behind its first byte.
fn first_len(first: u8, more: &[u8]) -> usize
    ensures is { result ≡ word_size first more.now }
    ensures within { result ≤ length more.now }
{
    if first == b'\'' {
        quoted_len(more)
    } else {
        word_len(more)
    }
}

/// The first token, and the bytes behind it; None where there is none.
pub fn first_token(bytes: &[u8]) -> Option<(Token<'_>, &[u8])>
    ensures { IsFirstToken bytes.now result }
{
    let rest = behind_blanks(bytes);
    let (first, more) = rest.split_first()?;
    match mark_of(*first) {
        Some(mark) => Some((mark, more)),
        None => {
            let (word, more) = rest.split_at(1 + first_len(*first, more));
            Some((Token::Word(word), more))
        }
    }
}
