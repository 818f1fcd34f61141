//! Comments: lines that say nothing, in whatever characters.

ghost use Rattle.std.specs.Prelude.{◌≡◌};
ghost use Rattle.py_lines.specs.Comments.{is_comment as is_comment_line, is_utf8 as is_utf8_bytes};

use crate::token::behind_blanks;

/// Whether the first byte of a line that is no blank is `#`.
pub fn is_comment(line: &[u8]) -> bool
    ensures { result ≡ is_comment_line line.now }
{
    match behind_blanks(line).split_first() {
        None => false,
        Some((first, _)) => *first == b'#',
    }
}

/// Whether bytes are UTF-8.
pub fn is_utf8(bytes: &[u8]) -> bool
    ensures { result ≡ is_utf8_bytes bytes.now }
{
    str::from_utf8(bytes).is_ok()
}
