//! The lines of a text.

ghost use Rattle.std.specs.Prelude.{◌≡◌};
ghost use Rattle.std.specs.List.{prefix_len};
ghost use Rattle.py_grammar.specs.Pieces.{is_within, without_cr, IsFirstLine};

/// How many bytes stand before the first LF.
fn line_len(bytes: &[u8]) -> usize
    ensures { result ≡ prefix_len is_within bytes.now }
{
    bytes.iter().take_while(|b| !(**b == b'\n')).count()
}

/// A line that an LF ended, without a CR at its end.
#[tactic(auto, using(crate::proofs::Cuts::chopped_yes, crate::proofs::Cuts::chopped_no, crate::proofs::Cuts::chopped_none))]
fn chopped(line: &[u8]) -> &[u8]
    ensures { result.now ≡ without_cr line.now }
{
    let Some((last, front)) = line.split_last() else {
        return line;
    };
    if *last == b'\r' { front } else { line }
}

/// The first line, and the bytes behind it; None where there are no bytes.
pub fn first_line(bytes: &[u8]) -> Option<(&[u8], &[u8])>
    ensures { IsFirstLine bytes.now result }
{
    if bytes.is_empty() {
        return None;
    }
    let (line, more) = bytes.split_at(line_len(bytes));
    match more.split_first() {
        None => Some((line, more)),
        Some((_, more)) => Some((chopped(line), more)),
    }
}
