//! Characters after a text, as they are or between quotes.

ghost use Rattle.std.specs.Prelude.{◌≡◌, [], ◌∷◌, encode_utf8_all};
ghost use Rattle.py_exceptions.specs.Repr.{has, quote_of, escaped, quoted};
ghost use Rattle.py_exceptions.specs.Writing.{Adds};

use py_code::{NoMemory, PyText};

/// Puts a text between quotes after the text.
pub(crate) fn push_quoted(out: &mut String, text: &PyText) -> Result<(), NoMemory>
    ensures { Adds result out.old out.new (quoted text.now) }
{
    let quote = quote_for(text);
    out.push(quote)?;
    push_escaped(out, text, quote)?;
    out.push(quote)?;
    Ok(())
}

// The double quote spares backslashes where a text has single quotes alone.
fn quote_for(text: &PyText) -> char
    ensures { result ≡ quote_of text.now }
{
    if contains(text, '\'') && !contains(text, '"') {
        '"'
    } else {
        '\''
    }
}

fn contains(text: &PyText, wanted: char) -> bool
    ensures { result ≡ has wanted text.now }
{
    text.iter().any(|c| *c == wanted)
}

fn push_escaped(out: &mut String, text: &PyText, quote: char) -> Result<(), NoMemory>
    ensures { Adds result out.old out.new (encode_utf8_all (escaped quote text.now)) }
{
    for c in text.as_slice() {
        push_character(out, *c, quote)?;
    }
    Ok(())
}

fn push_character(out: &mut String, c: char, quote: char) -> Result<(), NoMemory>
    ensures { Adds result out.old out.new (encode_utf8_all (escaped quote (c ∷ []))) }
{
    if c == quote || c == '\\' {
        out.push('\\')?;
    }
    out.push(c)?;
    Ok(())
}
