//! Numbers from 0 on that lines of raw codes have, by what the tokens mean that print them.

ghost use Rattle.std.specs.Prelude.{◌∷◌, []};
ghost use Rattle.py_lines.specs.Finding.{Prints, Reads};
ghost use Rattle.py_lines.specs.RawLines.{counts_tokens, small_token};
ghost use Rattle.py_lines.specs.Senses.{meaning_of};

use crate::meaning::Sense;

/// The number of at most 32 bits that a token is.
fn small_of(token: &Sense<'_>) -> Option<u32>
    ensures { Prints small_token (meaning_of token.now) result }
{
    let Sense::Number(number) = token else {
        return None;
    };
    u32::try_from(*number).ok()
}

/// The number of at most 32 bits that is the only token.
pub fn lone_small(tokens: &[Sense<'_>]) -> Option<u32>
    ensures { Reads (λ n. small_token n ∷ []) tokens.now result }
{
    match tokens {
        [] => None,
        [number] => small_of(number),
        [_, _, ..] => None,
    }
}

/// The two such numbers that are the only tokens.
fn two_smalls(tokens: &[Sense<'_>]) -> Option<(u32, u32)>
    ensures { Reads (λ p. small_token p.0 ∷ small_token p.1 ∷ []) tokens.now result }
{
    let Some((first, rest)) = tokens.split_first() else {
        return None;
    };
    let Some(first) = small_of(first) else {
        return None;
    };
    let Some(second) = lone_small(rest) else {
        return None;
    };
    Some((first, second))
}

/// The three such numbers that are the only tokens.
pub fn three_smalls(tokens: &[Sense<'_>]) -> Option<(u32, u32, u32)>
    ensures { Reads counts_tokens tokens.now result }
{
    let Some((first, rest)) = tokens.split_first() else {
        return None;
    };
    let Some(first) = small_of(first) else {
        return None;
    };
    let Some((second, third)) = two_smalls(rest) else {
        return None;
    };
    Some((first, second, third))
}
