ghost use Rattle.std.specs.Prelude.{◌≡◌, ◌∷◌, [], ◌<◌, ◌≤◌, ◌+◌, ◌^◌, true, false, length, drop, MatchOption};
ghost use Rattle.std.specs.Str.Lines.{strip_carriage_return};
ghost use Rattle.tensor_text.specs.Lines.{lines, words};
ghost use Rattle.tensor_text.specs.Grammar.{is_note, is_skipped, counted};
ghost use Rattle.tensor_text.specs.Steps.{IsNext, IsWithin};

use crate::places::{blank_place, place_of};

/// The next line that counts: its number, its first word, what stands behind that word, and the lines behind it. At
/// the end the number that a further line would have.
#[derive(Clone, Copy)]
pub(crate) enum Next<'a> {
    Line {
        number: u32,
        word: &'a [u8],
        more: &'a [u8],
        behind: &'a [u8],
    },
    End {
        number: u32,
    },
}

/// Without the first byte, where there is one.
fn without_first(bytes: &[u8]) -> &[u8]
    ensures { result.now ≡ drop 1 bytes.now }
{
    match bytes.split_first() {
        Some((_first, rest)) => rest,
        None => bytes,
    }
}

/// Without one carriage return at the end.
fn without_return(line: &[u8]) -> &[u8]
    ensures { result.now ≡ strip_carriage_return line.now }
{
    if !line.is_empty() && line[line.len() - 1] == b'\r' {
        &line[..line.len() - 1]
    } else {
        line
    }
}

/// The first line of a text, and what stands behind it.
fn split_line(text: &[u8]) -> Option<(&[u8], &[u8])>
    ensures { MatchOption result (lines text.now ≡ [])
        (λ p. (lines text.now ≡ p.0.now ∷ lines p.1.now) × (length p.1.now < length text.now)) }
{
    if text.is_empty() {
        return None;
    }
    let (line, rest) = text.split_at(place_of(b'\n', text));
    Some((without_return(line), without_first(rest)))
}

/// The first word of a line, and what stands behind it.
pub(crate) fn split_word(line: &[u8]) -> Option<(&[u8], &[u8])>
    ensures { MatchOption result (words line.now ≡ []) (λ p. words line.now ≡ p.0.now ∷ words p.1.now) }
{
    let mut rest = line;
    while !rest.is_empty() {
        let (word, more) = rest.split_at(blank_place(rest));
        rest = without_first(more);
        if !word.is_empty() {
            return Some((word, rest));
        }
    }
    None
}

/// The first word of a line that counts, and what stands behind it.
#[tactic(auto, unfolding(crate::specs::Grammar::is_skipped))]
fn first_word(line: &[u8]) -> Option<(&[u8], &[u8])>
    ensures { MatchOption result (is_skipped (words line.now) ≡ true)
        (λ p. (words line.now ≡ p.0.now ∷ words p.1.now) × (is_skipped (words line.now) ≡ false)) }
{
    match split_word(line) {
        Some((word, more)) if !begins_note(word) => Some((word, more)),
        _ => None,
    }
}

/// Whether a word begins with `#`.
#[tactic(auto, unfolding(crate::specs::Grammar::is_note))]
fn begins_note(word: &[u8]) -> bool
    ensures { result ≡ is_note word.now }
{
    match word.split_first() {
        Some((first, _rest)) => *first == b'#',
        None => false,
    }
}

/// The next line of a text that counts, where the text's first line has this number.
pub(crate) fn next_line(text: &[u8], first: u32) -> Next<'_>
    requires { first + length text.now < 2 ^ 32 }
    ensures next { IsNext result (counted first (lines text.now)) }
    ensures within { IsWithin result first (length text.now) }
{
    let mut rest = text;
    let mut number = first;
    while let Some((line, behind)) = split_line(rest) {
        if let Some((word, more)) = first_word(line) {
            return Next::Line {
                number,
                word,
                more,
                behind,
            };
        }
        rest = behind;
        number += 1;
    }
    Next::End { number }
}
