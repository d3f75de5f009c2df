ghost use Rattle.std.specs.Prelude.{◌≡◌, ◌==◌, ◌&&◌, ◌∷◌, ◌<◌, ◌≤◌, IfSome, codes, option_copied};
ghost use Rattle.std.specs.Option.{option_map};
ghost use Rattle.std.specs.Str.{bytes_eq};
ghost use Rattle.tensor_text.specs.Lines.{words};
ghost use Rattle.tensor_text.specs.Grammar.{only_word, two_words, place_words, letter_of, header_line, dim_line};
ghost use Rattle.tensor_text.specs.Values.{index_of, dim_of};
ghost use Rattle.tensor_text.specs.Steps.{fields_seen};

use crate::lines::split_word;
use crate::values::read_number;
use sparse_tensor::Part;

/// The words of three indices and a value.
#[derive(Clone, Copy)]
pub(crate) struct PlaceWords<'a> {
    pub i: &'a [u8],
    pub j: &'a [u8],
    pub k: &'a [u8],
    pub v: &'a [u8],
}

/// The one word of the rest of a line, where there is just one.
#[tactic(auto, unfolding(crate::specs::Grammar::only_word))]
pub(crate) fn only_word(more: &[u8]) -> Option<&[u8]>
    ensures { option_copied result ≡ only_word (words more.now) }
{
    let (word, rest) = split_word(more)?;
    match split_word(rest) {
        None => Some(word),
        Some(_) => None,
    }
}

/// The words of an index and a value, where there are just two.
#[tactic(auto, unfolding(crate::specs::Grammar::two_words))]
pub(crate) fn two_words(more: &[u8]) -> Option<(&[u8], &[u8])>
    ensures { option_map (λ p. (p.0.now, p.1.now)) result ≡ two_words (words more.now) }
{
    let (i, rest) = split_word(more)?;
    let v = only_word(rest)?;
    Some((i, v))
}

/// The words of three indices and a value, where there are just four.
#[tactic(auto, unfolding(crate::specs::Grammar::place_words))]
pub(crate) fn place_words(more: &[u8]) -> Option<PlaceWords<'_>>
    ensures { option_map fields_seen result ≡ place_words (words more.now) }
{
    let (i, rest) = split_word(more)?;
    let (j, rest) = split_word(rest)?;
    let (k, v) = two_words(rest)?;
    Some(PlaceWords { i, j, k, v })
}

/// An index below dim.
#[tactic(auto, using(crate::proofs::ValueLemmas::below_fits), unfolding(crate::specs::Values::index_of))]
pub(crate) fn read_index(dim: u8, word: &[u8]) -> Option<u8>
    ensures value { result ≡ index_of dim word.now }
    ensures below { IfSome result (λ i. i < dim) }
{
    let index = read_number(word, dim as u128)?;
    Some(index as u8)
}

/// A dim, from 1 to 32.
#[tactic(auto, using(crate::proofs::ValueLemmas::below_fits), unfolding(crate::specs::Values::dim_of, crate::specs::Values::not_zero))]
fn dim_of(word: &[u8]) -> Option<u8>
    ensures value { result ≡ dim_of word.now }
    ensures range { IfSome result (λ n. (0 < n) × (n ≤ 32)) }
{
    let dim = read_number(word, 33)?;
    if dim == 0 { None } else { Some(dim as u8) }
}

/// The tensor that a word names.
#[tactic(auto, unfolding(crate::specs::Grammar::letter_of))]
pub(crate) fn letter_of(word: &[u8]) -> Option<Part>
    ensures { result ≡ letter_of word.now }
{
    if word == b"A".as_slice() {
        Some(Part::A)
    } else if word == b"B".as_slice() {
        Some(Part::B)
    } else if word == b"C".as_slice() {
        Some(Part::C)
    } else {
        None
    }
}

/// Whether a header has a shape line behind the dim line: not that of `airy 1`, that of `airy 2`.
#[tactic(auto, unfolding(crate::specs::Grammar::header_line, crate::specs::Grammar::version_of))]
pub(crate) fn read_header(word: &[u8], more: &[u8]) -> Option<bool>
    ensures { result ≡ header_line (word.now ∷ words more.now) }
{
    if word != b"airy".as_slice() {
        return None;
    }
    let version = only_word(more)?;
    if version == b"1".as_slice() {
        Some(false)
    } else if version == b"2".as_slice() {
        Some(true)
    } else {
        None
    }
}

/// The dim of a line `dim N`.
#[tactic(auto, unfolding(crate::specs::Grammar::dim_line))]
pub(crate) fn read_dim_line(word: &[u8], more: &[u8]) -> Option<u8>
    ensures value { result ≡ dim_line (word.now ∷ words more.now) }
    ensures range { IfSome result (λ n. (0 < n) × (n ≤ 32)) }
{
    if word != b"dim".as_slice() {
        return None;
    }
    dim_of(only_word(more)?)
}
