ghost use Rattle.std.specs.Prelude.{◌≡◌, ◌∷◌, IfSome};
ghost use Rattle.airy_math.specs.declared.Shape.TheVariants.{Exact};
ghost use Rattle.sparse_tensor.specs.Grades.{IsSmallLaw};
ghost use Rattle.tensor_text.specs.Lines.{words};
ghost use Rattle.tensor_text.specs.Grammar.{law_of, all_shape, exact_shape, letter_given, at_most_shape, shape_words, shape_line};
ghost use Rattle.tensor_text.specs.Steps.{IsAllowed};

use crate::lines::split_word;
use crate::values::read_signed;
use crate::words::two_words;
use sparse_tensor::{Law, Shape};

/// The law of two words `P Q`.
#[tactic(auto, unfolding(crate::specs::Grammar::law_of, crate::specs::Grammar::law_by, sparse_tensor::specs::Grades::IsSmallLaw))]
fn read_law(p: &[u8], q: &[u8]) -> Option<Law>
    ensures law { result ≡ law_of p.now q.now }
    ensures small { IfSome result (λ l. IsSmallLaw (Exact l)) }
{
    let per_g = read_signed(p)?;
    let per_n = read_signed(q)?;
    Some(Law { per_g, per_n })
}

/// What stands behind `all`: nothing.
#[tactic(auto, unfolding(crate::specs::Grammar::all_shape, sparse_tensor::specs::Grades::IsSmallLaw))]
fn read_all(more: &[u8]) -> Option<(Shape, bool)>
    ensures shape { result ≡ all_shape (words more.now) }
    ensures allowed { IfSome result IsAllowed }
{
    match split_word(more) {
        None => Some((Shape::All, false)),
        Some(_) => None,
    }
}

/// What stands behind `exact`: `P Q`.
#[tactic(auto, unfolding(crate::specs::Grammar::exact_shape, sparse_tensor::specs::Grades::IsSmallLaw))]
fn read_exact(more: &[u8]) -> Option<(Shape, bool)>
    ensures shape { result ≡ exact_shape (words more.now) }
    ensures allowed { IfSome result IsAllowed }
{
    let (p, q) = two_words(more)?;
    let law = read_law(p, q)?;
    Some((Shape::Exact(law), false))
}

/// Whether `letter` stands behind a law, and nothing else.
#[tactic(auto, unfolding(crate::specs::Grammar::letter_given))]
fn read_letter(more: &[u8]) -> Option<bool>
    ensures { result ≡ letter_given (words more.now) }
{
    let Some((word, rest)) = split_word(more) else {
        return Some(false);
    };
    if split_word(rest).is_none() && word == b"letter".as_slice() {
        Some(true)
    } else {
        None
    }
}

/// What stands behind `atmost`: `P Q` or `P Q letter`.
#[tactic(auto, unfolding(crate::specs::Grammar::at_most_shape, crate::specs::Grammar::at_most_by, sparse_tensor::specs::Grades::IsSmallLaw, sparse_tensor::specs::Grades::IsAtMost))]
fn read_at_most(more: &[u8]) -> Option<(Shape, bool)>
    ensures shape { result ≡ at_most_shape (words more.now) }
    ensures allowed { IfSome result IsAllowed }
{
    let (p, rest) = split_word(more)?;
    let (q, rest) = split_word(rest)?;
    let law = read_law(p, q)?;
    let letter = read_letter(rest)?;
    Some((Shape::AtMost(law), letter))
}

/// What stands behind `shape`.
#[tactic(auto, unfolding(crate::specs::Grammar::shape_words))]
fn read_shape_words(more: &[u8]) -> Option<(Shape, bool)>
    ensures shape { result ≡ shape_words (words more.now) }
    ensures allowed { IfSome result IsAllowed }
{
    let (word, rest) = split_word(more)?;
    if word == b"all".as_slice() {
        read_all(rest)
    } else if word == b"exact".as_slice() {
        read_exact(rest)
    } else if word == b"atmost".as_slice() {
        read_at_most(rest)
    } else {
        None
    }
}

/// The shape of a shape line, and whether the tensors carry a letter.
#[tactic(auto, unfolding(crate::specs::Grammar::shape_line))]
pub(crate) fn read_shape_line(word: &[u8], more: &[u8]) -> Option<(Shape, bool)>
    ensures shape { result ≡ shape_line (word.now ∷ words more.now) }
    ensures allowed { IfSome result IsAllowed }
{
    if word != b"shape".as_slice() {
        return None;
    }
    read_shape_words(more)
}
