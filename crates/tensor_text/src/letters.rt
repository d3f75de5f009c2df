ghost use Rattle.std.specs.Prelude.{◌≡◌, ◌<◌};
ghost use Rattle.tensor_text.specs.Canonical.{letter_text};
ghost use Rattle.tensor_text.specs.Pieces.{value_in, first_in};

use frac128::Frac;
use sparse_tensor::{Part, Tensors};

/// The word of a part.
pub(crate) fn letter_text(letter: Part) -> &'static [u8]
    ensures { result.now ≡ letter_text letter }
{
    match letter {
        Part::A => b"A",
        Part::B => b"B",
        Part::C => b"C",
    }
}

/// What stands at a place.
#[tactic(auto, unfolding(crate::specs::Pieces::value_in))]
pub(crate) fn value_in(letter: Part, t: &Tensors, i: u8, j: u8, k: u8) -> Frac
    ensures { result ≡ value_in letter t.now i j k }
{
    match letter {
        Part::A => t.a(i, j, k),
        Part::B => t.b(i, j, k),
        Part::C => t.c(i, j, k),
    }
}

/// The least last index that is written beside j.
pub(crate) fn first_in(letter: Part, j: u8) -> u8
    ensures { result ≡ first_in letter j }
{
    match letter {
        Part::B => 0,
        Part::A | Part::C => j,
    }
}
