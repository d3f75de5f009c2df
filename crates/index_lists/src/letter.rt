ghost use Rattle.std.specs.Prelude.{◌≡◌, ◌^◌, ◌-ℤ◌, ◌<ℤ◌, pos, length};
ghost use Rattle.airy_math.specs.Keys.{total};
ghost use Rattle.airy_math.specs.Shapes.{law_number};
ghost use Rattle.sparse_tensor.specs.Grades.{IsSmallLaw};
ghost use Rattle.airy_math.specs.Cuts.{letter_of};

use crate::window::number_of;
use airy_index::{Key, Law, Shape};
use sparse_tensor::Tensors;

/// The letter's exponent at a key, as the shape leaves room for it: the law's number less the sum of the indices.
pub fn letter_at(tensors: &Tensors, key: &Key) -> u16
    ensures { result ≡ letter_of tensors.now.shape key.now }
{
    tensors.soundness_fact();
    let Shape::AtMost(law) = tensors.shape() else {
        return 0;
    };
    let room = room_of(law, key);
    if room < 0 {
        return 0;
    }
    room as u16
}

/// The law's number less the sum of the indices.
fn room_of(law: Law, key: &Key) -> i64
    requires { IsSmallLaw (Shape.AtMost law) }
    ensures value { result ≡ law_number law key.now.g (length key.now.idx) -ℤ pos (total key.now.idx) }
    ensures most { result <ℤ pos (2 ^ 16) }
{
    number_of(law, key.g(), key.places()) - i64::from(key.sum())
}
