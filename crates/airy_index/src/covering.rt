ghost use Rattle.std.specs.Prelude.{◌≡◌, ◌≤◌, ◌^◌, ◌*ℤ◌};
ghost use Rattle.std.specs.Int.RustNames.{unsigned_abs};
ghost use Rattle.airy_math.specs.Shapes.{covers, law_number};
ghost use Rattle.airy_math.specs.declared.Shape.{Shape};
ghost use Rattle.airy_index.specs.Covering.{covers_sum as covered, CoversBySum};

use crate::Key;
use airy_math::{Law, Shape};

/// Asks a shape which keys can have a value.
pub trait Covers {
    /// The shape that is asked.
    ghost shape: { Self → Shape };

    /// Whether the key's indices have the sum that the shape's law wants: any sum for `All`, the law's number for
    /// `Exact`, at most that number for `AtMost`.
    fn covers(&self, key: &Key) -> bool
        ensures { result ≡ covers (shape self.now) key.now };
}

impl Covers for Shape {
    ghost shape = { λ s. s };

    #[tactic(auto, using(crate::proofs::CoveringLaw::covers_by_sum))]
    fn covers(&self, key: &Key) -> bool {
        covers_sum(*self, key.g(), key.places(), key.sum())
    }
}

/// Whether the shape covers the keys of genus g with this number of places and this sum of indices: `covers` without
/// a key, for loops that leave out what isn't covered before they make one.
#[tactic(auto, unfolding(crate::specs::Covering::covers_sum, airy_math::specs::Shapes::eq_z))]
pub fn covers_sum(shape: Shape, g: u8, places: u8, sum: u16) -> bool
    ensures { result ≡ covered shape g places sum }
{
    match shape {
        Shape::All => true,
        Shape::Exact(law) => i64::from(sum) == number_of(law, g, places),
        Shape::AtMost(law) => i64::from(sum) <= number_of(law, g, places),
    }
}

/// The law's number for a genus and a number of places.
#[tactic(auto, unfolding(airy_math::specs::Shapes::law_number))]
fn number_of(law: Law, g: u8, places: u8) -> i64
    ensures { result ≡ law_number law g places }
{
    times(law.per_g, i16::from(g) - 1) + times(law.per_n, i16::from(places))
}

/// The product of a law's factor and a count.
fn times(factor: i32, count: i16) -> i64
    ensures value { result ≡ factor *ℤ count }
    ensures small { unsigned_abs result ≤ 2 ^ 46 }
{
    i64::from(factor) * i64::from(count)
}

/// A law: a shape covers a key exactly where `covers_sum` says so of the key's genus, number of places and sum.
#[tactic(auto, using(crate::proofs::CoveringLaw::covers_by_sum))]
pub fn covers_by_sum()
    ensures { CoversBySum }
{}
