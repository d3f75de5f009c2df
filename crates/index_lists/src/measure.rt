ghost use Rattle.std.specs.Prelude.{◌≡◌, ◌≤◌, ◌<◌, ◌+◌, ◌-◌, ◌^◌, ◌*ℤ◌, ◌+ℤ◌, ◌-ℤ◌, ◌∷◌, [], ℕ, pos, length};
ghost use Rattle.std.specs.Int.RustNames.{unsigned_abs};
ghost use Rattle.airy_math.specs.Cuts.{natural};
ghost use Rattle.airy_math.specs.Shapes.{per_n as shape_per_n};
ghost use Rattle.sparse_tensor.specs.Grades.{IsSmallLaw};
ghost use Rattle.index_lists.specs.Measures.{IsMeasured, IsLight, both_measured, rest_measured};
ghost use Rattle.index_lists.specs.Measures.{law_excess as excess_of_law, covers_excess as covered};

use crate::window::times;
use airy_index::Shape;
use key_index::KeyIndex;

/// What a walk carries of a list of indices in place of the list: how many there are, their sum less the law's number
/// for each, and their code.
#[derive(Clone, Copy, Default)]
pub struct Measure {
    pub excess: i64,
    pub code: u64,
    pub places: u8,
}

impl Measure {
    /// The measure of one index.
    #[inline]
    pub fn of(index: &KeyIndex, per_n: i64, x: u8) -> Measure
        requires { unsigned_abs per_n ≤ 99 }
        ensures measured { IsMeasured per_n (x ∷ []) result }
        ensures excess { result.excess ≡ pos x -ℤ per_n }
        ensures light { IsLight result }
    {
        Measure {
            places: 1,
            excess: i64::from(x) - per_n,
            code: index.index_code(x),
        }
    }

    /// The measure of a list of at most 26 indices.
    #[inline]
    pub fn of_list(index: &KeyIndex, per_n: i64, list: &[u8]) -> Measure
        requires law { unsigned_abs per_n ≤ 99 }
        requires few { length list.now ≤ 26 }
        ensures { IsMeasured per_n list.now result }
    {
        let mut whole = Measure {
            places: 0,
            excess: 0,
            code: 0,
        };
        for x in list {
            whole = whole.plus(Measure::of(index, per_n, *x));
        }
        whole
    }

    /// The measure of two lists together.
    #[inline]
    pub fn plus(self, other: Measure) -> Measure
        requires this { IsLight self }
        requires other { IsLight other }
        ensures { result ≡ both_measured self other }
    {
        Measure {
            places: self.places + other.places,
            excess: self.excess + other.excess,
            code: self.code + other.code,
        }
    }

    /// The measure of a list without a part of it.
    #[inline]
    pub fn minus(self, part: Measure) -> Measure
        requires this { IsLight self }
        requires part { IsLight part }
        requires places { part.places ≤ self.places }
        requires code { part.code ≤ self.code }
        ensures { result ≡ rest_measured self part }
    {
        Measure {
            places: self.places - part.places,
            excess: self.excess - part.excess,
            code: self.code - part.code,
        }
    }
}

/// The law's number for each index.
#[tactic(auto, unfolding(airy_math::specs::Shapes::per_n, sparse_tensor::specs::Grades::IsSmallLaw))]
#[inline]
pub fn per_n(shape: Shape) -> i64
    requires { IsSmallLaw shape }
    ensures value { result ≡ shape_per_n shape }
    ensures small { unsigned_abs result ≤ 99 }
{
    match shape {
        Shape::All => 0,
        Shape::Exact(law) => i64::from(law.per_n),
        Shape::AtMost(law) => i64::from(law.per_n),
    }
}

/// The excess that the law wants of the keys of a genus, and without a law more than any list has.
#[tactic(auto, unfolding(crate::specs::Measures::law_excess))]
#[inline]
pub fn law_excess(shape: Shape, genus: u8) -> i64
    ensures value { result ≡ excess_of_law shape genus }
    ensures small { unsigned_abs result ≤ 2 ^ 46 }
{
    match shape {
        Shape::All => 1 << 20,
        Shape::Exact(law) | Shape::AtMost(law) => times(law.per_g, i16::from(genus) - 1),
    }
}

/// Whether the shape covers the keys of a genus with an excess.
#[tactic(auto, unfolding(crate::specs::Measures::covers_excess, airy_math::specs::Shapes::eq_z))]
#[inline]
pub fn covers_excess(shape: Shape, genus: u8, excess: i64) -> bool
    ensures { result ≡ covered shape genus excess }
{
    match shape {
        Shape::All => true,
        Shape::Exact(_) => excess == law_excess(shape, genus),
        Shape::AtMost(_) => excess <= law_excess(shape, genus),
    }
}

/// A number where it is above 0, and else 0.
#[inline]
pub fn above_zero(number: i64) -> u32
    requires { unsigned_abs number ≤ 2 ^ 30 }
    ensures { result ≡ natural number }
{
    if number < 0 {
        return 0;
    }
    number as u32
}
