ghost use Rattle.std.specs.Prelude.{◌≡◌, nat_eq};
ghost use Rattle.airy_math.specs.Terms.{obtained_half};

use frac128::Frac;
use running_sum::Weight;

/// A pair of indices of an entry of C, with its weight: v where they differ, else v (1/2), if that is obtained.
#[derive(Drop)]
pub(crate) struct Pair {
    pub(crate) a: u8,
    pub(crate) b: u8,
    pub(crate) weight: Weight,
}

/// The weight of an entry of C.
pub(crate) fn weight_of(a: u8, b: u8, v: Frac) -> Weight
    ensures { result ≡ obtained_half (nat_eq a b) v }
{
    if a != b {
        return Weight::of(Some(v));
    }
    match Frac::new(1, 2) {
        Ok(half) => Weight::of(v.mul(half)),
        Err(_) => Weight::of(None),
    }
}
