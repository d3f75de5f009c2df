ghost use Rattle.std.specs.Prelude.{◌≡◌, ◌∷◌, [], Some, eqb};
ghost use Rattle.airy_math.specs.RationalLaws.{0ℚ, half};
ghost use Rattle.airy_math.specs.Terms.{obtained_half};
ghost use Rattle.airy_relations.specs.Sides.{Times};
ghost use Rattle.airy_relations.specs.Steps.{added, added_all};

use frac128::Frac;

/// The number 0.
pub(crate) fn zero() -> Frac
    ensures { result ≡ 0ℚ }
{
    Frac::whole(0)
}

/// The number 1/2.
fn half() -> Frac
    ensures { result ≡ half }
{
    match Frac::new(1, 2) {
        Ok(value) => value,
        Err(_) => unreachable!(),
    }
}

/// The weight of an entry v at the pair a, b: v where a isn't b, and v times 1/2 where it is.
#[tactic(auto, unfolding(airy_math::specs::Terms::obtained_half))]
pub(crate) fn weight(a: u8, b: u8, v: Frac) -> Option<Frac>
    ensures { result ≡ obtained_half (eqb a b) v }
{
    if a == b { v.mul(half()) } else { Some(v) }
}

/// The total and the product of x and y, where both steps are obtained. A product with the factor 0 is passed over: it
/// is obtained, and leaves the total.
#[tactic(auto, using(crate::proofs::StepLemmas::added_zero, crate::proofs::StepLemmas::added_zero_last), unfolding(crate::specs::Steps::added, crate::specs::Sides::obtained_value, airy_math::specs::Obtained::both_obtained))]
pub(crate) fn add_product(total: Frac, x: Frac, y: Frac) -> Option<Frac>
    ensures { result ≡ added (Some total) (Times x y) }
{
    if x.is_zero() || y.is_zero() {
        total.range_fact();
        return Some(total);
    }
    total.add(x.mul(y)?)
}

/// The total and three products, each of two factors, added from left to right.
#[tactic(auto, unfolding(crate::specs::Steps::added, crate::specs::Steps::added_all, airy_math::specs::Obtained::obtained_from, airy_math::specs::Obtained::both_obtained))]
pub(crate) fn add_three(
    total: Frac,
    x: (Frac, Frac),
    y: (Frac, Frac),
    z: (Frac, Frac),
) -> Option<Frac>
    ensures { result ≡ added_all (Some total) (Times x.0 x.1 ∷ Times y.0 y.1 ∷ Times z.0 z.1 ∷ []) }
{
    let total = add_product(total, x.0, x.1)?;
    let total = add_product(total, y.0, y.1)?;
    add_product(total, z.0, z.1)
}
