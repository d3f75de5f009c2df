ghost use Rattle.std.specs.Prelude.{◌≡◌, ◌≤◌, ◌+◌, ◌*◌, map};
ghost use Rattle.airy_math.specs.Sums.{below};
ghost use Rattle.correlators.specs.Divisions.{divided, over_indices};

use frac128::Frac;

/// A number over step + 1, 2 step + 1, and so on, `count` numbers one after the other.
fn over_every(value: Frac, step: u16, count: u16) -> Option<Frac>
    requires step { step ≤ 2 }
    requires count { count ≤ 510 }
    ensures { result ≡ divided (map (λ k. step * k + (step + 1)) (below count)) value }
{
    let mut quotient = value;
    for k in 0..count {
        quotient = quotient.mul(Frac::of_lowest(1, u128::from(step * k + (step + 1))))?;
    }
    Some(quotient)
}

/// A number over step + 1, 2 step + 1, .., 2d + 1 for each index d, one after the other: by a step of 2 over the (2d + 1)!!, and by a
/// step of 1 over the (2d + 1)!.
#[tactic(auto, unfolding(crate::specs::Divisions::over_indices, crate::specs::Divisions::divisors))]
pub(crate) fn over_each(value: Frac, idx: &[u8], step: u16) -> Option<Frac>
    requires some { 1 ≤ step }
    requires step { step ≤ 2 }
    ensures { result ≡ over_indices step idx.now value }
{
    let mut quotient = value;
    for d in idx {
        quotient = over_every(quotient, step, 2 * u16::from(*d) / step)?;
    }
    Some(quotient)
}
