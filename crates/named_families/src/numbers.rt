ghost use Rattle.std.specs.Prelude.{◌≡◌, ◌<◌, ◌≤◌, ◌+◌, ◌*◌, negsuc, None, Some, OnOk, IfOk, IfErr};
ghost use Rattle.airy_math.specs.Rational.{◌/ℚ◌};
ghost use Rattle.airy_math.specs.Families.{sine, wp_number};
ghost use Rattle.airy_curve.specs.Numbers.{Holds};
ghost use Rattle.airy_curve.specs.Steps.{first_answer};
ghost use Rattle.named_families.specs.Steps.{number_refusal};

use airy_curve::next_number;
use frac128::Frac;

/// The factor `-2/(k(2k+1))` from `u_(k-1)` to `u_k`, which is `(-4)^k/(2k+1)!`. k is from 1 to 72.
fn ratio(k: u8) -> Frac
    requires some { 0 < k }
    requires most { k ≤ 72 }
    ensures { result ≡ negsuc 1 /ℚ (k * (2 * k + 1)) }
{
    let k = k as i128;
    match Frac::new(-2, k * (2 * k + 1)) {
        Ok(value) => value,
        Err(_) => unreachable!(),
    }
}

/// The numbers `c_0` to `c_most` of Weil and Petersson, and 1 behind them; or the k of the first step that leaves the
/// range, where `u_k` or `c_k` isn't obtained. Most is at most 72.
pub(crate) fn numbers_up_to(most: u8) -> Result<[Frac; 73], u8>
    requires { most ≤ 72 }
    ensures made { IfOk result (Holds wp_number (most + 1)) }
    ensures obtained { OnOk result (first_answer 1 most number_refusal ≡ None) }
    ensures over { IfErr result (λ k. first_answer 1 most number_refusal ≡ Some k) }
{
    let mut u = [Frac::whole(1); 73];
    let mut c = [Frac::whole(1); 73];
    for k in 1..most + 1 {
        let Some(factor) = u[k as usize - 1].mul(ratio(k)) else {
            return Err(k);
        };
        u[k as usize] = factor;
        let Some(number) = next_number(&u, &c, k) else {
            return Err(k);
        };
        c[k as usize] = number;
    }
    Ok(c)
}
