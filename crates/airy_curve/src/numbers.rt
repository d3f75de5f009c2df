ghost use Rattle.std.specs.Prelude.{◌≡◌, ◌<◌, ◌≤◌, ◌+◌, None, Some, OnOk, IfOk, IfErr, length};
ghost use Rattle.airy_math.specs.Curves.{number_of, of_list};
ghost use Rattle.airy_curve.specs.Numbers.{downwards, held, Holds};
ghost use Rattle.airy_curve.specs.Steps as steps;
ghost use Rattle.airy_curve.specs.Steps.{first_answer, number_refusal};

use frac128::Frac;

/// The number at a place of an array.
pub(crate) fn number_at(numbers: &[Frac; 73], k: u8) -> Frac
    requires { k ≤ 72 }
    ensures { result ≡ held numbers.now k }
{
    numbers[k as usize]
}

/// `c_k` of the numbers `u_1` to `u_k` and `c_0` to `c_(k-1)`, for a k from 1 to 72: the negative of the sum that begins at 0, and
/// to which the products of `u_l` and `c_(k-l)` are added for l from 1 to k. None where a step leaves 128 bits.
pub fn next_number(u: &[Frac; 73], c: &[Frac; 73], k: u8) -> Option<Frac>
    requires some { 0 < k }
    requires most { k ≤ 72 }
    ensures { result ≡ steps.next_number (held u.now) (downwards (held c.now) k) }
{
    let mut sum = Frac::whole(0);
    for l in 1..k + 1 {
        let product = number_at(u, l).mul(number_at(c, k - l))?;
        sum = sum.add(product)?;
    }
    Some(sum.neg())
}

/// The sequence of a list: 1, the numbers of the list, and 0 from there on.
pub(crate) fn sequence_of(list: &[Frac]) -> [Frac; 73]
    requires { length list.now ≤ 24 }
    ensures { held result ≡ of_list list.now }
{
    let mut sequence = [Frac::whole(0); 73];
    sequence[0] = Frac::whole(1);
    for l in 0..list.len() {
        sequence[l + 1] = list[l];
    }
    sequence
}

/// The numbers `c_0` to `c_most` of the curve with the numbers u, and 1 behind them; or the k of the first step that leaves the
/// range. Most is at most 72.
pub(crate) fn numbers_up_to(u: &[Frac; 73], most: u8) -> Result<[Frac; 73], u8>
    requires { most ≤ 72 }
    ensures made { IfOk result (Holds (number_of (held u.now)) (most + 1)) }
    ensures obtained { OnOk result (first_answer 1 most (number_refusal (held u.now)) ≡ None) }
    ensures over { IfErr result (λ k. first_answer 1 most (number_refusal (held u.now)) ≡ Some k) }
{
    let mut c = [Frac::whole(1); 73];
    for k in 1..most + 1 {
        let Some(number) = next_number(u, &c, k) else {
            return Err(k);
        };
        c[k as usize] = number;
    }
    Ok(c)
}
