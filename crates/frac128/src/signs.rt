ghost use Rattle.std.specs.Prelude.{◌≡◌, ◌<◌, ◌^◌, ◌*ℤ◌, ◌+ℤ◌, pos, unsigned_abs, int_div};
ghost use Rattle.frac128.specs.Signs.{with_sign, signs_differ};
ghost use Rattle.frac128.specs.Steps.{ranged, ranged_sum};

/// The number of this size and sign.
pub(crate) fn signed(negative: bool, size: u128) -> i128
    requires { size < 2 ^ 127 }
    ensures { result ≡ with_sign negative size }
{
    if negative {
        -(size as i128)
    } else {
        size as i128
    }
}

/// One of the two is below 0 and the other isn't.
pub(crate) fn differ_in_sign(a: i128, b: i128) -> bool
    ensures { result ≡ signs_differ a b }
{
    (a < 0) != (b < 0)
}

/// The number k times as great, where both are words.
fn scaled(a: i64, k: u64) -> i128
    requires { k < 2 ^ 63 }
    ensures { result ≡ a *ℤ pos k }
{
    a as i128 * k as i128
}

/// The first number m times as great and the second n times as great, added up: of words it always fits.
pub(crate) fn sum_of_word_multiples(a: i64, m: u64, c: i64, n: u64) -> i128
    requires m_fits { m < 2 ^ 63 }
    requires n_fits { n < 2 ^ 63 }
    ensures value { result ≡ a *ℤ pos m +ℤ c *ℤ pos n }
    ensures fits { unsigned_abs result < 2 ^ 127 }
{
    scaled(a, m) + scaled(c, n)
}

/// The number k times as great, where it is in range.
fn times(a: i128, k: u128) -> Option<i128>
    ensures { result ≡ ranged (a *ℤ pos k) }
{
    let size = a.unsigned_abs().checked_mul(k)?;
    if size >> 127 != 0 {
        return None;
    }
    Some(signed(a < 0, size))
}

/// The sum of two numbers, where it is in range.
fn sum_of(a: i128, c: i128) -> Option<i128>
    ensures { result ≡ ranged (a +ℤ c) }
{
    let sum = a.checked_add(c)?;
    if sum == i128::MIN { None } else { Some(sum) }
}

/// The first number m times as great and the second n times as great, added up, where all three are in range.
#[inline(always)]
pub(crate) fn sum_of_multiples(a: i128, m: u128, c: i128, n: u128) -> Option<i128>
    ensures { result ≡ ranged_sum (a *ℤ pos m) (c *ℤ pos n) }
{
    let left = times(a, m)?;
    let right = times(c, n)?;
    sum_of(left, right)
}

/// The number divided by one of its divisors.
pub(crate) fn part_of(a: i128, k: u128) -> i128
    requires some { 0 < k }
    requires fits { unsigned_abs a < 2 ^ 127 }
    ensures { result ≡ int_div a (pos k) }
{
    signed(a < 0, a.unsigned_abs() / k)
}

/// The number divided by 2^twos, which divides it.
pub(crate) fn shifted_part(a: i128, twos: u32) -> i128
    requires below { twos < 128 }
    requires fits { unsigned_abs a < 2 ^ 127 }
    ensures { result ≡ int_div a (pos (2 ^ twos)) }
{
    signed(a < 0, a.unsigned_abs() >> twos)
}
