ghost use Rattle.std.specs.Prelude.{◌≡◌, ◌<◌, ◌≤◌, ◌^◌, ◌*◌, ◌*ℤ◌, ◌+ℤ◌, pos, unsigned_abs, IfSome, true};
ghost use Rattle.running_sum.specs.Sizes.{IsProduct, IsSum, IsRaisedSum, IsCommon};

use frac128::Frac;

/// The length of a number in bits.
#[inline(always)]
pub(crate) fn bits(n: u128) -> u32
    ensures below { n < 2 ^ result }
    ensures within { result ≤ 128 }
{
    128 - n.leading_zeros()
}

/// The number as a word, where its size is below 2^63. Of a test for the range of a word the compiler would know that the word is the
/// number, and multiply by both halves of it.
#[inline(always)]
pub(crate) fn word(n: i128) -> Option<i64>
    ensures { IfSome result (λ w. (w ≡ n) × (unsigned_abs n < 2 ^ 63)) }
{
    if n.unsigned_abs() >> 63 == 0 {
        Some(n as i64)
    } else {
        None
    }
}

/// Whether o 2^twos is seen to be in range: by a look at the high half of o, and by its length where that doesn't tell.
#[inline(always)]
pub(crate) fn is_short(o: u128, twos: u32) -> bool
    requires { twos < 127 }
    ensures { result ≡ true → o * 2 ^ twos < 2 ^ 127 }
{
    o >> 64 == 0 && twos < 64 || bits(o) + twos <= 127
}

/// The product, where the lengths of the numbers say that it is in range.
pub(crate) fn short_product(a: i128, b: i128) -> Option<i128>
    ensures { IfSome result (IsProduct a b) }
{
    if bits(a.unsigned_abs()) + bits(b.unsigned_abs()) > 127 {
        return None;
    }
    Some(a * b)
}

/// The number k 2^twos times as great, where the lengths say that it is in range.
#[inline(always)]
pub(crate) fn raised(a: i128, k: u128, twos: u32) -> Option<i128>
    requires { twos < 127 }
    ensures { IfSome result (IsProduct a (pos (k * 2 ^ twos))) }
{
    if bits(a.unsigned_abs()) + bits(k) + twos > 127 {
        return None;
    }
    Some(a * (k << twos) as i128)
}

/// Whether n 2^twos is seen to be below 2^126 in size, by a look at the high half of n.
#[inline(always)]
fn is_small(n: i128, twos: u32) -> bool
    requires { twos ≤ 62 }
    ensures { result ≡ true → unsigned_abs n * 2 ^ twos < 2 ^ 126 }
{
    (n.unsigned_abs() >> 64) as u64 >> (62 - twos) == 0
}

/// a + b 2^twos, where both are seen to be below 2^126 in size.
#[inline(always)]
pub(crate) fn raised_sum(a: i128, b: i128, twos: u32) -> Option<i128>
    ensures { IfSome result (IsRaisedSum a b twos) }
{
    if twos > 62 || !is_small(a, 0) || !is_small(b, twos) {
        return None;
    }
    Some(a + b * (1u128 << twos) as i128)
}

/// The sum, where it is in range.
#[inline(always)]
pub(crate) fn short_sum(a: i128, b: i128) -> Option<i128>
    ensures { IfSome result (IsSum a b) }
{
    let sum = a.checked_add(b)?;
    if sum == i128::MIN { None } else { Some(sum) }
}

/// The quotient, where the second number divides the first: by words where both are.
fn quotient(a: u128, b: u128) -> Option<u128>
    requires { 0 < b }
    ensures { IfSome result (λ q. b * q ≡ a) }
{
    if a >> 64 == 0 && b >> 64 == 0 {
        let (a, b) = (a as u64, b as u64);
        if a % b == 0 {
            Some((a / b) as u128)
        } else {
            None
        }
    } else {
        let quotient = a / b;
        if quotient * b == a {
            Some(quotient)
        } else {
            None
        }
    }
}

/// What makes each of two numbers a multiple of both.
pub(crate) fn common(a: u128, b: u128) -> Option<(u128, u128)>
    requires a { 0 < a }
    requires b { 0 < b }
    requires small_a { a < 2 ^ 127 }
    requires small_b { b < 2 ^ 127 }
    ensures { IfSome result (IsCommon a b) }
{
    if a == b {
        return Some((1, 1));
    }
    if let Some(k) = quotient(a, b) {
        return Some((1, k));
    }
    match Frac::new(a as i128, b as i128) {
        Ok(v) => {
            let (num, den) = v.parts();
            Some((den.unsigned_abs(), num.unsigned_abs()))
        }
        Err(_) => None,
    }
}
