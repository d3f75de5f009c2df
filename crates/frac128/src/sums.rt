ghost use Rattle.std.specs.Prelude.{◌≡◌, ◌<◌, ◌^◌, ◌*◌, Some};
ghost use Rattle.airy_math.specs.Gcd.{gcd};
ghost use Rattle.frac128.specs.Steps.{lowest_sum};

use crate::divisors::{gcd_u64, gcd_u128, long_odd_part, odd_part, power_of_two, shared_twos};
use crate::signs::{part_of, shifted_part, sum_of_multiples, sum_of_word_multiples};

/// The sum of x/b and y/d where all four numbers are words and the denominators share a power of two and no more: shifts divide.
fn shifted_word_sum(x: i64, b: u64, y: i64, d: u64, twos: u32) -> (i128, u128)
    requires below { twos < 64 }
    requires words { (b < 2 ^ 63) × (d < 2 ^ 63) }
    requires common { 2 ^ twos ≡ gcd b d }
    ensures { Some result ≡ lowest_sum x b y d }
{
    let b_part = b >> twos;
    let whole = sum_of_word_multiples(x, d >> twos, y, b_part);
    let shared = shared_twos(whole.unsigned_abs(), twos);
    (
        shifted_part(whole, shared),
        b_part as u128 * (d >> shared) as u128,
    )
}

/// The sum of x/b and y/d where all four numbers are words: it is always in range.
fn word_sum(x: i64, b: u64, y: i64, d: u64) -> (i128, u128)
    requires some_b { 0 < b }
    requires some_d { 0 < d }
    requires words { (b < 2 ^ 63) × (d < 2 ^ 63) }
    ensures { Some result ≡ lowest_sum x b y d }
{
    let (b_odd, i) = odd_part(b);
    let (d_odd, j) = odd_part(d);
    if b_odd == 1 || d_odd == 1 {
        return shifted_word_sum(x, b, y, d, i.min(j));
    }
    let common = gcd_u64(b, d);
    if common == 1 {
        return shifted_word_sum(x, b, y, d, 0);
    }
    let whole = sum_of_word_multiples(x, d / common, y, b / common);
    let shared = gcd_u128(whole.unsigned_abs(), common as u128);
    (
        part_of(whole, shared),
        (b / common) as u128 * (d as u128 / shared),
    )
}

/// The sum of x/2^i and y/2^j: shifts divide.
#[inline(never)]
fn dyadic_sum(x: i128, i: u32, y: i128, j: u32) -> Option<(i128, u128)>
    requires below_i { i < 128 }
    requires below_j { j < 128 }
    ensures { result ≡ lowest_sum x (2 ^ i) y (2 ^ j) }
{
    let both = i.min(j);
    let whole = sum_of_multiples(x, power_of_two(j - both), y, power_of_two(i - both))?;
    let shared = shared_twos(whole.unsigned_abs(), both);
    let twos = i - both + j - shared;
    if twos > 126 {
        return None;
    }
    Some((shifted_part(whole, shared), power_of_two(twos)))
}

/// The sum of any two fractions: over the common part of the denominators, and what it shares with the sum divided out.
#[inline(never)]
fn long_sum(x: i128, b: u128, y: i128, d: u128) -> Option<(i128, u128)>
    requires some_b { 0 < b }
    requires some_d { 0 < d }
    ensures { result ≡ lowest_sum x b y d }
{
    let common = gcd_u128(b, d);
    let whole = sum_of_multiples(x, d / common, y, b / common)?;
    let shared = gcd_u128(whole.unsigned_abs(), common);
    let den = (b / common).checked_mul(d / shared)?;
    if den >> 127 != 0 {
        return None;
    }
    Some((part_of(whole, shared), den))
}

/// The numerator and the denominator of the sum of x/b and y/d, where its parts and both numbers are in range.
pub(crate) fn sum_numbers(x: i128, b: u128, y: i128, d: u128) -> Option<(i128, u128)>
    requires some_b { 0 < b }
    requires some_d { 0 < d }
    ensures { result ≡ lowest_sum x b y d }
{
    let x_size = x.unsigned_abs();
    let y_size = y.unsigned_abs();
    if x_size >> 63 == 0 && b >> 63 == 0 && y_size >> 63 == 0 && d >> 63 == 0 {
        return Some(word_sum(x as i64, b as u64, y as i64, d as u64));
    }
    let (b_odd, i) = long_odd_part(b);
    let (d_odd, j) = long_odd_part(d);
    if b_odd == 1 && d_odd == 1 {
        return dyadic_sum(x, i, y, j);
    }
    long_sum(x, b, y, d)
}
