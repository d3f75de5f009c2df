ghost use Rattle.std.specs.Prelude.{◌≡◌, ◌<◌, ◌^◌, ◌*◌, Some};
ghost use Rattle.airy_math.specs.Gcd.{gcd};
ghost use Rattle.frac128.specs.Steps.{lowest_sizes};

use crate::divisors::{
    gcd_u128, long_odd_part, odd_part, power_of_two, shared_twos, without_common,
};

/// The sizes of the product where all four numbers are words: it is always in range.
fn word_product(x: u64, b: u64, y: u64, d: u64) -> (u128, u128)
    requires some_b { 0 < b }
    requires some_d { 0 < d }
    requires first { gcd x b ≡ 1 }
    requires second { gcd y d ≡ 1 }
    requires words { (x < 2 ^ 63) × (b < 2 ^ 63) × (y < 2 ^ 63) × (d < 2 ^ 63) }
    ensures { Some result ≡ lowest_sizes (x * y) (b * d) }
{
    let (x_part, d_part) = without_common(x, d);
    let (y_part, b_part) = without_common(y, b);
    (
        x_part as u128 * y_part as u128,
        b_part as u128 * d_part as u128,
    )
}

/// The sizes of the product of x/2^i and y/2^j where both numerators are words and both exponents below 64: shifts divide, and
/// it is always in range.
fn dyadic_word_product(x: u64, i: u32, y: u64, j: u32) -> (u128, u128)
    requires words { (x < 2 ^ 63) × (y < 2 ^ 63) }
    requires below_i { i < 64 }
    requires below_j { j < 64 }
    requires first { gcd x (2 ^ i) ≡ 1 }
    requires second { gcd y (2 ^ j) ≡ 1 }
    ensures { Some result ≡ lowest_sizes (x * y) (2 ^ i * 2 ^ j) }
{
    let left = shared_twos(x as u128, j);
    let right = shared_twos(y as u128, i);
    (
        (x >> left) as u128 * (y >> right) as u128,
        power_of_two((i - right) + (j - left)),
    )
}

/// The sizes of the product of x/2^i and y/2^j: shifts divide.
fn dyadic_product(x: u128, i: u32, y: u128, j: u32) -> Option<(u128, u128)>
    requires below_i { i < 128 }
    requires below_j { j < 128 }
    requires first { gcd x (2 ^ i) ≡ 1 }
    requires second { gcd y (2 ^ j) ≡ 1 }
    ensures { result ≡ lowest_sizes (x * y) (2 ^ i * 2 ^ j) }
{
    let left = shared_twos(x, j);
    let right = shared_twos(y, i);
    let num = (x >> left).checked_mul(y >> right)?;
    let twos = (i - right) + (j - left);
    if num >> 127 != 0 || twos > 126 {
        return None;
    }
    Some((num, power_of_two(twos)))
}

/// The sizes of the product of any two fractions: what a numerator shares with the other's denominator is divided out first.
#[inline(never)]
fn long_product(x: u128, b: u128, y: u128, d: u128) -> Option<(u128, u128)>
    requires some_b { 0 < b }
    requires some_d { 0 < d }
    requires first { gcd x b ≡ 1 }
    requires second { gcd y d ≡ 1 }
    ensures { result ≡ lowest_sizes (x * y) (b * d) }
{
    let left = gcd_u128(x, d);
    let right = gcd_u128(y, b);
    let num = (x / left).checked_mul(y / right)?;
    let den = (b / right).checked_mul(d / left)?;
    if num >> 127 != 0 || den >> 127 != 0 {
        return None;
    }
    Some((num, den))
}

/// The sizes of the product of x/b and y/d in lowest terms, where they are in range, by the first path that fits.
#[inline(never)]
fn general_product(x: u128, b: u128, y: u128, d: u128) -> Option<(u128, u128)>
    requires some_b { 0 < b }
    requires some_d { 0 < d }
    requires first { gcd x b ≡ 1 }
    requires second { gcd y d ≡ 1 }
    ensures { result ≡ lowest_sizes (x * y) (b * d) }
{
    if x >> 63 == 0 && b >> 63 == 0 && y >> 63 == 0 && d >> 63 == 0 {
        return Some(word_product(x as u64, b as u64, y as u64, d as u64));
    }
    let (b_odd, i) = long_odd_part(b);
    let (d_odd, j) = long_odd_part(d);
    if b_odd == 1 && d_odd == 1 {
        return dyadic_product(x, i, y, j);
    }
    long_product(x, b, y, d)
}

/// The sizes of the product of x/b and y/d in lowest terms, where they are in range. Words over powers of two, which are the
/// commonest, are multiplied here, and the rest by a call, so that this stays short where it is called.
pub(crate) fn product_sizes(x: u128, b: u128, y: u128, d: u128) -> Option<(u128, u128)>
    requires some_b { 0 < b }
    requires some_d { 0 < d }
    requires first { gcd x b ≡ 1 }
    requires second { gcd y d ≡ 1 }
    ensures { result ≡ lowest_sizes (x * y) (b * d) }
{
    if x >> 63 == 0 && b >> 63 == 0 && y >> 63 == 0 && d >> 63 == 0 {
        let (b_odd, i) = odd_part(b as u64);
        let (d_odd, j) = odd_part(d as u64);
        if b_odd == 1 && d_odd == 1 {
            return Some(dyadic_word_product(x as u64, i, y as u64, j));
        }
    }
    general_product(x, b, y, d)
}
