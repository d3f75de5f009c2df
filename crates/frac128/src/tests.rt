use crate::{Frac, FracErr};
use std::test::Fail;

const GREATEST: i128 = i128::MAX;

fn fraction(num: i128, den: i128) -> Result<Frac, Fail> {
    Ok(Frac::new(num, den).map_err(|_| "no fraction")?)
}

#[test]
fn lowest_terms(rt: HostRuntime) -> Result<(), Fail> {
    assert_eq!(rt; fraction(4, 8)?.parts(), (1, 2));
    assert_eq!(rt; fraction(-3, -6)?.parts(), (1, 2));
    assert_eq!(rt; fraction(3, -6)?.parts(), (-1, 2));
    assert_eq!(rt; fraction(0, -6)?.parts(), (0, 1));
    assert_eq!(rt; fraction(GREATEST, -GREATEST)?.parts(), (-1, 1));
    assert_eq!(rt; Frac::whole(i64::MIN).parts(), (-9223372036854775808, 1));
    assert_eq!(rt; Frac::new(1, 0), Err(FracErr::ZeroDen));
    assert_eq!(rt; Frac::new(i128::MIN, 0), Err(FracErr::ZeroDen));
    assert_eq!(rt; Frac::new(i128::MIN, 1), Err(FracErr::Over));
    assert_eq!(rt; Frac::new(1, i128::MIN), Err(FracErr::Over));
    Ok(())
}

#[test]
fn lowest_terms_without_a_gcd(rt: HostRuntime) -> Result<(), Fail> {
    let x = fraction(-3, 8)?;
    x.range_fact();
    let (num, den) = x.parts();
    assert_eq!(rt; Frac::of_lowest(num, den.unsigned_abs()), x);
    assert_eq!(rt; Frac::over_twos(12, 3).parts(), (3, 2));
    assert_eq!(rt; Frac::over_twos(-12, 1).parts(), (-6, 1));
    assert_eq!(rt; Frac::over_twos(0, 126).parts(), (0, 1));
    assert_eq!(rt;
        Frac::over_twos(-GREATEST, 126).parts(),
        (-GREATEST, 1 << 126)
    );
    Ok(())
}

#[test]
fn sums(rt: HostRuntime) -> Result<(), Fail> {
    let half = fraction(1, 2)?;
    let one = Frac::whole(1);
    assert_eq!(rt; half.add(fraction(1, 3)?), Some(fraction(5, 6)?));
    let zero = fraction(1, 6)?.add(fraction(-1, 6)?).ok_or("sum")?;
    assert!(rt; zero.is_zero());
    assert_eq!(rt; zero.parts(), (0, 1));
    assert_eq!(rt; fraction(GREATEST, 1)?.add(one), None);
    assert_eq!(rt;
        fraction(GREATEST, 1)?.add(one.neg()),
        Some(fraction(GREATEST - 1, 1)?)
    );
    Ok(())
}

#[test]
fn products(rt: HostRuntime) -> Result<(), Fail> {
    let large = fraction(1 << 126, 1)?;
    assert_eq!(rt; large.mul(Frac::whole(2)), None);
    assert_eq!(rt; large.mul(fraction(1, 2)?), Some(fraction(1 << 125, 1)?));
    assert_eq!(rt;
        fraction(1 << 126, 3)?.mul(fraction(3, 1 << 126)?),
        Some(Frac::whole(1))
    );
    assert_eq!(rt;
        fraction(-2, 3)?.mul(fraction(9, 4)?),
        Some(fraction(-3, 2)?)
    );
    Ok(())
}

#[test]
fn texts(rt: HostRuntime) -> Result<(), Fail> {
    let mut text = [0u8; 84];
    let count = fraction(-1, 2)?.write_into(&mut text);
    assert_eq!(rt; &text[..count], b"-1/2".as_slice());
    let count = Frac::whole(0).write_into(&mut text);
    assert_eq!(rt; &text[..count], b"0".as_slice());
    let count = fraction(-GREATEST, GREATEST - 1)?.write_into(&mut text);
    assert_eq!(rt; count, 80);
    assert_eq!(rt;
        &text[..count],
        b"-170141183460469231731687303715884105727/170141183460469231731687303715884105726".as_slice()
    );
    Ok(())
}

/// The greatest common divisor by remainders alone.
fn slow_gcd(a: u128, b: u128) -> u128 {
    let mut x = a;
    let mut y = b;
    for _ in 0..200 {
        if y == 0 {
            return x;
        }
        let rest = x % y;
        x = y;
        y = rest;
    }
    x
}

/// The fraction num/den in lowest terms, where both numbers are in range.
fn slow_lowest(num: i128, den: i128) -> Option<(i128, i128)> {
    let common = slow_gcd(num.unsigned_abs(), den.unsigned_abs());
    let divisor = i128::try_from(common).ok()?;
    Some((num.checked_div(divisor)?, den.checked_div(divisor)?))
}

/// A number that isn't -2^127.
fn in_range(n: Option<i128>) -> Option<i128> {
    n.filter(|n| *n != i128::MIN)
}

/// The school product, where no number on the way leaves the range.
fn slow_product(a: (i128, i128), b: (i128, i128)) -> Option<(i128, i128)> {
    slow_lowest(in_range(a.0.checked_mul(b.0))?, a.1.checked_mul(b.1)?)
}

/// The school sum, where no number on the way leaves the range.
fn slow_sum(a: (i128, i128), b: (i128, i128)) -> Option<(i128, i128)> {
    let left = in_range(a.0.checked_mul(b.1))?;
    let right = in_range(b.0.checked_mul(a.1))?;
    slow_lowest(in_range(left.checked_add(right))?, a.1.checked_mul(b.1)?)
}

const PRIME: u128 = 2305843009213693951;

/// The remainder by a prime below 2^61.
fn residue(n: i128) -> u128 {
    let size = n.unsigned_abs() % PRIME;
    if n < 0 { (PRIME - size) % PRIME } else { size }
}

/// The product of two remainders, which are below 2^61.
fn times(a: u128, b: u128) -> u128 {
    a.wrapping_mul(b) % PRIME
}

/// Whether the answer is the slow one where there is one, and else has the cross products of the school result num/den
/// modulo a prime.
fn agrees(answer: Option<Frac>, slow: Option<(i128, i128)>, num: u128, den: u128) -> bool {
    match (answer, slow) {
        (Some(fraction), Some(numbers)) => fraction.parts() == numbers,
        (Some(fraction), None) => {
            let (n, d) = fraction.parts();
            times(residue(n), den) == times(residue(d), num)
        }
        (None, Some(_)) => false,
        (None, None) => true,
    }
}

/// Whether the sum and the product of two fractions are those of school.
fn as_at_school(x: Frac, y: Frac) -> bool {
    let a = x.parts();
    let b = y.parts();
    let (n, d) = (residue(a.0), residue(a.1));
    let (m, e) = (residue(b.0), residue(b.1));
    let den = times(d, e);
    let sum = times(n, e).wrapping_add(times(m, d)) % PRIME;
    agrees(x.mul(y), slow_product(a, b), times(n, m), den)
        && agrees(x.add(y), slow_sum(a, b), sum, den)
}

#[test]
fn all_edges(rt: HostRuntime) -> Result<(), Fail> {
    let sizes = [
        0i128,
        1,
        2,
        3,
        12,
        105,
        1024,
        1000000007,
        9223372036854775807,
        9223372036854775808,
        18446744073709551615,
        18446744073709551616,
        18446744073709551617,
        1 << 126,
        3 << 125,
        GREATEST - 1,
        GREATEST,
    ];
    let mut fractions = Vec::new(rt.alloc());
    for num in sizes {
        for den in sizes {
            if let Ok(positive) = Frac::new(num, den) {
                fractions.push(positive)?;
                fractions.push(positive.neg())?;
            }
        }
    }
    let mut wrong = 0u32;
    for x in &fractions {
        for y in &fractions {
            if !as_at_school(*x, *y) {
                wrong = wrong.saturating_add(1);
            }
        }
    }
    assert_eq!(rt; wrong, 0);
    Ok(())
}
