ghost use Rattle.std.specs.Prelude.{◌≡◌, ◌<◌, ◌≤◌, ◌^◌, ◌*◌, ◌/◌, ◌%◌};
ghost use Rattle.airy_math.specs.Gcd.{gcd};

/// The power 2^k.
pub(crate) fn power_of_two(k: u32) -> u128
    requires { k < 128 }
    ensures { result ≡ 2 ^ k }
{
    1 << k
}

/// The odd part of a word, and the exponent of the power of two beside it.
pub(crate) fn odd_part(n: u64) -> (u64, u32)
    requires { 0 < n }
    ensures whole { result.0 * 2 ^ result.1 ≡ n }
    ensures odd { result.0 % 2 ≡ 1 }
    ensures within { result.1 < 64 }
{
    let twos = n.trailing_zeros();
    (n >> twos, twos)
}

/// The odd part of a number, and the exponent of the power of two beside it.
pub(crate) fn long_odd_part(n: u128) -> (u128, u32)
    requires { 0 < n }
    ensures whole { result.0 * 2 ^ result.1 ≡ n }
    ensures odd { result.0 % 2 ≡ 1 }
    ensures within { result.1 < 128 }
{
    let twos = n.trailing_zeros();
    (n >> twos, twos)
}

/// The exponent of the greatest power of two, up to 2^m, that divides n.
pub(crate) fn shared_twos(n: u128, m: u32) -> u32
    requires { m < 128 }
    ensures value { 2 ^ result ≡ gcd n (2 ^ m) }
    ensures within { result ≤ m }
{
    n.trailing_zeros().min(m)
}

/// The greatest common divisor of an odd word and another: the smaller odd part is taken from the greater.
fn odd_gcd(a: u64, b: u64) -> u64
    requires { a % 2 ≡ 1 }
    ensures { result ≡ gcd a b }
{
    let mut x = a;
    let mut y = b;
    while y != 0 {
        let (part, _twos) = odd_part(y);
        if part < x {
            y = x - part;
            x = part;
        } else {
            y = part - x;
        }
    }
    x
}

/// The greatest common divisor of two words.
pub(crate) fn gcd_u64(a: u64, b: u64) -> u64
    ensures value { result ≡ gcd a b }
    ensures positive { 0 < b → 0 < result }
{
    if a == 0 {
        return b;
    }
    if b == 0 {
        return a;
    }
    let (x, i) = odd_part(a);
    let (y, j) = odd_part(b);
    let twos = i.min(j);
    if x == 1 || y == 1 {
        return 1 << twos;
    }
    odd_gcd(x, y) << twos
}

/// The greatest common divisor: by Euclid, and by words as soon as both numbers fit one.
pub(crate) fn gcd_u128(a: u128, b: u128) -> u128
    ensures value { result ≡ gcd a b }
    ensures positive { 0 < b → 0 < result }
{
    let mut x = a;
    let mut y = b;
    while y != 0 {
        if x >> 64 == 0 && y >> 64 == 0 {
            return gcd_u64(x as u64, y as u64) as u128;
        }
        let rest = x % y;
        x = y;
        y = rest;
    }
    x
}

/// Two words, each divided by their greatest common divisor: by a shift where the second is a power of two.
pub(crate) fn without_common(a: u64, b: u64) -> (u64, u64)
    requires { 0 < b }
    ensures { result ≡ (a / gcd a b, b / gcd a b) }
{
    let (odd, twos) = odd_part(b);
    if odd == 1 {
        let shared = shared_twos(a as u128, twos);
        return (a >> shared, b >> shared);
    }
    let common = gcd_u64(a, b);
    if common == 1 {
        return (a, b);
    }
    (a / common, b / common)
}
