ghost use Rattle.std.specs.Prelude.{◌≡◌, ◌==◌, ◌^◌, ◌≤◌, ◌≤ℤ◌, ◌<◌, ◌+◌, ◌*◌, length, SomeIff, IfSome, Some, pos, negsuc};
ghost use Rattle.tensor_text.specs.Values.{below, number_of, short_of, signed_of, whole_of, denominator_of, size_of, read_value_of};
ghost use Rattle.airy_math.specs.Rational.{◌/ℚ◌};

use crate::places::place_of;
use frac128::Frac;

/// The end of the range of the two numbers of a value.
const BEYOND: u128 = 1 << 127;

/// The number of a word of one digit or more, where it is below the limit.
pub(crate) fn read_number(word: &[u8], limit: u128) -> Option<u128>
    ensures { result ≡ below limit (number_of word.now) }
{
    if word.is_empty() {
        return None;
    }
    let mut number: u128 = 0;
    for c in word {
        if !c.is_ascii_digit() {
            return None;
        }
        number = with_digit(number, *c - b'0', limit)?;
    }
    Some(number)
}

/// The number with one more digit, where it is below the limit.
fn with_digit(number: u128, digit: u8, limit: u128) -> Option<u128>
    ensures { SomeIff result (number * 10 + digit < limit) (number * 10 + digit) }
{
    let longer = number.checked_mul(10)?.checked_add(digit as u128)?;
    if longer < limit { Some(longer) } else { None }
}

/// The number of a word of one digit or two.
#[tactic(auto, using(crate::proofs::ValueLemmas::below_fits))]
fn read_short(word: &[u8]) -> Option<u8>
    ensures value { result ≡ short_of word.now }
    ensures most { IfSome result (λ n. n ≤ 99) }
{
    if word.len() > 2 {
        return None;
    }
    let number = read_number(word, 100)?;
    Some(number as u8)
}

/// A number of a law: an optional sign, then one digit or two.
#[tactic(auto, unfolding(crate::specs::Values::signed_of))]
pub(crate) fn read_signed(word: &[u8]) -> Option<i32>
    ensures value { result ≡ signed_of word.now }
    ensures least { IfSome result (λ z. negsuc 98 ≤ℤ z) }
    ensures most { IfSome result (λ z. z ≤ℤ pos 99) }
{
    let (sign, size) = word.split_first()?;
    match sign {
        b'+' => Some(read_short(size)? as i32),
        b'-' => Some(-(read_short(size)? as i32)),
        _ => Some(read_short(word)? as i32),
    }
}

/// The number of a word, from 0 to 2^127-1.
#[tactic(auto, using(crate::proofs::ValueLemmas::below_fits), unfolding(crate::specs::Values::whole_of))]
fn read_whole(word: &[u8]) -> Option<u128>
    ensures value { result ≡ whole_of word.now }
    ensures fits { IfSome result (λ n. n < 2 ^ 127) }
{
    read_number(word, BEYOND)
}

/// The number behind a stroke, from 1 to 2^127-1, and 1 where there is none.
#[tactic(auto, unfolding(crate::specs::Values::denominator_of, crate::specs::Values::not_zero))]
fn read_denominator(rest: &[u8]) -> Option<u128>
    ensures value { result ≡ denominator_of rest.now }
    ensures fits { IfSome result (λ d. (0 < d) × (d < 2 ^ 127)) }
{
    let Some((_stroke, word)) = rest.split_first() else {
        return Some(1);
    };
    let den = read_whole(word)?;
    if den == 0 { None } else { Some(den) }
}

/// The fraction num/den.
fn quotient(num: u128, den: u128) -> Option<Frac>
    requires num_fits { num < 2 ^ 127 }
    requires den_fits { den < 2 ^ 127 }
    requires some { 0 < den }
    ensures { result ≡ Some (pos num /ℚ den) }
{
    Frac::new(num as i128, den as i128).ok()
}

/// The fraction n or n/d.
#[tactic(auto, using(crate::proofs::ValueLemmas::before_first, crate::proofs::ValueLemmas::from_first), unfolding(crate::specs::Values::size_of, crate::specs::Values::quotient_of))]
fn read_size(word: &[u8]) -> Option<Frac>
    ensures { result ≡ size_of word.now }
{
    let (digits, rest) = word.split_at(place_of(b'/', word));
    let num = read_whole(digits)?;
    let den = read_denominator(rest)?;
    quotient(num, den)
}

/// The fraction of a value: an optional sign, one digit or more, then optionally a stroke and one digit or more. None
/// exactly where the word isn't a value: one of its numbers is above 2^127-1, the number behind the stroke is 0, or it
/// has another form. Zeros may lead, and the value needn't be in lowest terms.
#[tactic(auto, unfolding(crate::specs::Values::read_value_of))]
pub fn read_value(word: &[u8]) -> Option<Frac>
    ensures { result ≡ read_value_of word.now }
{
    let (sign, size) = word.split_first()?;
    match sign {
        b'+' => read_size(size),
        b'-' => Some(read_size(size)?.neg()),
        _ => read_size(word),
    }
}
