ghost use Rattle.std.specs.Prelude.{◌≡◌, ◌<◌, ◌^◌, Some, IfSome};
ghost use Rattle.airy_math.specs.Rational.{ℚ, ◌/ℚ◌, whole};
ghost use Rattle.airy_math.specs.Obtained.{◌⊛◌};

use crate::sizes::{is_short, word};
use crate::unreduced::Unreduced;
use frac128::Frac;
use std::marker::Model;

/// A fraction of words as a factor of products, taken apart: `num` over `odd` 2^`twos`. It need not be in lowest terms.
#[derive(Clone, Drop)]
pub struct Word {
    num: i64,
    odd: u64,
    twos: u32,
}

impl Model for Word {
    ghost use Rattle.airy_math.specs.Rational.{ℚ, rational_code};

    ghost Value = { ℚ };

    ghost coded = { rational_code };

    ghost use Rattle.running_sum.specs.Words.{AreWords, the_word};

    ghost view = { the_word };

    ghost invariant = { AreWords };
}

impl Word {
    /// A fraction whose numbers are words.
    #[inline(always)]
    pub fn of(v: Frac) -> Option<Word>
        ensures { IfSome result (λ w. w ≡ v) }
    {
        v.range_fact();
        let (num, den) = v.parts();
        let num = word(num)?;
        let den = den as u128;
        if den >> 64 == 0 {
            // a shift of one word is faster than one of two
            return Some(Word::over(num, den as u64));
        }
        let twos = den.trailing_zeros();
        let odd = den >> twos;
        if odd >> 64 != 0 || twos > 63 {
            return None;
        }
        Some(Word {
            num,
            odd: odd as u64,
            twos,
        })
    }

    /// num/den
    #[inline(always)]
    fn over(num: i64, den: u64) -> Word
        requires { 0 < den }
        ensures { result ≡ num /ℚ den }
    {
        let twos = den.trailing_zeros();
        Word {
            num,
            odd: den >> twos,
            twos,
        }
    }

    /// A whole number.
    #[inline(always)]
    pub(crate) fn whole(n: u64) -> Word
        requires { n < 2 ^ 63 }
        ensures { result ≡ whole n }
    {
        Word {
            num: n as i64,
            odd: 1,
            twos: 0,
        }
    }

    /// The same in a place of its own.
    #[inline(always)]
    pub fn moved(&self) -> Word
        ensures { result ≡ self.now }
    {
        Word {
            num: self.num,
            odd: self.odd,
            twos: self.twos,
        }
    }

    /// The same to be added or multiplied by any other.
    pub fn unreduced(&self) -> Unreduced
        ensures { result ≡ Some self.now }
    {
        Unreduced {
            num: i128::from(self.num),
            odd: u128::from(self.odd),
            twos: self.twos,
        }
    }

    /// The fraction in lowest terms.
    pub fn value(&self) -> Frac
        ensures { result ≡ self.now }
    {
        self.unreduced().value().unwrap()
    }

    /// The product, where it is one of words.
    #[inline(always)]
    pub(crate) fn times(&self, o: &Word) -> Option<Word>
        ensures { IfSome result (λ p. Some p ≡ Some self.now ⊛ Some o.now) }
    {
        let twos = self.twos + o.twos;
        if twos > 63 {
            return None;
        }
        Some(Word {
            num: self.num.checked_mul(o.num)?,
            odd: self.odd.checked_mul(o.odd)?,
            twos,
        })
    }

    /// The product, where its denominator is in range.
    #[inline(always)]
    pub(crate) fn product(&self, o: &Word) -> Option<Unreduced>
        ensures { IfSome result (λ p. p ≡ Some self.now ⊛ Some o.now) }
    {
        let odd = self.odd as u128 * o.odd as u128;
        let twos = self.twos + o.twos;
        if !is_short(odd, twos) {
            return None;
        }
        Some(Unreduced {
            num: self.num as i128 * o.num as i128,
            odd,
            twos,
        })
    }
}
