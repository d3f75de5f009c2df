ghost use Rattle.std.specs.Prelude.{◌≡◌, Some, None, IfSome};
ghost use Rattle.airy_math.specs.Rational.{ℚ};
ghost use Rattle.airy_math.specs.Obtained.{both_obtained, obtained_sum, ◌⊛◌};

use crate::sizes::{bits, common, raised, raised_sum, short_product, short_sum};
use frac128::Frac;
use std::marker::Model;

/// What is obtained of sums and products so far, a fraction that need not be in lowest terms, or nothing.
#[derive(Drop)]
pub struct Unreduced {
    pub(crate) num: i128,
    pub(crate) odd: u128,
    pub(crate) twos: u32,
}

impl Model for Unreduced {
    ghost use Rattle.std.specs.Prelude.{Option};
    ghost use Rattle.std.specs.Coded.{coded_option};
    ghost use Rattle.airy_math.specs.Rational.{ℚ, rational_code};

    ghost Value = { Option ℚ };

    ghost coded = { coded_option rational_code };

    ghost use Rattle.running_sum.specs.Kept.{AreFields, the_number};

    ghost view = { the_number };

    ghost invariant = { AreFields };
}

impl Unreduced {
    /// A fraction.
    #[inline(always)]
    pub fn of(v: Frac) -> Unreduced
        ensures { result ≡ Some v }
    {
        v.range_fact();
        let (num, den) = v.parts();
        let den = den as u128;
        let twos = den.trailing_zeros();
        Unreduced {
            num,
            odd: den >> twos,
            twos,
        }
    }

    /// Nothing.
    pub fn none() -> Unreduced
        ensures { result ≡ None }
    {
        Unreduced {
            num: 0,
            odd: 0,
            twos: 0,
        }
    }

    /// What may be a fraction.
    #[inline(always)]
    pub fn from(v: Option<Frac>) -> Unreduced
        ensures { result ≡ v }
    {
        match v {
            Some(v) => Unreduced::of(v),
            None => Unreduced::none(),
        }
    }

    /// The fraction in lowest terms.
    pub fn value(&self) -> Option<Frac>
        ensures { result ≡ self.now }
    {
        if self.odd == 0 {
            return None;
        }
        if self.odd == 1 {
            return Some(Frac::over_twos(self.num, self.twos));
        }
        Frac::new(self.num, (self.odd << self.twos) as i128).ok()
    }

    /// The product, if both are obtained and it is.
    pub fn mul(&self, o: &Unreduced) -> Unreduced
        ensures { result ≡ self.now ⊛ o.now }
    {
        long_product(self, o)
    }

    /// The same fraction in a place of its own, so that a call that takes a reference to it leaves the first in registers.
    #[inline(always)]
    fn moved(&self) -> Unreduced
        ensures { result ≡ self.now }
    {
        Unreduced {
            num: self.num,
            odd: self.odd,
            twos: self.twos,
        }
    }

    /// Adds what is obtained of another, if both are obtained and the sum is.
    #[inline(always)]
    pub fn add(&mut self, o: &Unreduced)
        ensures { self.new ≡ both_obtained obtained_sum self.old o.now }
    {
        if self.odd == o.odd && o.twos <= self.twos {
            if let Some(num) = raised_sum(self.num, o.num, self.twos - o.twos) {
                self.num = num;
                return;
            }
        }
        self.add_long(&o.moved());
    }

    /// The same by a call of its own, which the common sum does without.
    #[inline(never)]
    fn add_long(&mut self, o: &Unreduced)
        ensures { self.new ≡ both_obtained obtained_sum self.old o.now }
    {
        *self = long_sum(self, o);
    }
}

/// The product without a reduction, where the sizes say that it is in range.
fn certified_product(a: &Unreduced, b: &Unreduced) -> Option<Unreduced>
    ensures { IfSome result (λ p. p ≡ a.now ⊛ b.now) }
{
    let num = short_product(a.num, b.num)?;
    let twos = a.twos + b.twos;
    if bits(a.odd) + bits(b.odd) + twos > 126 {
        return None;
    }
    Some(Unreduced {
        num,
        odd: a.odd * b.odd,
        twos,
    })
}

/// The product of any two.
#[inline(never)]
fn long_product(a: &Unreduced, b: &Unreduced) -> Unreduced
    ensures { result ≡ a.now ⊛ b.now }
{
    if let Some(product) = certified_product(a, b) {
        return product;
    }
    match (a.value(), b.value()) {
        (Some(x), Some(y)) => Unreduced::from(x.mul(y)),
        _ => Unreduced::none(),
    }
}

/// The sum over a common denominator, where the sizes say that all is in range.
fn certified_sum(a: &Unreduced, b: &Unreduced) -> Option<Unreduced>
    ensures { IfSome result (λ s. s ≡ both_obtained obtained_sum a.now b.now) }
{
    if a.odd == 0 || b.odd == 0 {
        return None;
    }
    let (f, g) = common(a.odd, b.odd)?;
    let twos = a.twos.max(b.twos);
    if bits(a.odd) + bits(f) + twos > 127 {
        return None;
    }
    let x = raised(a.num, f, twos - a.twos)?;
    let y = raised(b.num, g, twos - b.twos)?;
    Some(Unreduced {
        num: short_sum(x, y)?,
        odd: a.odd * f,
        twos,
    })
}

/// The sum of any two.
#[tactic(auto, unfolding(airy_math::specs::Obtained::both_obtained))]
fn long_sum(a: &Unreduced, b: &Unreduced) -> Unreduced
    ensures { result ≡ both_obtained obtained_sum a.now b.now }
{
    if let Some(sum) = certified_sum(a, b) {
        return sum;
    }
    match (a.value(), b.value()) {
        (Some(x), Some(y)) => Unreduced::from(x.add(y)),
        _ => Unreduced::none(),
    }
}
