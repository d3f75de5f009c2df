ghost use Rattle.std.specs.Prelude.{◌≡◌, ◌<◌, ◌^◌, Some, IfSome};
ghost use Rattle.airy_math.specs.Rational.{whole};
ghost use Rattle.airy_math.specs.Obtained.{◌⊛◌};

use crate::unreduced::Unreduced;
use crate::weight::Weight;
use crate::words::Word;
use frac128::Frac;

/// (m v) x by words.
#[inline(always)]
pub fn word_once(times: u8, v: Frac, x: &Word) -> Option<Unreduced>
    ensures { IfSome result (λ t. t ≡ Some (whole times) ⊛ Some v ⊛ Some x.now) }
{
    Word::whole(u64::from(times))
        .times(&Word::of(v)?)?
        .product(x)
}

/// (m v) x
#[tactic(auto, unfolding(airy_math::specs::Rational::whole))]
pub fn long_once(times: u8, v: Frac, x: &Unreduced) -> Unreduced
    ensures { result ≡ Some (whole times) ⊛ Some v ⊛ x.now }
{
    Unreduced::of(Frac::whole(i64::from(times)))
        .mul(&Unreduced::of(v))
        .mul(x)
}

/// w x by words.
#[inline(always)]
pub fn word_joined(weight: &Weight, x: &Word) -> Option<Unreduced>
    ensures { IfSome result (λ t. t ≡ weight.now ⊛ Some x.now) }
{
    weight.word()?.product(x)
}

/// w x, if w is obtained
pub fn long_joined(weight: &Weight, x: &Unreduced) -> Unreduced
    ensures { result ≡ weight.now ⊛ x.now }
{
    weight.unreduced().mul(x)
}

/// ((w q) x) y by words.
#[inline(always)]
pub fn word_twice(weight: &Weight, ways: u64, x: &Word, y: &Word) -> Option<Unreduced>
    requires { ways < 2 ^ 63 }
    ensures { IfSome result (λ t. t ≡ weight.now ⊛ Some (whole ways) ⊛ Some x.now ⊛ Some y.now) }
{
    let weight = weight.word()?.times(&Word::whole(ways))?;
    weight.times(x)?.product(y)
}

/// ((w q) x) y, if w is obtained
#[tactic(auto, unfolding(airy_math::specs::Rational::whole))]
pub fn long_twice(weight: &Weight, ways: u64, x: &Unreduced, y: &Unreduced) -> Unreduced
    requires { ways < 2 ^ 63 }
    ensures { result ≡ weight.now ⊛ Some (whole ways) ⊛ x.now ⊛ y.now }
{
    weight
        .unreduced()
        .mul(&Unreduced::of(Frac::whole(ways as i64)))
        .mul(x)
        .mul(y)
}
