ghost use Rattle.std.specs.Prelude.{◌≡◌, Some, IfSome};

use crate::unreduced::Unreduced;
use crate::words::Word;
use frac128::Frac;
use std::marker::Model;

/// A number as the first factor of many terms, or none where it isn't obtained. It is taken apart once.
#[derive(Drop)]
pub struct Weight {
    kept: Kept,
}

#[derive(Drop)]
enum Kept {
    Nothing,
    Short(Word),
    Long(Frac),
}

impl Model for Weight {
    ghost use Rattle.std.specs.Prelude.{Option};
    ghost use Rattle.std.specs.Coded.{coded_option};
    ghost use Rattle.airy_math.specs.Rational.{ℚ, rational_code};

    ghost Value = { Option ℚ };

    ghost coded = { coded_option rational_code };

    ghost use Rattle.running_sum.specs.Weights.{number_kept};

    ghost view = { λ w. number_kept w.kept };
}

impl Weight {
    /// What may be a fraction.
    #[tactic(auto, unfolding(crate::specs::Weights::number_kept))]
    pub fn of(v: Option<Frac>) -> Weight
        ensures { result ≡ v }
    {
        let kept = match v {
            None => Kept::Nothing,
            Some(v) => match Word::of(v) {
                Some(word) => Kept::Short(word),
                None => Kept::Long(v),
            },
        };
        Weight { kept }
    }

    /// The fraction as a factor of words, where it is found to be one.
    #[inline(always)]
    #[tactic(auto, unfolding(crate::specs::Weights::number_kept))]
    pub(crate) fn word(&self) -> Option<Word>
        ensures { IfSome result (λ w. self.now ≡ Some w) }
    {
        match &self.kept {
            Kept::Short(word) => Some(word.moved()),
            _ => None,
        }
    }

    /// The same to be multiplied by any other.
    #[tactic(auto, unfolding(crate::specs::Weights::number_kept))]
    pub(crate) fn unreduced(&self) -> Unreduced
        ensures { result ≡ self.now }
    {
        match &self.kept {
            Kept::Nothing => Unreduced::none(),
            Kept::Short(word) => word.unreduced(),
            Kept::Long(v) => Unreduced::of(*v),
        }
    }
}
