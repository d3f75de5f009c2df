ghost use Rattle.std.specs.Prelude.{◌≡◌, Some, IfSome, is_some};
ghost use Rattle.amp_terms.specs.Cells.{outcome_of};
ghost use Rattle.amp_terms.specs.Outcomes.{Value};
ghost use Rattle.amp_terms.specs.Tables.{holds_value, value_of_cell};

use crate::Outcome;
use frac128::Frac;
use running_sum::{Unreduced, Word};

/// What a rank of a table has: a value stands as the sums multiply it.
#[derive(Clone, Drop)]
pub(crate) enum Cell {
    /// The rank was never filled.
    Unfilled,
    /// A value whose numbers are words.
    Short(Word),
    /// Any value.
    Long(Frac),
    Over,
    Blocked { first: u32 },
}

impl Cell {
    /// A cell with an outcome.
    #[tactic(auto, unfolding(crate::specs::Cells::outcome_of))]
    pub(crate) fn of(outcome: Outcome) -> Cell
        ensures { outcome_of result ≡ Some outcome }
    {
        match outcome {
            Outcome::Value(value) => match Word::of(value) {
                Some(word) => Cell::Short(word),
                None => Cell::Long(value),
            },
            Outcome::Over => Cell::Over,
            Outcome::Blocked { first } => Cell::Blocked { first },
        }
    }

    /// Its outcome, where it was filled.
    #[tactic(auto, unfolding(crate::specs::Cells::outcome_of))]
    pub(crate) fn outcome(&self) -> Option<Outcome>
        ensures { result ≡ outcome_of self.now }
    {
        match self {
            Cell::Unfilled => None,
            Cell::Short(word) => Some(Outcome::Value(word.value())),
            Cell::Long(value) => Some(Outcome::Value(*value)),
            Cell::Over => Some(Outcome::Over),
            Cell::Blocked { first } => Some(Outcome::Blocked { first: *first }),
        }
    }

    /// Its value as a factor of words, where it has one.
    #[inline(always)]
    #[tactic(auto, unfolding(crate::specs::Cells::outcome_of))]
    pub(crate) fn word(&self) -> Option<Word>
        ensures { IfSome result (λ w. outcome_of self.now ≡ Some (Value w)) }
    {
        match self {
            Cell::Short(word) => Some(word.moved()),
            _ => None,
        }
    }

    /// Its value as a factor, where it has one.
    #[tactic(auto, unfolding(crate::specs::Cells::outcome_of, crate::specs::Tables::value_of_cell, crate::specs::Tables::value_of))]
    pub(crate) fn factor(&self) -> Option<Unreduced>
        ensures factor { IfSome result (λ x. x ≡ value_of_cell (outcome_of self.now)) }
        ensures whether { is_some result ≡ holds_value (outcome_of self.now) }
    {
        match self {
            Cell::Short(word) => Some(word.unreduced()),
            Cell::Long(value) => Some(Unreduced::of(*value)),
            _ => None,
        }
    }
}
