use crate::Outcome;
use crate::pivot::Seen;
use crate::table::Table;
use running_sum::{Unreduced, Word};

/// The outcomes of a table, for the terms of a pivot sum: of each rank its own, and Over where it was never filled.
#[derive(Drop)]
pub struct TableOutcomes<'a> {
    pub table: &'a Table,
}

impl Seen for TableOutcomes<'_> {
    ghost use Rattle.std.specs.Prelude.{◌<◌, List, Option, length};
    ghost use Rattle.amp_terms.specs.declared.Outcome.{Outcome};
    ghost use Rattle.amp_terms.specs.Tables.{shown_in};

    ghost Base = { List (Option Outcome) };

    ghost made_over = { λ s. s.table.now };

    ghost has = { λ s r. r < length s.table.now };

    ghost shown = { λ s. shown_in s.table.now };

    #[tactic(auto, unfolding(crate::specs::Tables::shown_in))]
    fn at(&mut self, rank: u32) -> Outcome {
        self.table.outcome(rank).unwrap_or(Outcome::Over)
    }

    #[inline(always)]
    fn word(&mut self, rank: u32) -> Option<Word> {
        self.table.word(rank)
    }

    fn factor(&mut self, rank: u32) -> Option<Unreduced> {
        self.table.factor(rank)
    }
}
