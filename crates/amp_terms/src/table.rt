ghost use Rattle.std.specs.Prelude.{◌≡◌, ◌<◌, length, get_or, set, replicate, Some, None, IfOk, IfErr, IfSome, is_some};
ghost use Rattle.amp_terms.specs.Outcomes.{Value};
ghost use Rattle.amp_terms.specs.Tables.{first_without, holds_value, value_at};

use crate::Outcome;
use crate::cell::Cell;
use frac128::Frac;
use running_sum::{Unreduced, Word};
use std::alloc::{AllocError, Global};
use std::marker::Model;

/// Want of memory.
pub type NoMemory = AllocError;

/// What each rank has, where it was filled.
#[derive(Drop)]
pub struct Table {
    cells: Vec<Cell>,
}

impl Model for Table {
    ghost use Rattle.std.specs.Prelude.{List, Option, ◌<◌, ◌^◌, length, map};
    ghost use Rattle.std.specs.Coded.{coded_list, coded_option};
    ghost use Rattle.amp_terms.specs.declared.Outcome.{Outcome};
    ghost use Rattle.amp_terms.specs.Tables.{outcome_code};
    ghost use Rattle.amp_terms.specs.Cells.{outcome_of};

    ghost Value = { List (Option Outcome) };

    ghost coded = { coded_list (coded_option outcome_code) };

    ghost view = { λ t. map outcome_of t.cells.items };

    ghost invariant = { λ t. length t.cells.items < 2 ^ 32 };
}

impl Table {
    /// A table of that length with nothing filled.
    pub fn empty(alloc: Global, len: u32) -> Result<Table, NoMemory>
        ensures { IfOk result (λ t. t ≡ replicate len None) }
    {
        Ok(Table {
            cells: vec![in alloc; Cell::Unfilled; len as usize]?,
        })
    }

    /// Fills a rank.
    pub fn set(&mut self, rank: u32, outcome: Outcome)
        requires { rank < length self.old }
        ensures { self.new ≡ set self.old rank (Some outcome) }
    {
        self.cells[rank as usize] = Cell::of(outcome);
    }

    /// What a rank has, or None where it was never filled.
    pub fn outcome(&self, rank: u32) -> Option<Outcome>
        requires { rank < length self.now }
        ensures { result ≡ get_or self.now rank None }
    {
        self.cells[rank as usize].outcome()
    }

    /// The number of ranks.
    pub fn len(&self) -> u32
        ensures { result ≡ length self.now }
    {
        self.cells.len() as u32
    }

    /// The Value of a rank, or None where it has none.
    #[tactic(auto, unfolding(crate::specs::Tables::value_at, crate::specs::Tables::value_of_cell))]
    pub fn value(&self, rank: u32) -> Option<Frac>
        requires { rank < length self.now }
        ensures { result ≡ value_at self.now rank }
    {
        match self.outcome(rank) {
            Some(outcome) => outcome.value(),
            None => None,
        }
    }

    /// The Value of a rank as a factor of words, where it has one.
    #[inline(always)]
    pub(crate) fn word(&self, rank: u32) -> Option<Word>
        requires { rank < length self.now }
        ensures { IfSome result (λ w. get_or self.now rank None ≡ Some (Value w)) }
    {
        self.cells[rank as usize].word()
    }

    /// The Value of a rank as a factor, or None where it has none.
    #[tactic(auto, unfolding(crate::specs::Tables::value_at))]
    pub(crate) fn factor(&self, rank: u32) -> Option<Unreduced>
        requires { rank < length self.now }
        ensures factor { IfSome result (λ x. x ≡ value_at self.now rank) }
        ensures whether { is_some result ≡ holds_value (get_or self.now rank None) }
    {
        self.cells[rank as usize].factor()
    }

    /// The least rank without a Value.
    pub fn first_not_value(&self) -> Option<u32>
        ensures value { result ≡ first_without self.now }
        ensures within { IfSome result (λ r. r < length self.now) }
    {
        for rank in 0..self.len() {
            match self.factor(rank) {
                Some(_) => {}
                None => return Some(rank),
            }
        }
        None
    }
}
