ghost use Rattle.std.specs.Prelude.{◌≡◌, ◌<◌, IfOk, []};
ghost use Rattle.sparse_tensor.specs.Entries.{value_at, is_taken, with_entry};
ghost use Rattle.sparse_tensor.specs.Rows.{pairs_of, PutsIn};

use crate::pair_row::PairRow;
use frac128::Frac;
use std::alloc::{AllocError, Global};
use std::marker::Model;

/// Entries with three indices, in a row for the first, which is below dim.
#[derive(Drop)]
pub(crate) struct Pairs {
    rows: Vec<PairRow>,
}

impl Model for Pairs {
    ghost use Rattle.std.specs.Prelude.{length};
    ghost use Rattle.sparse_tensor.specs.Rows.{Places, places_code, joined, pair_entries};

    ghost Value = { Places };

    ghost coded = { places_code };

    ghost view = { λ p. record { dim = length p.rows.items; entries = joined pair_entries 0 p.rows.items } };
}

impl Pairs {
    /// No entries, with all rows that they may need.
    pub fn empty(alloc: Global, dim: u8) -> Result<Pairs, AllocError>
        ensures { IfOk result (λ p. p ≡ record { dim = dim; entries = [] }) }
    {
        let mut rows = Vec::new(alloc);
        for _row in 0..dim {
            rows.push(PairRow::new(alloc))?;
        }
        Ok(Pairs { rows })
    }

    /// The value at i, j and k, 0 where no entry stands there.
    pub fn value(&self, i: u8, j: u8, k: u8) -> Frac
        requires { i < self.now.dim }
        ensures { result ≡ value_at self.now.entries i j k }
    {
        let row = &self.rows[i as usize];
        row.value(j, k)
    }

    /// The entries at i, by their last two indices.
    pub fn row(&self, i: u8) -> &[(u8, u8, Frac)]
        requires { i < self.now.dim }
        ensures { result.now ≡ pairs_of i self.now.entries }
    {
        let row = &self.rows[i as usize];
        row.entries()
    }

    /// Puts an entry, and answers whether the place was free.
    pub fn put(&mut self, i: u8, j: u8, k: u8, v: Frac) -> Result<bool, AllocError>
        requires { i < self.old.dim }
        ensures { PutsIn result (is_taken self.old.entries i j k) self.old
            (record self.old { entries = with_entry (record { i = i; j = j; k = k; v = v }) self.old.entries }) self.new }
    {
        let row = &mut self.rows[i as usize];
        row.put(j, k, v)
    }
}
