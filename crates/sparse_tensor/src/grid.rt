ghost use Rattle.std.specs.Prelude.{◌≡◌, ◌<◌, ◌+◌, ◌*◌, IfOk, []};
ghost use Rattle.sparse_tensor.specs.Entries.{value_at, is_taken, with_entry};
ghost use Rattle.sparse_tensor.specs.Rows.{row_of, PutsIn};

use crate::row::Row;
use frac128::Frac;
use std::alloc::{AllocError, Global};
use std::marker::Model;

/// Entries with three indices below dim, in a row for the first two.
#[derive(Drop)]
pub(crate) struct Grid {
    dim: u8,
    rows: Vec<Row>,
}

impl Model for Grid {
    ghost use Rattle.std.specs.Prelude.{◌≡◌, ◌*◌, length};
    ghost use Rattle.sparse_tensor.specs.Rows.{Places, places_code, joined, grid_row};

    ghost Value = { Places };

    ghost coded = { places_code };

    ghost view = { λ g. record { dim = g.dim; entries = joined (grid_row g.dim) 0 g.rows.items } };

    ghost invariant = { λ g. length g.rows.items ≡ g.dim * g.dim };
}

/// The number of the row of i and j.
fn row_number(dim: u8, i: u8, j: u8) -> usize
    requires first { i < dim }
    requires second { j < dim }
    ensures value { result ≡ i * dim + j }
    ensures within { result < dim * dim }
{
    usize::from(i) * usize::from(dim) + usize::from(j)
}

impl Grid {
    /// No entries, with all rows that they may need.
    pub fn empty(alloc: Global, dim: u8) -> Result<Grid, AllocError>
        ensures { IfOk result (λ g. g ≡ record { dim = dim; entries = [] }) }
    {
        let mut rows = Vec::new(alloc);
        for _row in 0..usize::from(dim) * usize::from(dim) {
            rows.push(Row::new(alloc))?;
        }
        Ok(Grid { dim, rows })
    }

    /// The value at i, j and k, 0 where no entry stands there.
    pub fn value(&self, i: u8, j: u8, k: u8) -> Frac
        requires first { i < self.now.dim }
        requires second { j < self.now.dim }
        ensures { result ≡ value_at self.now.entries i j k }
    {
        let row = &self.rows[row_number(self.dim, i, j)];
        row.value(k)
    }

    /// The entries at i and j, by their last index.
    pub fn row(&self, i: u8, j: u8) -> &[(u8, Frac)]
        requires first { i < self.now.dim }
        requires second { j < self.now.dim }
        ensures { result.now ≡ row_of i j self.now.entries }
    {
        let row = &self.rows[row_number(self.dim, i, j)];
        row.entries()
    }

    /// Puts an entry, and answers whether the place was free.
    pub fn put(&mut self, i: u8, j: u8, k: u8, v: Frac) -> Result<bool, AllocError>
        requires first { i < self.old.dim }
        requires second { j < self.old.dim }
        ensures { PutsIn result (is_taken self.old.entries i j k) self.old
            (record self.old { entries = with_entry (record { i = i; j = j; k = k; v = v }) self.old.entries }) self.new }
    {
        let number = row_number(self.dim, i, j);
        let row = &mut self.rows[number];
        row.put(k, v)
    }
}
