ghost use Rattle.std.specs.Prelude.{◌≡◌, IfOk, OnErr, not, if◌then◌else◌, [], false};
ghost use Rattle.sparse_tensor.specs.Rows.{FindsPair, pair_value, has_pair, with_pair};

use frac128::Frac;
use std::alloc::{AllocError, Global};
use std::marker::Model;

/// Entries with two indices each, by these indices ascending as in a dictionary.
#[derive(Drop)]
pub(crate) struct PairRow {
    entries: Vec<(u8, u8, Frac)>,
}

impl Model for PairRow {
    ghost use Rattle.std.specs.Prelude.{List, ℕ};
    ghost use Rattle.airy_math.specs.Rational.{ℚ};
    ghost use Rattle.sparse_tensor.specs.Rows.{pair_row_code, IsAscendingByPair};

    ghost Value = { List (ℕ × ℕ × ℚ) };

    ghost coded = { pair_row_code };

    ghost view = { λ r. r.entries.items };

    ghost invariant = { λ r. IsAscendingByPair r.entries.items };
}

impl PairRow {
    /// No entries.
    pub fn new(alloc: Global) -> PairRow
        ensures { result ≡ [] }
    {
        PairRow {
            entries: Vec::new(alloc),
        }
    }

    /// All entries.
    pub fn entries(&self) -> &[(u8, u8, Frac)]
        ensures { result.now ≡ self.now }
    {
        self.entries.as_slice()
    }

    /// Where the entry of the indices j and k stands, or would stand.
    fn find(&self, j: u8, k: u8) -> Result<usize, usize>
        ensures { FindsPair j k self.now result }
    {
        self.entries
            .binary_search_by_key(&(j, k), |entry| (entry.0, entry.1))
    }

    /// The value at j and k, 0 where no entry stands there.
    pub fn value(&self, j: u8, k: u8) -> Frac
        ensures { result ≡ pair_value self.now j k }
    {
        match self.find(j, k) {
            Ok(at) => self.entries[at].2,
            Err(_) => Frac::whole(0),
        }
    }

    /// Puts an entry, and answers whether the place was free.
    pub fn put(&mut self, j: u8, k: u8, v: Frac) -> Result<bool, AllocError>
        ensures free { IfOk result (λ free. free ≡ not (has_pair self.old j k)) }
        ensures put { IfOk result (λ free. self.new ≡ (if free then with_pair j k v self.old else self.old)) }
        ensures wanting { OnErr result (has_pair self.old j k ≡ false) }
        ensures same { OnErr result (self.new ≡ self.old) }
    {
        match self.find(j, k) {
            Ok(_) => Ok(false),
            Err(at) => {
                self.entries.insert(at, (j, k, v))?;
                Ok(true)
            }
        }
    }
}
