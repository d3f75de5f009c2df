ghost use Rattle.std.specs.Prelude.{◌≡◌, IfOk, OnErr, not, if◌then◌else◌, [], false};
ghost use Rattle.sparse_tensor.specs.Entries.{value_of, is_given, with_value};
ghost use Rattle.sparse_tensor.specs.Rows.{Finds};

use frac128::Frac;
use std::alloc::{AllocError, Global};
use std::marker::Model;

/// Entries with one index each, by that index ascending.
#[derive(Drop)]
pub(crate) struct Row {
    entries: Vec<(u8, Frac)>,
}

impl Model for Row {
    ghost use Rattle.std.specs.Prelude.{List, ℕ};
    ghost use Rattle.airy_math.specs.Rational.{ℚ};
    ghost use Rattle.sparse_tensor.specs.Grades.{IsAscendingByIndex};
    ghost use Rattle.sparse_tensor.specs.Rows.{row_code};

    ghost Value = { List (ℕ × ℚ) };

    ghost coded = { row_code };

    ghost view = { λ r. r.entries.items };

    ghost invariant = { λ r. IsAscendingByIndex r.entries.items };
}

impl Row {
    /// No entries.
    pub fn new(alloc: Global) -> Row
        ensures { result ≡ [] }
    {
        Row {
            entries: Vec::new(alloc),
        }
    }

    /// All entries.
    pub fn entries(&self) -> &[(u8, Frac)]
        ensures { result.now ≡ self.now }
    {
        self.entries.as_slice()
    }

    /// Where the entry of the index k stands, or would stand.
    fn find(&self, k: u8) -> Result<usize, usize>
        ensures { Finds k self.now result }
    {
        self.entries.binary_search_by_key(&k, |entry| entry.0)
    }

    /// The value at k, 0 where no entry stands there.
    pub fn value(&self, k: u8) -> Frac
        ensures { result ≡ value_of self.now k }
    {
        match self.find(k) {
            Ok(at) => self.entries[at].1,
            Err(_) => Frac::whole(0),
        }
    }

    /// Puts an entry, and answers whether the place was free.
    pub fn put(&mut self, k: u8, v: Frac) -> Result<bool, AllocError>
        ensures free { IfOk result (λ free. free ≡ not (is_given self.old k)) }
        ensures put { IfOk result (λ free. self.new ≡ (if free then with_value k v self.old else self.old)) }
        ensures wanting { OnErr result (is_given self.old k ≡ false) }
        ensures same { OnErr result (self.new ≡ self.old) }
    {
        match self.find(k) {
            Ok(_) => Ok(false),
            Err(at) => {
                self.entries.insert(at, (k, v))?;
                Ok(true)
            }
        }
    }
}
