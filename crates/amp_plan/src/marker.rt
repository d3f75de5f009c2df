ghost use Rattle.std.specs.Prelude.{◌≡◌, ◌<◌, ◌≤◌, ◌^◌, ◌+◌, ◌∷◌, [], ℕ, length, IfOk};
ghost use Rattle.airy_math.specs.Rational.{whole};
ghost use Rattle.amp_plan.specs.Plans.{tensors_of, keys_of};
ghost use Rattle.amp_plan.specs.Ranked.{Alone, Once, Joined, Twice};
ghost use Rattle.amp_plan.specs.Marks.{marked, AreNamed};

use crate::ranking::Ranking;
use crate::rows::zeros;
use crate::visitor::TermVisitor;
use crate::walk::walk_ranked;
use frac128::Frac;
use running_sum::Weight;
use std::alloc::{AllocError, Global};
use std::marker::Model;

/// Collects ranks, each once. A rank is stamped when it comes, so that no rank is looked for.
#[derive(Drop)]
pub(crate) struct Marker {
    stamps: Vec<u32>,
    stamp: u32,
    row: Vec<u32>,
}

impl Model for Marker {
    ghost use Rattle.std.specs.Prelude.{length, vec_capacity};
    ghost use Rattle.amp_plan.specs.Marks.{Marks, marks_code, IsMarked};

    ghost Value = { Marks };

    ghost coded = { marks_code };

    ghost view = { λ m. record { row = m.row.items; size = length m.stamps.items; stamp = m.stamp } };

    ghost invariant = { λ m. IsMarked m.stamps.items m.stamp (vec_capacity m.row) m.row.items };
}

impl Marker {
    /// A marker for the ranks below the size.
    pub(crate) fn new(alloc: Global, size: u32) -> Result<Marker, AllocError>
        ensures { IfOk result (λ m. m ≡ record { row = []; size = size; stamp = 1 }) }
    {
        let stamps = zeros(alloc, size as usize)?;
        let row = Vec::with_capacity(alloc, size as usize)?;
        Ok(Marker {
            stamps,
            stamp: 1,
            row,
        })
    }

    /// Forgets the ranks.
    pub(crate) fn begin(&mut self, stamp: u32)
        requires { self.old.stamp < stamp }
        ensures { self.new ≡ record { row = []; size = self.old.size; stamp = stamp } }
    {
        self.row.clear();
        self.stamp = stamp;
    }

    /// Adds a rank where it isn't there yet.
    pub(crate) fn mark(&mut self, rank: u32)
        requires { rank < self.old.size }
        ensures { self.new ≡ marked self.old (rank ∷ []) }
    {
        if self.stamps[rank as usize] != self.stamp {
            self.stamps[rank as usize] = self.stamp;
            self.row.push_reserved(rank);
        }
    }

    /// The ranks.
    pub(crate) fn row(&self) -> &[u32]
        ensures { result.now ≡ self.now.row }
    {
        self.row.as_slice()
    }

    /// Collects the ranks of the keys that the terms of the key of a rank name at its least index, and no others.
    pub(crate) fn collect(&mut self, ranking: &Ranking, rank: u32)
        requires rank { rank < length (keys_of ranking.now) }
        requires size { self.old.size ≡ length (keys_of ranking.now) }
        requires stamp { self.old.stamp ≤ rank + 1 }
        ensures row { AreNamed (tensors_of ranking.now) ranking.now.bound rank self.new.row }
        ensures size { self.new.size ≡ self.old.size }
        ensures stamp { self.new.stamp ≡ rank + 2 }
    {
        ranking.is_small();
        airy_math::planned_once();
        airy_math::needs_first();
        self.begin(rank + 2);
        let key = &ranking.keys()[rank as usize];
        walk_ranked(ranking, key, key.idx()[0], self);
    }
}

impl TermVisitor for Marker {
    ghost use Rattle.std.specs.Prelude.{◌<◌};
    ghost use Rattle.amp_plan.specs.Marks.{Marks, marked_term};

    ghost State = { Marks };

    ghost state = { λ m. m };

    ghost step = { marked_term };

    ghost allows = { λ m r. r < m.size };

    fn alone(&mut self, _v: Frac) {
        let _stamp = self.stamp;
    }

    fn once(&mut self, _times: u8, _v: Frac, rank: u32) {
        self.mark(rank);
    }

    fn joined(&mut self, _weight: &Weight, rank: u32) {
        self.mark(rank);
    }

    fn twice(&mut self, _weight: &Weight, _ways: u64, left: u32, right: u32) {
        self.mark(left);
        self.mark(right);
    }
}
