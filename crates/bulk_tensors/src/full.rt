ghost use Rattle.std.specs.Prelude.{◌≡◌, ◌≤◌, ◌<◌, ◌+◌, ◌*◌, ◌↔◌, IsTrue, IfOk, set, replicate};
ghost use Rattle.std.specs.Option.{IfSome, is_some};
ghost use Rattle.airy_math.specs.RationalLaws.{0ℚ};
ghost use Rattle.bulk_tensors.specs.Full.{place, entry, SameBelow};
ghost use Rattle.bulk_tensors.specs.Change.{gained, obtained_gained, at_slot, IsChanged, slot_obtained, slots_obtained};

use crate::slots::{Gain, Slot};
use frac128::Frac;
use std::alloc::{AllocError, Global};
use std::marker::Model;

/// All entries of a tensor with three indices below 8: that of i, j and k stands at 64 i + 8 j + k.
#[derive(Drop)]
pub(crate) struct Full {
    entries: Vec<Frac>,
}

impl Model for Full {
    ghost use Rattle.std.specs.Prelude.{◌≡◌, List, length};
    ghost use Rattle.airy_math.specs.Rational.{ℚ};
    ghost use Rattle.bulk_tensors.specs.Full.{entries_code};

    ghost Value = { List ℚ };

    ghost coded = { entries_code };

    ghost view = { λ f. f.entries.items };

    ghost invariant = { λ f. length f.entries.items ≡ 512 };
}

/// Whether all three indices are below dim.
pub(crate) fn are_below(dim: usize, i: usize, j: usize, k: usize) -> bool
    ensures { IsTrue result ↔ ((i < dim) × (j < dim) × (k < dim)) }
{
    i < dim && j < dim && k < dim
}

impl Full {
    /// The tensor 0.
    pub fn zero(alloc: Global) -> Result<Full, AllocError>
        ensures { IfOk result (λ f. f ≡ replicate 512 0ℚ) }
    {
        Ok(Full {
            entries: vec![in alloc; Frac::whole(0); 512]?,
        })
    }

    /// The entry at i, j and k.
    pub fn at(&self, i: usize, j: usize, k: usize) -> Frac
        requires first { i < 8 }
        requires second { j < 8 }
        requires third { k < 8 }
        ensures { result ≡ entry self.now i j k }
    {
        self.entries[64 * i + 8 * j + k]
    }

    /// Sets the entry at i, j and k.
    pub fn set(&mut self, i: usize, j: usize, k: usize, v: Frac)
        requires first { i < 8 }
        requires second { j < 8 }
        requires third { k < 8 }
        ensures set { self.new ≡ set self.old (place i j k) v }
        ensures here { entry self.new i j k ≡ v }
    {
        self.entries[64 * i + 8 * j + k] = v;
    }

    /// The new entry at i, j and k where one slot changes, None where its product or its sum isn't obtained.
    #[tactic(auto, unfolding(crate::specs::Change::at_slot, crate::specs::Change::obtained_gained))]
    fn entry_changed(&self, slot: Slot, gain: &Gain, i: usize, j: usize, k: usize) -> Option<Frac>
        requires first { i < 8 }
        requires second { j < 8 }
        requires third { k < 8 }
        requires from { gain.now.from < 8 }
        ensures { result ≡ at_slot slot (obtained_gained gain.now) (entry self.now) i j k }
    {
        let old = self.at(i, j, k);
        match slot {
            Slot::First => gain.entry(i, old, self.at(gain.from, j, k)),
            Slot::Second => gain.entry(j, old, self.at(i, gain.from, k)),
            Slot::Third => gain.entry(k, old, self.at(i, j, gain.from)),
        }
    }

    /// Makes the other tensor this one with one slot changed, at the indices below dim; None where a product or a sum isn't obtained.
    fn change_slot(&self, dim: usize, slot: Slot, gain: &Gain, into: &mut Full) -> Option<()>
        requires most { dim ≤ 8 }
        requires from { gain.now.from < dim }
        ensures obtained { is_some result ≡ slot_obtained dim slot gain.now (entry self.now) }
        ensures changed { IfSome result (λ _. SameBelow dim (entry into.new) (at_slot slot (gained gain.now) (entry self.now))) }
    {
        for place in 0..512 {
            let (i, j, k) = (place / 64, place / 8 % 8, place % 8);
            if are_below(dim, i, j, k) {
                let changed = self.entry_changed(slot, gain, i, j, k)?;
                into.set(i, j, k, changed);
            }
        }
        Some(())
    }

    /// Makes the tensor `into` this one with all slots changed from left to right, by way of the tensor `between`; None where a
    /// product or a sum isn't obtained.
    pub fn change(
        &self,
        dim: usize,
        first: &Gain,
        second: &Gain,
        third: &Gain,
        between: &mut Full,
        into: &mut Full,
    ) -> Option<()>
        requires most { dim ≤ 8 }
        requires first { first.now.from < dim }
        requires second { second.now.from < dim }
        requires third { third.now.from < dim }
        ensures obtained { is_some result ≡ slots_obtained dim first.now second.now third.now (entry self.now) }
        ensures changed { IfSome result (λ _. IsChanged dim first.now second.now third.now self.now into.new) }
    {
        self.change_slot(dim, Slot::First, first, into)?;
        into.change_slot(dim, Slot::Second, second, between)?;
        between.change_slot(dim, Slot::Third, third, into)
    }
}
