ghost use Rattle.std.specs.Prelude.{◌≡◌};
ghost use Rattle.bulk_tensors.specs.Change.{obtained_entry};

use frac128::Frac;

/// A place for one of the three indices of a tensor.
#[derive(Clone, Copy, Debug, PartialEq, Eq)]
pub(crate) enum Slot {
    First,
    Second,
    Third,
}

/// A change of one index: the entry at `to` gains a multiple of the entry at `from`.
#[derive(Drop)]
pub(crate) struct Gain {
    pub to: usize,
    pub from: usize,
    pub factor: Frac,
}

impl Gain {
    /// The new entry at an index, from the old one and the one at the index `from`; None where the product or the sum isn't
    /// obtained.
    #[tactic(auto, unfolding(crate::specs::Change::obtained_entry, airy_math::specs::Obtained::both_obtained))]
    pub fn entry(&self, index: usize, old: Frac, other: Frac) -> Option<Frac>
        ensures { result ≡ obtained_entry self.now index old other }
    {
        if index != self.to {
            return Some(old);
        }
        old.add(self.factor.mul(other)?)
    }
}
