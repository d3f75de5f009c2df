ghost use Rattle.std.specs.Prelude.{◌≡◌, ◌≤◌, ◌<◌};
ghost use Rattle.std.specs.Option.{IfSome, is_some};
ghost use Rattle.bulk_tensors.specs.Full.{entry};
ghost use Rattle.bulk_tensors.specs.Change.{IsChanged, parts_obtained};

use crate::full::Full;
use crate::slots::Gain;
use std::alloc::{AllocError, Global};

/// Room for the A, B and C that a change makes, and for a tensor with some of its slots changed. It is taken once, so that a change
/// takes no memory.
#[derive(Drop)]
pub(crate) struct Room {
    pub a: Full,
    pub b: Full,
    pub c: Full,
    between: Full,
}

impl Room {
    /// Room for all.
    pub fn new(alloc: Global) -> Result<Room, AllocError> {
        Ok(Room {
            a: Full::zero(alloc)?,
            b: Full::zero(alloc)?,
            c: Full::zero(alloc)?,
            between: Full::zero(alloc)?,
        })
    }

    /// Makes A, B and C with all slots changed, None where a product or a sum isn't obtained.
    #[tactic(auto, unfolding(crate::specs::Change::parts_obtained))]
    pub fn change(
        &mut self,
        dim: usize,
        a: &Full,
        b: &Full,
        c: &Full,
        amplitude: &Gain,
        contracted: &Gain,
    ) -> Option<()>
        requires most { dim ≤ 8 }
        requires amplitude { amplitude.now.from < dim }
        requires contracted { contracted.now.from < dim }
        ensures obtained { is_some result ≡ parts_obtained dim amplitude.now contracted.now (entry a.now) (entry b.now) (entry c.now) }
        ensures a { IfSome result (λ _. IsChanged dim amplitude.now amplitude.now amplitude.now a.now self.new.a) }
        ensures b { IfSome result (λ _. IsChanged dim amplitude.now amplitude.now contracted.now b.now self.new.b) }
        ensures c { IfSome result (λ _. IsChanged dim amplitude.now contracted.now contracted.now c.now self.new.c) }
    {
        let between = &mut self.between;
        a.change(dim, amplitude, amplitude, amplitude, between, &mut self.a)?;
        b.change(dim, amplitude, amplitude, contracted, between, &mut self.b)?;
        c.change(dim, amplitude, contracted, contracted, between, &mut self.c)
    }
}
