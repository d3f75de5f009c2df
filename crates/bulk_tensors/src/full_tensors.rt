ghost use Rattle.std.specs.Prelude.{◌≡◌, ◌≤◌, ◌<◌, ◌+◌, ℕ, cond, Ok, Err, OnOk, OnErr, get_or, length, None, IfOk};
ghost use Rattle.std.specs.Option.{IfSome, is_some};
ghost use Rattle.airy_math.specs.Tensors.{SameEntries};
ghost use Rattle.airy_math.specs.RationalLaws.{0ℚ};
ghost use Rattle.bulk_tensors.specs.Full.{listed, zero_lists, with_diagonal};
ghost use Rattle.bulk_tensors.specs.Change.{changed, is_obtained, gains, gains_obtained, gained, obtained_gained};
ghost use Rattle.bulk_tensors.specs.declared.full_tensors.BulkErr.TheVariants as bulk_err;

use crate::full::Full;
use crate::room::Room;
use crate::slots::Gain;
use frac128::Frac;
use std::alloc::{AllocError, Global};
use std::marker::Model;
use std::mem;

/// Why tensors aren't made.
#[derive(Clone, Copy, Debug, PartialEq, Eq)]
pub enum BulkErr {
    /// A product or a sum of the change of basis with this number leaves the range.
    Over { step: u8 },
    /// Want of memory.
    NoMemory,
}

impl From<AllocError> for BulkErr {
    ghost from_gives = { λ _ e. e ≡ bulk_err.NoMemory };

    fn from(_wanting: AllocError) -> BulkErr {
        BulkErr::NoMemory
    }
}

/// The tensors A, B, C and D with at most 8 indices, all entries of them.
#[derive(Drop)]
pub struct FullTensors {
    pub(crate) dim: u8,
    pub(crate) a: Full,
    pub(crate) b: Full,
    pub(crate) c: Full,
    pub(crate) d: [Frac; 8],
    room: Room,
}

impl Model for FullTensors {
    ghost use Rattle.std.specs.Prelude.{◌≡◌, ◌≤◌, ◌<◌, length};
    ghost use Rattle.bulk_tensors.specs.Full.{Lists, lists_code};

    ghost Value = { Lists };

    ghost coded = { lists_code };

    ghost view = { λ t. record { dim = t.dim; a = t.a; b = t.b; c = t.c; d = t.d } };

    ghost invariant = { λ t. (0 < t.dim) × (t.dim ≤ 8) × (length t.d ≡ 8) };
}

impl FullTensors {
    /// Tensors whose entries are all 0, with the room that changes need. Dim is from 1 to 8.
    pub fn zero(alloc: Global, dim: u8) -> Result<FullTensors, AllocError>
        requires some { 0 < dim }
        requires most { dim ≤ 8 }
        ensures { IfOk result (λ t. t ≡ zero_lists dim) }
    {
        Ok(FullTensors {
            dim,
            a: Full::zero(alloc)?,
            b: Full::zero(alloc)?,
            c: Full::zero(alloc)?,
            d: [Frac::whole(0); 8],
            room: Room::new(alloc)?,
        })
    }

    /// Sets `A^i_{ii}`, `B^i_{ii}`, `C^i_{ii}` and `D^i`.
    pub fn set_diagonal(&mut self, i: u8, a: Frac, b: Frac, c: Frac, d: Frac)
        requires { i < self.old.dim }
        ensures entries { self.new ≡ with_diagonal self.old i a b c d }
        ensures dim { self.new.dim ≡ self.old.dim }
    {
        let i = usize::from(i);
        self.a.set(i, i, i, a);
        self.b.set(i, i, i, b);
        self.c.set(i, i, i, c);
        self.d[i] = d;
    }

    /// The change of basis (r, r + 1, t), which is numbered r + 1: new amplitudes `F'[..s..] = F[..s..] + t F[..r..]` in each
    /// place, where s is r + 1. The slots change from left to right: of all three of A, the first two of B, the first of C and
    /// the one of D the new entry at s is the old one at s plus t times the old one at r; of the last of B and the last two of C
    /// the new entry at r is the old one at r minus t times the old one at s.
    ///
    /// It is refused with `Over` exactly where such a product, or the sum of it and the old entry, leaves the range, and then
    /// nothing is changed.
    #[tactic(auto, unfolding(crate::specs::Change::changed, crate::specs::Change::is_obtained, crate::specs::Change::amplitude, crate::specs::Change::contracted, crate::specs::Change::gains, crate::specs::Full::listed))]
    pub fn change(&mut self, r: u8, t: Frac) -> Result<(), BulkErr>
        requires { r + 1 < self.old.dim }
        ensures changed { OnOk result (SameEntries (listed self.new) (changed r (r + 1) t (listed self.old))) }
        ensures over { result ≡ cond (is_obtained r (r + 1) t (listed self.old)) (Ok tt) (Err (bulk_err.Over (r + 1))) }
        ensures dim { self.new.dim ≡ self.old.dim }
        ensures same { OnErr result (self.new ≡ self.old) }
    {
        let _dim = self.dim;
        let (from, to) = (usize::from(r), usize::from(r) + 1);
        let amplitude = Gain {
            to,
            from,
            factor: t,
        };
        let contracted = Gain {
            to: from,
            from: to,
            factor: t.neg(),
        };
        match self.change_slots(&amplitude, &contracted) {
            Some(()) => Ok(()),
            None => Err(BulkErr::Over { step: r + 1 }),
        }
    }

    /// Changes all slots, or none where a product or a sum isn't obtained.
    #[tactic(auto, unfolding(crate::specs::Change::gains_obtained, crate::specs::Full::listed))]
    fn change_slots(&mut self, amplitude: &Gain, contracted: &Gain) -> Option<()>
        requires amplitude { amplitude.now.from < self.old.dim }
        requires contracted { contracted.now.from < self.old.dim }
        requires to { amplitude.now.to < self.old.dim }
        ensures obtained { is_some result ≡ gains_obtained amplitude.now contracted.now (listed self.old) }
        ensures changed { IfSome result (λ _. SameEntries (listed self.new) (gains amplitude.now contracted.now (listed self.old))) }
        ensures same { result ≡ None → self.new ≡ self.old }
    {
        let dim = usize::from(self.dim);
        self.room
            .change(dim, &self.a, &self.b, &self.c, amplitude, contracted)?;
        self.d = self.d_changed(amplitude)?;
        mem::swap(&mut self.a, &mut self.room.a);
        mem::swap(&mut self.b, &mut self.room.b);
        mem::swap(&mut self.c, &mut self.room.c);
        Some(())
    }

    /// The entries of D with the one at `to` changed, None where its product or its sum isn't obtained.
    fn d_changed(&self, gain: &Gain) -> Option<[Frac; 8]>
        requires from { gain.now.from < self.now.dim }
        requires to { gain.now.to < self.now.dim }
        ensures obtained { is_some result ≡ is_some (obtained_gained gain.now (λ i. get_or self.now.d i 0ℚ) gain.now.to) }
        ensures length { IfSome result (λ d. length d ≡ 8) }
        ensures changed { IfSome result (λ d. (i : ℕ) → get_or d i 0ℚ ≡ gained gain.now (λ i. get_or self.now.d i 0ℚ) i) }
    {
        let mut d = self.d;
        d[gain.to] = gain.entry(gain.to, d[gain.to], d[gain.from])?;
        Some(d)
    }
}
