ghost use Rattle.std.specs.Prelude.{◌≡◌, ◌<◌, ◌≤◌, ℕ, length, IfOk, IfErr};
ghost use Rattle.airy_math.specs.Planned.{planned};
ghost use Rattle.sparse_tensor.specs.Entries.{looked_up};
ghost use Rattle.amp_plan.specs.Plans.{Planning, tensors_of, keys_of, key_at};
ghost use Rattle.amp_plan.specs.Needs.{KeepsRanks, needs_at};
ghost use Rattle.amp_plan.specs.Marks.{AreNamed};
ghost use Rattle.amp_plan.specs.Places.{place_in, letter_power};
ghost use Rattle.amp_plan.specs.Limits.{Tells};
ghost use Rattle.amp_plan.specs.Kept.{IsRanking};

use crate::cause::{PlanCause, PlanErr};
use crate::place::Place;
use crate::search::{are_below, place_among};
use airy_index::{Covers, Key};
use index_lists::{Stop, add_level, letter_at};
use key_index::KeyIndex;
use sparse_tensor::Tensors;
use std::alloc::{AllocError, Global};
use std::marker::Model;

/// The planned keys of tensors up to a bound, with their ranks.
#[derive(Drop)]
pub(crate) struct Ranking {
    tensors: Tensors,
    bound: u8,
    index: KeyIndex,
}

impl Model for Ranking {
    ghost use Rattle.amp_plan.specs.Plans.{Planning, planning_code};
    ghost use Rattle.amp_plan.specs.Kept.{IsRanking};

    ghost Value = { Planning };

    ghost coded = { planning_code };

    ghost view = { λ r. record { tensors = r.tensors; bound = r.bound } };

    ghost invariant = { λ r. IsRanking (record { tensors = r.tensors; bound = r.bound }) r.index.keys };
}

impl Ranking {
    /// The ranking of the tensors up to a bound from 1 to 24.
    pub(crate) fn make(alloc: Global, t: Tensors, bound: u8) -> Result<Ranking, PlanErr>
        requires some { 0 < bound }
        requires most { bound ≤ 24 }
        ensures ranking { IfOk result (λ r. r ≡ record { tensors = t; bound = bound }) }
        ensures cause { IfErr result (λ e. Tells (record { tensors = t; bound = bound }) e.cause) }
        ensures back { IfErr result (λ e. e.tensors ≡ t) }
    {
        match planned_index(alloc, &t, &[], 0, bound) {
            Ok(index) => Ok(Ranking {
                tensors: t,
                bound,
                index,
            }),
            Err(cause) => Err(PlanErr { cause, tensors: t }),
        }
    }

    /// The index of the planned keys up to a greater bound. Those up to its own are not listed again.
    pub(crate) fn index_up_to(&self, alloc: Global, bound: u8) -> Result<KeyIndex, PlanCause>
        requires above { self.now.bound < bound }
        requires most { bound ≤ 24 }
        ensures ranking { IfOk result (λ index. IsRanking (record { tensors = self.now.tensors; bound = bound }) index.keys) }
        ensures cause { IfErr result (λ cause. Tells (record { tensors = self.now.tensors; bound = bound }) cause) }
    {
        planned_index(alloc, &self.tensors, self.index.keys(), self.bound, bound)
    }

    /// The ranking with a bound and the index of its keys in place of its own, which come back.
    pub(crate) fn with_index(self, bound: u8, index: KeyIndex) -> (Ranking, u8, KeyIndex)
        requires { IsRanking (record { tensors = self.tensors; bound = bound }) index.keys }
        ensures ranking { result.0 ≡ record { tensors = self.tensors; bound = bound } }
        ensures bound { result.1 ≡ self.bound }
        ensures keys { IsRanking self result.2.keys }
    {
        let ranking = Ranking {
            tensors: self.tensors,
            bound,
            index,
        };
        (ranking, self.bound, self.index)
    }

    /// Where the key stands.
    pub(crate) fn rank_of(&self, key: &Key) -> Place
        ensures { result ≡ place_in self.now key.now }
    {
        if key.euler() > u16::from(self.bound) {
            return Place::Beyond;
        }
        if !self.tensors.shape().covers(key) {
            return Place::Zero;
        }
        if !are_below(self.tensors.dim(), key.idx()) {
            return Place::BadIndex;
        }
        key.validity_fact();
        airy_math::planned_once();
        airy_math::plan_ascends();
        Place::At(place_among(self.index.keys(), key))
    }

    /// The keys, in order.
    pub(crate) fn keys(&self) -> &[Key]
        ensures { result.now ≡ keys_of self.now }
    {
        self.index.keys()
    }

    /// The index of the keys.
    pub(crate) fn index(&self) -> &KeyIndex
        ensures { result.now.keys ≡ keys_of self.now }
    {
        &self.index
    }

    /// The key of a rank.
    pub(crate) fn key(&self, rank: u32) -> Key
        requires { rank < length (keys_of self.now) }
        ensures { result ≡ key_at self.now rank }
    {
        self.index.keys()[rank as usize].copy()
    }

    /// The number of planned keys.
    pub(crate) fn len(&self) -> u32
        ensures { result ≡ length (keys_of self.now) }
    {
        self.index.keys().len() as u32
    }

    /// The bound on the Euler number.
    pub(crate) fn bound(&self) -> u8
        ensures { result ≡ self.now.bound }
    {
        self.bound
    }

    /// The tensors.
    pub(crate) fn tensors(&self) -> &Tensors
        ensures { result.now ≡ self.now.tensors }
    {
        &self.tensors
    }

    /// The tensors, given back.
    pub(crate) fn into_tensors(self) -> Tensors
        ensures { result ≡ self.tensors }
    {
        self.tensors
    }

    /// The power of the letter at a key, 0 where the tensors carry none.
    pub(crate) fn letter(&self, key: &Key) -> u16
        ensures { result ≡ letter_power self.now key.now }
    {
        if !self.tensors.letter() {
            return 0;
        }
        letter_at(&self.tensors, key)
    }

    /// The ranks of a ranking are the first ones of that with a greater bound, with their keys and needs: the fact, for
    /// proofs of callers.
    pub(crate) fn grown_fact(&self, bound: u8)
        requires { self.now.bound ≤ bound }
        ensures kept { KeepsRanks self.now (record { tensors = self.now.tensors; bound = bound }) }
        ensures named { (r : ℕ) → r < length (keys_of self.now) → AreNamed (tensors_of self.now) bound r (needs_at self.now r) }
    {
        let _bound = bound;
        airy_math::planned_once();
        airy_math::plan_ascends();
        airy_math::needs_first();
        airy_math::ranks();
    }

    /// A ranking is within the limits on the bound and the keys: the fact, for proofs of callers.
    pub(crate) fn is_small(&self)
        ensures some { 0 < self.now.bound }
        ensures most { self.now.bound ≤ 24 }
        ensures few { length (keys_of self.now) ≤ 200000 }
    {
        let _bound = self.bound;
    }
}

/// The index of the planned keys up to a bound from 1 to 24, where those up to a lower one are known.
fn planned_index(
    alloc: Global,
    tensors: &Tensors,
    known: &[Key],
    low: u8,
    bound: u8,
) -> Result<KeyIndex, PlanCause>
    requires above { low < bound }
    requires most { bound ≤ 24 }
    requires known { known.now ≡ planned (looked_up tensors.now) low }
    requires few { length known.now ≤ 200000 }
    ensures ranking { IfOk result (λ index. IsRanking (record { tensors = tensors.now; bound = bound }) index.keys) }
    ensures cause { IfErr result (λ cause. Tells (record { tensors = tensors.now; bound = bound }) cause) }
{
    let keys = planned_keys(alloc, tensors, known, low, bound)?;
    match KeyIndex::of(alloc, keys) {
        Ok(index) => Ok(index),
        Err(_) => Err(PlanCause::NoMemory),
    }
}

/// The same keys again.
fn copied(alloc: Global, keys: &[Key]) -> Result<Vec<Key>, AllocError>
    ensures { IfOk result (λ copies. copies.items ≡ keys.now) }
{
    let mut copies = Vec::with_capacity(alloc, keys.len())?;
    for key in keys {
        copies.push(key.copy())?;
    }
    Ok(copies)
}

/// The planned keys up to a bound from 1 to 24, where those up to a lower one are known.
fn planned_keys(
    alloc: Global,
    tensors: &Tensors,
    known: &[Key],
    low: u8,
    bound: u8,
) -> Result<Vec<Key>, PlanCause>
    requires above { low < bound }
    requires most { bound ≤ 24 }
    requires known { known.now ≡ planned (looked_up tensors.now) low }
    requires few { length known.now ≤ 200000 }
    ensures ranking { IfOk result (λ keys. IsRanking (record { tensors = tensors.now; bound = bound }) keys.items) }
    ensures cause { IfErr result (λ cause. Tells (record { tensors = tensors.now; bound = bound }) cause) }
{
    let Ok(mut keys) = copied(alloc, known) else {
        return Err(PlanCause::NoMemory);
    };
    for level in low + 1..bound + 1 {
        match add_level(&mut keys, tensors, level) {
            Ok(()) => {}
            Err(Stop::Full) => return Err(PlanCause::Cells { level }),
            Err(Stop::NoMemory) => return Err(PlanCause::NoMemory),
        }
    }
    Ok(keys)
}
