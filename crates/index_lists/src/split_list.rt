// All splits of what is left of a key, listed once a pivot. Where the shape has one excess for the part of each product, an entry of
// C and a genus meet the splits of that excess in their order, and no other.
ghost use Rattle.std.specs.Prelude.{◌≡◌, ◌≤◌, ◌<◌, ◌+◌, ◌*◌, ◌^◌, ◌++◌, [], ℕ, Some, IfSome, true, length};
ghost use Rattle.std.specs.Int.RustNames.{unsigned_abs};
ghost use Rattle.airy_math.specs.Shapes.{per_n as shape_per_n};
ghost use Rattle.airy_math.specs.Splits.{splits};
ghost use Rattle.sparse_tensor.specs.Grades.{IsSmallLaw};
ghost use Rattle.index_lists.specs.Rests.{IsRest};
ghost use Rattle.airy_index.specs.Choices.{whole_length};
ghost use Rattle.index_lists.specs.SplitLists.{chain, listed_of, chosen_of, part_without, all_without};
ghost use Rattle.index_lists.specs.SplitLists.{last_of, all_listed, first_with, ListsRun, ListsRuns, MeetsAt};

use crate::chosen::Chosen;
use crate::measure::{Measure, above_zero, per_n};
use crate::rest::Rest;
use airy_index::Shape;
use item_chains::Chains;
use key_index::KeyIndex;
use sparse_tensor::Tensors;

/// What is listed of a split: the measure of its part, and the number of ways. A list stands on the stack, so its numbers are short.
#[derive(Clone, Copy, Default)]
pub struct Listed {
    code: u64,
    ways: u32,
    excess: i16,
    places: u8,
}

impl Listed {
    /// What is listed of a part that was chosen.
    #[tactic(auto, unfolding(crate::specs::SplitLists::listed_of))]
    #[inline]
    fn of(chosen: &Chosen) -> Listed
        requires excess { unsigned_abs chosen.now.part.excess < 2 ^ 14 }
        requires ways { chosen.now.ways ≤ 2 ^ 25 }
        ensures { result ≡ listed_of chosen.now }
    {
        Listed {
            code: chosen.part.code,
            ways: chosen.ways as u32,
            excess: chosen.part.excess as i16,
            places: chosen.part.places,
        }
    }

    /// What is listed of the part without another one, whose ways come on top, where all fits.
    #[tactic(auto, unfolding(crate::specs::SplitLists::part_without))]
    #[inline]
    fn without(&self, fewer: &Listed) -> Option<Listed>
        ensures { IfSome result (λ l. l ≡ part_without fewer.now self.now) }
    {
        Some(Listed {
            code: self.code.checked_sub(fewer.code)?,
            ways: self.ways.checked_mul(fewer.ways)?,
            excess: self.excess.checked_sub(fewer.excess)?,
            places: self.places.checked_sub(fewer.places)?,
        })
    }

    /// The part, of which nothing is left to choose.
    #[tactic(auto, unfolding(crate::specs::SplitLists::chosen_of))]
    #[inline]
    pub fn chosen(&self) -> Chosen
        ensures { result ≡ chosen_of self.now }
    {
        Chosen {
            part: Measure {
                excess: i64::from(self.excess),
                code: self.code,
                places: self.places,
            },
            ways: u64::from(self.ways),
            gain: 0,
            loss: 0,
        }
    }
}

/// What is left of a key, with its splits where they are listed.
#[derive(Drop)]
pub struct SplitList<const N: usize> {
    pub rest: Rest,
    /// The splits in their order, each with the chain of its part's excess.
    pub splits: Chains<Listed, N>,
    /// Whether all splits are listed.
    pub whole: bool,
}

/// The chain of the parts with this excess.
#[tactic(auto, unfolding(crate::specs::SplitLists::chain))]
#[inline]
pub fn chain_of(excess: i64) -> u8
    requires { unsigned_abs excess ≤ 2 ^ 29 }
    ensures chain { result ≡ chain excess }
    ensures below { result < 64 }
{
    (above_zero(excess + (1 << 29)) % 64) as u8
}

/// Puts the last so many splits once more before all, each without a part that all of them have and with as many times the ways, and
/// answers true; false where there is no room, or where a number doesn't fit, which never comes.
fn list_without<const N: usize>(
    fewer: &Listed,
    count: usize,
    listed: &mut Chains<Listed, N>,
) -> bool
    requires room { N < 2 ^ 16 }
    requires count { count ≤ length listed.old }
    ensures { result ≡ true → listed.new ≡ all_without fewer.now (last_of count listed.old) ++ listed.old }
{
    let mut done = 0;
    while done < count {
        done += 1;
        let Some(split) = listed.at(done).0.without(fewer) else {
            return false;
        };
        if !listed.put_first(chain_of(i64::from(split.excess)), split) {
            return false;
        }
    }
    true
}

/// Puts, before the splits whose part takes all copies of a run's index, those with one copy less, with two less, and so on.
fn list_run<const N: usize>(
    index: &KeyIndex,
    per_n: i64,
    run: (u8, u8),
    listed: &mut Chains<Listed, N>,
) -> bool
    requires law { unsigned_abs per_n ≤ 99 }
    requires room { N < 2 ^ 16 }
    requires few { run.1 ≤ 25 }
    ensures { result ≡ true → ListsRun per_n run listed.old listed.new }
{
    let item = Measure::of(index, per_n, run.0);
    let count = listed.len();
    let mut fewer = Chosen::nothing();
    let mut left_out = 0;
    while left_out < run.1 {
        fewer = fewer.one_more(&item, run.1, left_out);
        left_out += 1;
        if !list_without(&Listed::of(&fewer), count, listed) {
            return false;
        }
    }
    true
}

/// Puts, before the split whose part takes all, those in which it takes fewer: run by run, from the last to the first.
fn list_runs<const N: usize>(
    index: &KeyIndex,
    per_n: i64,
    runs: &[(u8, u8)],
    listed: &mut Chains<Listed, N>,
) -> bool
    requires law { unsigned_abs per_n ≤ 99 }
    requires room { N < 2 ^ 16 }
    requires few { whole_length runs.now ≤ 25 }
    ensures { result ≡ true → ListsRuns per_n runs.now listed.old listed.new }
{
    let mut left = runs.len();
    while left > 0 {
        left -= 1;
        if !list_run(index, per_n, runs[left], listed) {
            return false;
        }
    }
    true
}

impl<const N: usize> SplitList<N> {
    /// How many splits there are from the first one that is met on: of the chain, or where there is none, of all.
    #[tactic(auto, unfolding(crate::specs::SplitLists::first_with))]
    #[inline]
    pub fn first_met(&self, chain: Option<u8>) -> usize
        requires { (n : ℕ) → chain ≡ Some n → n < 64 }
        ensures { result ≡ first_with chain self.now.splits }
    {
        match chain {
            Some(chain) => self.splits.first(chain) as usize,
            None => self.splits.len(),
        }
    }

    /// The split from which on there are so many, and how many there are from the next one that is met on.
    #[tactic(auto, unfolding(crate::specs::SplitLists::first_with, crate::specs::SplitLists::is_passed))]
    #[inline]
    pub fn met_at(&self, chain: Option<u8>, left: usize) -> (Listed, usize)
        requires some { 0 < left }
        requires within { left ≤ length self.now.splits }
        ensures { MeetsAt chain self.now.splits left result }
    {
        let (split, next) = self.splits.at(left);
        match chain {
            Some(_) => (split, next as usize),
            None => (split, left - 1),
        }
    }

    /// Lists the splits. Without room none is listed.
    pub fn list_all(&mut self, index: &KeyIndex, shape: Shape)
        requires law { IsSmallLaw shape }
        requires rest { IsRest (shape_per_n shape) self.old.rest }
        requires few { length self.old.rest.list.items ≤ 25 }
        requires none { self.old.splits ≡ [] }
        ensures rest { self.new.rest ≡ self.old.rest }
        ensures listed { self.new.whole ≡ true → self.new.splits ≡ all_listed (shape_per_n shape) (splits self.new.rest.list.items) }
    {
        self.whole = false;
        // no room is larger
        if N == 0 || N > 2048 {
            return;
        }
        let per_n = per_n(shape);
        let all = Chosen {
            part: self.rest.whole,
            ..Chosen::nothing()
        };
        self.whole = self
            .splits
            .put_first(chain_of(all.part.excess), Listed::of(&all))
            && list_runs(index, per_n, self.rest.runs.as_slice(), &mut self.splits);
    }
}

/// How many splits are to be listed. None where there is no entry of C, or where the shape has a bound for the excess: there a walk
/// passes over most of them.
pub fn splits_to_list(tensors: &Tensors, pivot: u8, rest: &Rest) -> u32 {
    if let Shape::AtMost(_) = tensors.shape() {
        return 0;
    }
    if tensors.row_c(pivot).is_empty() {
        return 0;
    }
    let mut count = 1u32;
    for run in rest.runs.as_slice() {
        count = count.saturating_mul(u32::from(run.1) + 1);
    }
    count
}
