ghost use Rattle.std.specs.Prelude.{◌≡◌, ◌≤◌, ◌+◌, ◌++◌, length};
ghost use Rattle.std.specs.Iterator.{YieldsFirstBy, item_count};
ghost use lib.ListN.{replicate};
ghost use Rattle.arrayvec.specs.ArrayVec.{array_vec_len};
ghost use Rattle.airy_math.specs.Keys.{IsSortedFrom};
ghost use Rattle.airy_math.specs.Splits.{splits};
ghost use Rattle.airy_math.specs.Sums.{binomial as ways_to_choose};
ghost use Rattle.airy_index.specs.Choices.{chosen_split, IsWalk};
ghost use Rattle.airy_index.specs.SplitLaw.{SplitsLaw};
ghost use Rattle.airy_index.specs.SplitValues.{split_value};

use crate::runs::{Run, advance, runs_of};
use arrayvec::ArrayVec;
use std::marker::Model;

/// A list of indices in two parts, both nondecreasing, with the number of ways in which the part can be chosen.
#[derive(Drop)]
pub struct Split {
    pub part: ArrayVec<u8, 26>,
    pub rest: ArrayVec<u8, 26>,
    pub weight: u64,
}

/// The splits of a list of indices: each sub-list once, by how many of each distinct index it takes, in the order of a
/// dictionary. Contracts see the splits that are left.
#[derive(Drop)]
pub struct Splits {
    runs: ArrayVec<Run, 25>,
    ended: bool,
}

impl Model for Splits {
    ghost use Rattle.std.specs.Prelude.{List};
    ghost use Rattle.airy_math.specs.Splits.{Split as SplitValue};
    ghost use Rattle.airy_index.specs.Choices.{splits_left, IsWalk as IsWalking};

    ghost Value = { List SplitValue };

    ghost view = { λ s. splits_left s.ended s.runs.items };

    ghost invariant = { λ s. IsWalking s.runs.items };
}

impl Splits {
    /// All splits of a nondecreasing list of at most 25 items. Where the distinct indices stand e1, e2, ... times, a split
    /// takes t1, t2, ... of them into the part and leaves the others in the rest. The splits come by (t1, t2, ...)
    /// ascending as in a dictionary, and the weight is the product of the binomials of e over t.
    pub fn of(idx: &[u8]) -> Splits
        requires sorted { IsSortedFrom 0 256 idx.now }
        requires short { length idx.now ≤ 25 }
        ensures { result ≡ splits idx.now }
    {
        Splits {
            runs: runs_of(idx),
            ended: false,
        }
    }
}

impl Iterator for Splits {
    type Item = Split;

    ghost next_gives = { YieldsFirstBy split_value (λ s. s) };

    ghost remaining = { item_count (λ s. s) };

    fn next(&mut self) -> Option<Split> {
        if self.ended {
            return None;
        }
        let split = chosen(self.runs.as_slice());
        self.ended = !advance(self.runs.as_mut_slice());
        Some(split)
    }
}

/// The split of which the part takes what is chosen.
fn chosen(runs: &[Run]) -> Split
    requires { IsWalk runs.now }
    ensures { split_value result ≡ chosen_split runs.now }
{
    let mut split = Split {
        part: ArrayVec::new(),
        rest: ArrayVec::new(),
        weight: 1,
    };
    for run in runs {
        push_times(&mut split.part, run.index, run.taken);
        push_times(&mut split.rest, run.index, run.count - run.taken);
        split.weight *= binomial(run.count, run.taken);
    }
    split
}

/// Puts an index at the end of a list, a number of times.
fn push_times(into: &mut ArrayVec<u8, 26>, index: u8, times: u8)
    requires { array_vec_len into.old + times ≤ 26 }
    ensures { into.new.items ≡ into.old.items ++ replicate times index }
{
    for _ in 0..times {
        into.push(index);
    }
}

/// In how many ways k of n items can be chosen, by the product of (n - i) / (i + 1) over all i below k.
fn binomial(n: u8, k: u8) -> u64
    requires all { k ≤ n }
    requires short { n ≤ 25 }
    ensures { result ≡ ways_to_choose n k }
{
    let mut ways: u64 = 1;
    for i in 0..k {
        ways = ways * u64::from(n - i) / (u64::from(i) + 1);
    }
    ways
}

/// A law: each split of a nondecreasing list has in its two parts together each index as often as the list, both in
/// order; each sub-list is the part of exactly one split; and the weights of all splits of n items add up to 2^n.
#[tactic(auto, using(crate::proofs::SplitLaw::splits_law))]
pub fn splits_law()
    ensures { SplitsLaw }
{}
