ghost use Rattle.std.specs.Prelude.{◌≡◌, ◌+◌, ◌<◌, ◌≤◌, false, None, get_or, length};
ghost use Rattle.airy_math.specs.Keys.{times};
ghost use Rattle.airy_math.specs.Planned.{IsPlanned};
ghost use Rattle.airy_math.specs.Terms.{obtained_pivot_sum};
ghost use Rattle.amp_plan.specs.Plans.{tensors_of, keys_of, key_at};
ghost use Rattle.series_law.specs.Scans.{judged, failing_pivot};
ghost use Rattle.constraint_check.specs.Pivots.{ShowsValues, numbers_shown, looks, FailsFirst};

use airy_index::Key;
use amp_plan::Plan;
use amp_terms::{Seen, names_ranks, pivot_value};
use frac128::Frac;

/// Which indices of a key are looked at.
#[derive(Clone, Copy)]
pub enum Pivots {
    /// Each.
    All,
    /// Each above the least.
    Others,
}

/// A key with a pivot that fails, its first that does.
#[derive(Drop)]
pub struct Failure {
    pub rank: u32,
    pub key: Key,
    /// The value of the key.
    pub value: Frac,
    /// The index.
    pub pivot: u8,
    /// The key's pivot sum with it, another number than the value; none where a step leaves the range.
    pub sum: Option<Frac>,
}

/// The value that is shown of a rank.
fn shown_value<S: Seen>(plan: &Plan, seen: &mut S, rank: u32) -> Frac
    requires shows { ShowsValues plan.now (S.has seen.old) (S.shown seen.old) }
    requires rank { rank < length (keys_of plan.now) }
    ensures value { result ≡ numbers_shown plan.now (S.shown seen.old) (key_at plan.now rank) }
    ensures shows { ShowsValues plan.now (S.has seen.new) (S.shown seen.new) }
    ensures same { S.shown seen.new ≡ S.shown seen.old }
{
    airy_math::planned_once();
    seen.at(rank).value().unwrap()
}

/// The pivot sum of a key at one of its indices over the values that are shown, where it stays in range.
fn pivot_sum<S: Seen>(plan: &Plan, seen: &mut S, key: &Key, pivot: u8) -> Option<Frac>
    requires shows { ShowsValues plan.now (S.has seen.old) (S.shown seen.old) }
    requires planned { IsPlanned (tensors_of plan.now) plan.now.bound key.now }
    requires pivot { 0 < times pivot key.now.idx }
    ensures sum { result ≡ obtained_pivot_sum (tensors_of plan.now) (numbers_shown plan.now (S.shown seen.old)) key.now pivot }
    ensures shows { ShowsValues plan.now (S.has seen.new) (S.shown seen.new) }
    ensures same { S.shown seen.new ≡ S.shown seen.old }
{
    names_ranks(plan, key, pivot);
    pivot_value(plan, key, pivot, seen).value()
}

/// The pivot and the pivot sum of a key at it, where this isn't the key's value.
fn check_pivot<S: Seen>(
    plan: &Plan,
    seen: &mut S,
    key: &Key,
    value: Frac,
    pivot: u8,
) -> Option<(u8, Option<Frac>)>
    requires shows { ShowsValues plan.now (S.has seen.old) (S.shown seen.old) }
    requires planned { IsPlanned (tensors_of plan.now) plan.now.bound key.now }
    requires pivot { 0 < times pivot key.now.idx }
    ensures fails { let sum = obtained_pivot_sum (tensors_of plan.now) (numbers_shown plan.now (S.shown seen.old)) key.now pivot in
        result ≡ judged value pivot sum None }
    ensures shows { ShowsValues plan.now (S.has seen.new) (S.shown seen.new) }
    ensures same { S.shown seen.new ≡ S.shown seen.old }
{
    match pivot_sum(plan, seen, key, pivot) {
        None => Some((pivot, None)),
        Some(sum) if sum == value => None,
        Some(sum) => Some((pivot, Some(sum))),
    }
}

/// Whether an index of a key is one that is looked at.
#[tactic(auto, unfolding(series_law::specs::Scans::every, series_law::specs::Scans::above_least), using(amp_plan::proofs::NeedLemmas::head_read))]
fn is_pivot(key: &Key, index: u8, pivots: Pivots) -> bool
    ensures { result ≡ looks pivots key.now index }
{
    match pivots {
        Pivots::All => true,
        Pivots::Others => {
            key.validity_fact();
            key.idx()[0] < index
        }
    }
}

/// Whether the index at a place differs from the next one, or is the last of all.
fn is_last(indices: &[u8], at: usize) -> bool
    requires { at < length indices.now }
    ensures { result ≡ false → (at + 1 < length indices.now) × (get_or indices.now (at + 1) 0 ≡ get_or indices.now at 0) }
{
    at + 1 == indices.len() || indices[at + 1] != indices[at]
}

/// The first of the pivots of a key that fails, in ascending order.
fn check_key<S: Seen>(
    plan: &Plan,
    seen: &mut S,
    key: &Key,
    value: Frac,
    pivots: Pivots,
) -> Option<(u8, Option<Frac>)>
    requires shows { ShowsValues plan.now (S.has seen.old) (S.shown seen.old) }
    requires planned { IsPlanned (tensors_of plan.now) plan.now.bound key.now }
    requires value { value ≡ numbers_shown plan.now (S.shown seen.old) key.now }
    ensures fails { result ≡
        failing_pivot (tensors_of plan.now) (numbers_shown plan.now (S.shown seen.old)) (looks pivots) key.now key.now.idx }
    ensures shows { ShowsValues plan.now (S.has seen.new) (S.shown seen.new) }
    ensures same { S.shown seen.new ≡ S.shown seen.old }
{
    let indices = key.idx();
    for at in 0..indices.len() {
        if is_pivot(key, indices[at], pivots) && is_last(indices, at) {
            if let Some(failing) = check_pivot(plan, seen, key, value, indices[at]) {
                return Some(failing);
            }
        }
    }
    None
}

/// The first of the ranks from one to another whose key has a pivot that fails, where each rank of the plan is shown with a Value: its
/// pivot sum leaves the range, or is another number than the key's value.
pub fn first_failing<S: Seen>(
    plan: &Plan,
    seen: &mut S,
    from: u32,
    to: u32,
    pivots: Pivots,
) -> Option<Failure>
    requires shows { ShowsValues plan.now (S.has seen.old) (S.shown seen.old) }
    requires from { from ≤ to }
    requires to { to ≤ length (keys_of plan.now) }
    ensures { FailsFirst plan.now (numbers_shown plan.now (S.shown seen.old)) (looks pivots) from to result }
{
    airy_math::planned_once();
    for rank in from..to {
        let key = plan.key(rank);
        let value = shown_value(plan, seen, rank);
        if let Some((pivot, sum)) = check_key(plan, seen, &key, value, pivots) {
            return Some(Failure {
                rank,
                key,
                value,
                pivot,
                sum,
            });
        }
    }
    None
}
