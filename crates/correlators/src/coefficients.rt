ghost use Rattle.std.specs.Prelude.{◌≡◌, ◌<◌, None, length, IfOk, IfErr};
ghost use Rattle.amp_plan.specs.Plans.{keys_of, key_at};
ghost use Rattle.correlators.specs.Volumes.{is_of, keys_of_pair, value_of, coefficient_of, first_lacking};
ghost use Rattle.correlators.specs.Kept.{own_number, AreCoefficients, TellsOver};

use crate::CorrErr;
use crate::divisions::over_each;
use airy_index::Key;
use amp_plan::Plan;
use amp_terms::Table;
use frac128::Frac;
use std::alloc::Global;

/// Whether the key is one of (g,n).
#[tactic(auto, unfolding(crate::specs::Volumes::is_of))]
fn is_of_pair(key: &Key, g: u8, n: u8) -> bool
    ensures { result ≡ is_of g n key.now }
{
    key.g() == g && key.places() == n
}

/// The Value of a key of (g,n), or 0 of another key, by rank.
#[tactic(auto, using(crate::proofs::PairLemmas::value_here), unfolding(crate::specs::Kept::own_number))]
fn own_value(plan: &Plan, table: &Table, g: u8, n: u8, rank: u32) -> Option<Frac>
    requires len { length table.now ≡ length (keys_of plan.now) }
    requires within { rank < length (keys_of plan.now) }
    ensures { result ≡ own_number g n (value_of plan.now table.now) (key_at plan.now rank) }
{
    plan.planned_fact();
    if !is_of_pair(&plan.key(rank), g, n) {
        return Some(Frac::whole(0));
    }
    table.value(rank)
}

/// The Value of a key of (g,n) over the (2d + 1)! of its indices, or 0 of another key, by rank.
#[tactic(auto, using(crate::proofs::PairLemmas::coefficient_here), unfolding(crate::specs::Kept::own_number, crate::specs::Divisions::over_factorials))]
fn own_coefficient(plan: &Plan, table: &Table, g: u8, n: u8, rank: u32) -> Option<Frac>
    requires len { length table.now ≡ length (keys_of plan.now) }
    requires within { rank < length (keys_of plan.now) }
    ensures { result ≡ own_number g n (coefficient_of plan.now table.now) (key_at plan.now rank) }
{
    plan.planned_fact();
    let key = plan.key(rank);
    if !is_of_pair(&key, g, n) {
        return Some(Frac::whole(0));
    }
    over_each(table.value(rank)?, key.idx(), 1)
}

/// The first key of (g,n), in plan order, without a Value.
#[tactic(auto, using(crate::proofs::PairLemmas::lacking_start, crate::proofs::PairLemmas::lacking_here, crate::proofs::PairLemmas::lacking_next, crate::proofs::PairLemmas::lacking_end))]
pub(crate) fn first_without(plan: &Plan, table: &Table, g: u8, n: u8) -> Option<Key>
    requires { length table.now ≡ length (keys_of plan.now) }
    ensures { result ≡ first_lacking (value_of plan.now table.now) (keys_of_pair plan.now g n) }
{
    for rank in 0..plan.len() {
        let Some(_) = own_value(plan, table, g, n, rank) else {
            return Some(plan.key(rank));
        };
    }
    None
}

/// The coefficient of each key of (g,n) at its rank, and 0 at the ranks of other keys. So each key is divided once.
pub(crate) fn coefficients(
    alloc: Global,
    plan: &Plan,
    table: &Table,
    g: u8,
    n: u8,
) -> Result<Vec<Frac>, CorrErr>
    requires { length table.now ≡ length (keys_of plan.now) }
    ensures found { IfOk result (λ v. AreCoefficients plan.now table.now g n (length (keys_of plan.now)) v.items) }
    ensures all { IfOk result (λ v. first_lacking (coefficient_of plan.now table.now) (keys_of_pair plan.now g n) ≡ None) }
    ensures over { IfErr result (TellsOver plan.now table.now g n) }
{
    let mut numbers = Vec::new(alloc);
    for rank in 0..plan.len() {
        let Some(number) = own_coefficient(plan, table, g, n, rank) else {
            return Err(CorrErr::Over {
                key: plan.key(rank),
            });
        };
        let Ok(()) = numbers.push(number) else {
            return Err(CorrErr::NoMemory);
        };
    }
    Ok(numbers)
}
