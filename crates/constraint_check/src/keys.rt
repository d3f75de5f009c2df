ghost use Rattle.std.specs.Prelude.{◌≡◌, ◌≤◌, length};
ghost use Rattle.amp_plan.specs.Plans.{tensors_of, keys_of};
ghost use Rattle.amp_terms.specs.Tables.{full_table};
ghost use Rattle.series_law.specs.Check.{check};
ghost use Rattle.constraint_check.specs.Pivots.{HoldsValues, HasPassed, Names};
ghost use Rattle.constraint_check.specs.Ends.{outcomes_of, verdict_from, Tells, NamesOver};
ghost use Rattle.constraint_check.specs.Checked.{IsChecked};

use crate::CheckEnd;
use crate::pivots::{Failure, Pivots, first_failing};
use amp_plan::Plan;
use amp_terms::{Table, TableOutcomes};

/// The check of every pivot of a table that holds the outcome of each rank of the plan. In the recursion of Kontsevich and
/// Soibelman, and of Andersen, Borot, Chekhov and Orantin, any index of a key can play the part of the pivot, and the amplitudes of a
/// solution are the pivot sums of all of them. The Value of a key is its pivot sum at the least index, so the others decide.
///
/// `NotValue` comes exactly where a rank has no Value, and names the first such key in plan order; its outcome is Over. Else the keys
/// are taken in plan order, and in each the distinct indices above the least, ascending: the first whose pivot sum leaves the range,
/// or is another number than the key's Value, gives `Over` or `Orders`. `Solution` comes exactly where there is none. The
/// table's series then solves the constraints of the plan's tensors up to the bound; at `Orders` no series does.
///
/// It takes no memory.
pub fn check_table(plan: &Plan, table: &Table) -> CheckEnd
    requires outcomes { table.now ≡ full_table (tensors_of plan.now) plan.now.bound }
    requires len { length table.now ≡ length (keys_of plan.now) }
    ensures { IsChecked plan.now table.now result }
{
    check_passed(plan, table, 0)
}

/// The same, where the keys below the rank `passed` are known to pass.
pub(crate) fn check_passed(plan: &Plan, table: &Table, passed: u32) -> CheckEnd
    requires outcomes { table.now ≡ full_table (tensors_of plan.now) plan.now.bound }
    requires len { length table.now ≡ length (keys_of plan.now) }
    requires passed { HasPassed plan.now table.now passed }
    ensures { IsChecked plan.now table.now result }
{
    plan.tensors().soundness_fact();
    series_law::check();
    first_failure(plan, table, passed)
}

/// The first rank without a Value; else the first pivot that fails.
fn first_failure(plan: &Plan, table: &Table, passed: u32) -> CheckEnd
    requires outcomes { table.now ≡ full_table (tensors_of plan.now) plan.now.bound }
    requires len { length table.now ≡ length (keys_of plan.now) }
    requires passed { HasPassed plan.now table.now passed }
    ensures verdict { Tells plan.now result (check (tensors_of plan.now) plan.now.bound (outcomes_of plan.now)) }
    ensures over { NamesOver plan.now table.now result }
{
    airy_math::planned_once();
    plan.needs_fact();
    if let Some(rank) = table.first_not_value() {
        return CheckEnd::NotValue {
            key: plan.key(rank),
        };
    }
    check_keys(plan, table, passed)
}

/// The first pivot that fails in a table of Values, of the keys from a rank on.
#[tactic(auto, unfolding(crate::specs::Ends::NamesOver))]
fn check_keys(plan: &Plan, table: &Table, from: u32) -> CheckEnd
    requires values { HoldsValues plan.now table.now }
    requires from { from ≤ length (keys_of plan.now) }
    ensures verdict { Tells plan.now result (verdict_from plan.now from) }
    ensures over { NamesOver plan.now table.now result }
{
    match first_failing(
        plan,
        &mut TableOutcomes { table },
        from,
        plan.len(),
        Pivots::Others,
    ) {
        None => CheckEnd::Solution,
        Some(failure) => failed(failure),
    }
}

/// What is said of a key that fails.
fn failed(failure: Failure) -> CheckEnd
    ensures { Names result failure }
{
    let Failure {
        rank: _,
        key,
        value,
        pivot,
        sum,
    } = failure;
    match sum {
        None => CheckEnd::Over { key, pivot },
        Some(sum) => {
            key.validity_fact();
            CheckEnd::Orders {
                first: key.idx()[0],
                v1: value,
                second: pivot,
                v2: sum,
                key,
            }
        }
    }
}
