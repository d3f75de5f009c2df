ghost use Rattle.std.specs.Prelude.{◌≡◌, ◌<◌, ℕ, length, IfOk};
ghost use Rattle.airy_math.specs.Keys.{head_or, times};
ghost use Rattle.airy_math.specs.Planned.{IsPlanned};
ghost use Rattle.airy_math.specs.Terms.{terms};
ghost use Rattle.amp_plan.specs.Plans.{tensors_of, keys_of, key_at};
ghost use Rattle.amp_plan.specs.Ranked.{AreAllowed};
ghost use Rattle.amp_terms.specs.Pivots.{planned_outcome, pivot_ranks};
ghost use Rattle.amp_terms.specs.Tables.{full_table, shown_in, IsFilled};

use crate::Outcome;
use crate::pivot::pivot_value;
use crate::shown::TableOutcomes;
use crate::table::{NoMemory, Table};
use airy_index::Key;
use amp_plan::Plan;
use std::alloc::Global;

/// The outcome of every rank of the plan, lowest first.
pub fn one_thread(alloc: Global, plan: &Plan) -> Result<Table, NoMemory>
    ensures table { IfOk result (λ t. t ≡ full_table (tensors_of plan.now) plan.now.bound) }
    ensures len { IfOk result (λ t. length t ≡ length (keys_of plan.now)) }
{
    let mut table = Table::empty(alloc, plan.len())?;
    for rank in 0..plan.len() {
        let outcome = outcome_at(plan, rank, &table);
        table.set(rank, outcome);
    }
    Ok(table)
}

/// The outcome of a rank by the pivot sum at the least index of its key, over a table in which all lower ranks are filled.
fn outcome_at(plan: &Plan, rank: u32, table: &Table) -> Outcome
    requires rank { rank < length (keys_of plan.now) }
    requires lower { (q : ℕ) → q < rank → IsFilled table.now q }
    ensures { let key = key_at plan.now rank in result ≡ planned_outcome plan.now (shown_in table.now) key (head_or 0 key.idx) }
{
    plan.planned_fact();
    plan.needs_fact();
    let key = plan.key(rank);
    key.validity_fact();
    let pivot = key.idx()[0];
    pivot_value(plan, &key, pivot, &mut TableOutcomes { table })
}

/// A law: the ranks that the terms of a planned key name, for one of its indices, are ranks of the plan.
pub fn names_ranks(plan: &Plan, key: &Key, pivot: u8)
    requires planned { IsPlanned (tensors_of plan.now) plan.now.bound key.now }
    requires pivot { 0 < times pivot key.now.idx }
    ensures { AreAllowed (λ r. r < length (keys_of plan.now)) (pivot_ranks plan.now pivot key.now) }
{
    plan.planned_fact();
    airy_math::needs_first();
}
