ghost use Rattle.std.specs.Prelude.{◌≡◌, ◌<◌, ◌≤◌, IsTrue, IfErr, IfOk, OnOk};
ghost use Rattle.run_reports.specs.Ends.{EndsBy};
ghost use Rattle.airyrun.specs.Numbers.{valued_report};
ghost use Rattle.airyrun.specs.Valued.{IsFilled, IsStored, IsValued, Refuses, plan_valued, stored_valued};
ghost use Rattle.run_reports.specs.StructureTables.{is_bound, structure_of};

use airy_io::Sink;
use airy_math::{Family, below_dim, planned_once};
use amp_plan::Plan;
use amp_terms::{Table, one_thread};
use run_reports::{refuse_key, refuse_making, refuse_memory, refuse_plan, tensors_of};
use series_law::same_tables;
use sparse_tensor::Tensors;
use std::alloc::Global;

/// A plan and its table, in which each key has a Value.
#[derive(Drop)]
pub(crate) struct Valued {
    pub(crate) plan: Plan,
    pub(crate) table: Table,
}

/// The plan of a named structure with its table, filled on this thread; or the status of the line that says why there is none.
pub(crate) fn valued_table<W: Sink>(
    alloc: Global,
    family: Family,
    bound: u8,
    out: &mut W,
) -> Result<Valued, u8>
    requires some { 0 < bound }
    requires most { bound ≤ 24 }
    requires within { IsTrue (is_bound bound) }
    ensures valued { IfOk result (λ valued. IsValued (structure_of family) bound valued.plan valued.table) }
    ensures kept { OnOk result (W.state out.new ≡ W.state out.old) }
    ensures refused { IfErr result
        (λ status. EndsBy (Refuses (valued_report (structure_of family) bound)) (W.state out.old) (W.state out.new) status) }
{
    planned_once();
    below_dim();
    same_tables();
    match tensors_of(alloc, family, bound) {
        Ok(tensors) => valued_plan(alloc, tensors, bound, out),
        Err(refusal) => Err(refuse_making(out, refusal)),
    }
}

/// Plans and fills the table of stored tensors, in which each key is to have a Value.
fn valued_plan<W: Sink>(
    alloc: Global,
    tensors: Tensors,
    bound: u8,
    out: &mut W,
) -> Result<Valued, u8>
    ensures valued { IfOk result (λ valued. IsStored tensors bound valued.plan valued.table) }
    ensures kept { OnOk result (W.state out.new ≡ W.state out.old) }
    ensures refused { IfErr result (λ status. EndsBy (Refuses (stored_valued tensors bound)) (W.state out.old) (W.state out.new) status) }
{
    match Plan::make(alloc, tensors, bound) {
        Ok(plan) => fill(alloc, plan, out),
        Err(refused) => Err(refuse_plan(out, &refused.cause)),
    }
}

/// Fills the table of a plan on this thread.
fn fill<W: Sink>(alloc: Global, plan: Plan, out: &mut W) -> Result<Valued, u8>
    ensures valued { IfOk result (λ valued. IsFilled plan valued.plan valued.table) }
    ensures kept { OnOk result (W.state out.new ≡ W.state out.old) }
    ensures refused { IfErr result (λ status. EndsBy (Refuses (plan_valued plan)) (W.state out.old) (W.state out.new) status) }
{
    let table = match one_thread(alloc, &plan) {
        Ok(table) => table,
        Err(_) => return Err(refuse_memory(out)),
    };
    match table.first_not_value() {
        Some(rank) => Err(refuse_key(out, 6, b"over at ", &plan.key(rank))),
        None => Ok(Valued { plan, table }),
    }
}
