ghost use Rattle.std.specs.Prelude.{◌≡◌, ◌≤◌, IsTrue};
ghost use Rattle.airy_math.specs.Relations.{Close};
ghost use Rattle.sparse_tensor.specs.Entries.{looked_up};
ghost use Rattle.amp_plan.specs.Plans.{tensors_of};
ghost use Rattle.amp_terms.specs.Tables.{full_table};
ghost use Rattle.command_words.specs.Bounds.{is_bound};
ghost use Rattle.run_reports.specs.Report.{Ends, EndsOrWants};
ghost use Rattle.run_reports.specs.Ends.{EndsBy, EndsWithBound};
ghost use Rattle.airymore.specs.Quick.{plan_quick, quick_table, LeadsToQuick};

use airy_exists::{Agreed, agreed, every_pivot};
use airy_io::{Sink, Source};
use airy_math::{own_tensors, planned_once};
use airy_relations::{Verdict, check};
use amp_plan::Plan;
use amp_terms::Table;
use fill_crew::{Gate, fill_all};
use run_reports::{
    print_table, read_bounded, refuse_input, refuse_key, refuse_memory, refuse_plan, say_verdict,
};
use series_law::{job_solution, job_uniqueness, widened_relations};
use sparse_tensor::Tensors;
use std::alloc::Global;
use std::thread::Threads;

/// Does `quick X WORKERS`: the table of a text whose relations hold. That it is a solution needs no look at any further pivot.
pub(crate) fn quick<R: Threads + Sync, S: Source, W: Sink, G: Gate + Sync>(
    rt: &R,
    alloc: Global,
    bound: u32,
    workers: u8,
    src: &mut S,
    gate: &G,
    out: &mut W,
) -> u8
    requires { workers ≤ 16 }
    ensures { EndsWithBound bound (LeadsToQuick bound) (S.state src.old) (S.state src.new) (W.state out.old) (W.state out.new) result }
{
    match read_bounded(alloc, bound, src) {
        Ok(tensors) => print_closed(rt, alloc, tensors, bound as u8, workers, gate, out),
        Err(refusal) => refuse_input(out, refusal),
    }
}

/// Prints the table of a text's tensors, or where their relations fail first.
fn print_closed<R: Threads + Sync, W: Sink, G: Gate + Sync>(
    rt: &R,
    alloc: Global,
    tensors: Tensors,
    bound: u8,
    workers: u8,
    gate: &G,
    out: &mut W,
) -> u8
    requires bound { IsTrue (is_bound bound) }
    requires workers { workers ≤ 16 }
    ensures { EndsBy (LeadsToQuick bound tensors) (W.state out.old) (W.state out.new) result }
{
    job_uniqueness();
    job_solution();
    planned_once();
    own_tensors();
    every_pivot();
    widened_relations();
    tensors.soundness_fact();
    match check(&tensors, tensors.dim()) {
        Verdict::Closed => print_planned(rt, alloc, tensors, bound, workers, gate, out),
        fails => say_verdict(&fails, out),
    }
}

/// Plans, fills and prints the table of tensors whose relations hold.
fn print_planned<R: Threads + Sync, W: Sink, G: Gate + Sync>(
    rt: &R,
    alloc: Global,
    tensors: Tensors,
    bound: u8,
    workers: u8,
    gate: &G,
    out: &mut W,
) -> u8
    requires close { Close (looked_up tensors) tensors.dim }
    requires workers { workers ≤ 16 }
    ensures { EndsOrWants (quick_table bound tensors) (W.state out.old) (W.state out.new) result }
{
    match Plan::make(alloc, tensors, bound) {
        Ok(plan) => fill_and_print(rt, alloc, plan, workers, gate, out),
        Err(refused) => refuse_plan(out, &refused.cause),
    }
}

/// Fills the plan's table, and prints it, or names the first key without a Value.
fn fill_and_print<R: Threads + Sync, W: Sink, G: Gate + Sync>(
    rt: &R,
    alloc: Global,
    plan: Plan,
    workers: u8,
    gate: &G,
    out: &mut W,
) -> u8
    requires close { Close (tensors_of plan) plan.tensors.dim }
    requires workers { workers ≤ 16 }
    ensures { EndsOrWants (plan_quick plan) (W.state out.old) (W.state out.new) result }
{
    match fill_all(rt, alloc, plan, workers, gate) {
        Ok(filled) => print_agreed(&filled.plan, &filled.table, out),
        Err(_) => refuse_memory(out),
    }
}

/// Prints a filled table, or names the first key without a Value.
fn print_agreed<W: Sink>(plan: &Plan, table: &Table, out: &mut W) -> u8
    requires close { Close (tensors_of plan.now) plan.now.tensors.dim }
    requires full { table.now ≡ full_table (tensors_of plan.now) plan.now.bound }
    ensures { Ends (plan_quick plan.now) (W.state out.old) (W.state out.new) result }
{
    match agreed(plan, table) {
        Agreed::NotValue { key } => refuse_key(out, 6, b"over at ", &key),
        Agreed::Solution => print_table(plan, table, out),
    }
}
