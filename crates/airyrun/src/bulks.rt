ghost use Rattle.std.specs.Prelude.{◌≡◌, ◌<◌, ◌≤◌, ◌^◌, IsTrue};
ghost use Rattle.sparse_tensor.specs.Entries.{looked_up};
ghost use Rattle.run_reports.specs.Report.{Ends, EndsOrWants};
ghost use Rattle.run_reports.specs.Ends.{EndsBy};
ghost use Rattle.run_reports.specs.Relations.{IsVerdict};
ghost use Rattle.airyrun.specs.Bulks.{LeadsToBulk, bulk_error, closed_summary};

use airy_exists::no_orders;
use airy_io::Sink;
use airy_math::{below_dim, planned_once};
use airy_relations::{Verdict, check, same_verdict};
use bulk_tensors::{BulkErr, bulk_tensors};
use command_words::is_bound;
use fill_crew::Gate;
use run_reports::{Summary, print_formed, refuse_bound, refuse_memory, refuse_number, say_verdict};
use series_law::{job_checked, job_uniqueness, same_tables};
use sparse_tensor::Tensors;
use std::alloc::Global;
use std::thread::Threads;

/// Does `bulk SEED DIM X`: makes a structure from a number, fills and checks its table as `table -` does, and prints a summary. It isn't
/// inlined, since the full tensors stand on the stack, and no other command is to need that room.
#[inline(never)]
pub(crate) fn bulk<R: Threads + Sync, W: Sink, G: Gate + Sync>(
    rt: &R,
    alloc: Global,
    seed: u32,
    dim: u8,
    bound: u32,
    workers: u8,
    gate: &G,
    out: &mut W,
) -> u8
    requires seed { seed < 10 ^ 9 }
    requires some { 1 ≤ dim }
    requires most { dim ≤ 8 }
    requires workers { workers ≤ 16 }
    ensures { EndsBy (LeadsToBulk seed dim bound) (W.state out.old) (W.state out.new) result }
{
    if !is_bound(bound) {
        return refuse_bound(out, bound);
    }
    job_uniqueness();
    job_checked();
    planned_once();
    below_dim();
    same_tables();
    same_verdict();
    no_orders();
    match bulk_tensors(alloc, seed, dim) {
        Ok(tensors) => print_bulk(rt, alloc, tensors, bound as u8, workers, gate, out),
        Err(refusal) => refuse_bulk(out, refusal),
    }
}

/// Says why the tensors of a seed aren't made.
#[tactic(auto, unfolding(crate::specs::Bulks::bulk_error))]
fn refuse_bulk<W: Sink>(out: &mut W, refusal: BulkErr) -> u8
    ensures { Ends (bulk_error refusal) (W.state out.old) (W.state out.new) result }
{
    match refusal {
        BulkErr::Over { step } => refuse_number(out, 6, b"over in change ", step as u32),
        BulkErr::NoMemory => refuse_memory(out),
    }
}

/// Checks the relations of a large structure, and prints the summary of its table.
fn print_bulk<R: Threads + Sync, W: Sink, G: Gate + Sync>(
    rt: &R,
    alloc: Global,
    tensors: Tensors,
    bound: u8,
    workers: u8,
    gate: &G,
    out: &mut W,
) -> u8
    requires { workers ≤ 16 }
    ensures tells { IsVerdict (looked_up tensors) tensors.dim }
    ensures ends { EndsOrWants (closed_summary tensors bound) (W.state out.old) (W.state out.new) result }
{
    tensors.soundness_fact();
    match check(&tensors, tensors.dim()) {
        Verdict::Closed => print_formed(rt, alloc, tensors, bound, &Summary, workers, gate, out),
        fails => say_verdict(&fails, out),
    }
}
