ghost use Rattle.std.specs.Prelude.{◌≡◌, ◌≢◌, ◌≤◌, false};
ghost use Rattle.command_words.specs.Bounds.{IsScript, reach};
ghost use Rattle.command_words.specs.Lines.{FinishesOnce, Rises};
ghost use Rattle.run_reports.specs.Report.{Ends, out_of_memory};
ghost use Rattle.session_law.specs.Sessions.{answered, stored_session};
ghost use Rattle.airyrun.specs.Sessions.{EndsReplies, LeadsToFamilySession, planned_as, stored_as};
ghost use Rattle.run_reports.specs.Ends.{EndsBy};
ghost use Rattle.command_words.specs.Options.{lines_of};
ghost use Rattle.command_words.specs.Asked.{parted_of, IsLeft};

use airy_io::Sink;
use airy_math::{Family, below_dim, planned_once};
use amp_plan::Plan;
use ask_seats::{SessionErr, session};
use command_words::{Left, Line, greatest_bound, lines_made};
use fill_crew::Gate;
use run_reports::{refuse_bound, refuse_making, refuse_memory, refuse_plan, tensors_of};
use series_law::{job_session, same_tables};
use sparse_tensor::Tensors;
use std::alloc::Global;
use std::thread::Threads;

/// Answers a script by the plan's cells.
fn talk_planned<R: Threads + Sync, W: Sink, G: Gate + Sync>(
    rt: &R,
    alloc: Global,
    plan: Plan,
    workers: u8,
    lines: &[Line],
    gate: &G,
    out: &mut W,
) -> u8
    requires workers { workers ≤ 16 }
    requires finish { FinishesOnce false lines.now }
    requires rises { Rises plan.bound lines.now }
    ensures { EndsReplies (planned_as plan workers) plan.bound lines.now answered (W.state out.old) (W.state out.new) result }
{
    match session(rt, alloc, plan, workers, lines, gate, out) {
        Ok(_) => 0,
        Err(SessionErr::WriteFault) => 9,
        Err(SessionErr::NoMemory { lines }) => refuse_behind(out, lines),
    }
}

/// Says that memory is wanting, where no line was written before.
fn refuse_behind<W: Sink>(out: &mut W, lines: usize) -> u8
    ensures first { lines ≡ 0 → Ends out_of_memory (W.state out.old) (W.state out.new) result }
    ensures later { lines ≢ 0 → (W.state out.new ≡ W.state out.old) × (result ≡ 10) }
{
    if lines == 0 { refuse_memory(out) } else { 10 }
}

/// Plans stored tensors and answers a script.
pub(crate) fn talk_stored<R: Threads + Sync, W: Sink, G: Gate + Sync>(
    rt: &R,
    alloc: Global,
    tensors: Tensors,
    bound: u8,
    workers: u8,
    lines: &[Line],
    gate: &G,
    out: &mut W,
) -> u8
    requires workers { workers ≤ 16 }
    requires finish { FinishesOnce false lines.now }
    requires rises { Rises bound lines.now }
    ensures { EndsReplies (stored_as tensors workers) bound lines.now (stored_session tensors bound)
        (W.state out.old) (W.state out.new) result }
{
    match Plan::make(alloc, tensors, bound) {
        Ok(plan) => talk_planned(rt, alloc, plan, workers, lines, gate, out),
        Err(refused) => refuse_plan(out, &refused.cause),
    }
}

/// Makes the lines of a script, plans stored tensors and answers it.
pub(crate) fn talk_script<R: Threads + Sync, W: Sink, G: Gate + Sync>(
    rt: &R,
    alloc: Global,
    tensors: Tensors,
    bound: u8,
    workers: u8,
    script: Left<'_>,
    gate: &G,
    out: &mut W,
) -> u8
    requires workers { workers ≤ 16 }
    requires script { IsLeft script }
    requires finish { FinishesOnce false (lines_of (parted_of script)) }
    requires rises { Rises bound (lines_of (parted_of script)) }
    ensures { EndsReplies (stored_as tensors workers) bound (lines_of (parted_of script.entry)) (stored_session tensors bound)
        (W.state out.old) (W.state out.new) result }
{
    match lines_made(alloc, script) {
        Ok(lines) => talk_stored(rt, alloc, tensors, bound, workers, &lines, gate, out),
        Err(_) => refuse_memory(out),
    }
}

/// Answers the script of a named structure's session, by tensors that are made for its greatest bound.
pub(crate) fn session_of_family<R: Threads + Sync, W: Sink, G: Gate + Sync>(
    rt: &R,
    alloc: Global,
    family: Family,
    bound: u32,
    workers: u8,
    script: Left<'_>,
    gate: &G,
    out: &mut W,
) -> u8
    requires workers { workers ≤ 16 }
    requires left { IsLeft script }
    requires script { IsScript bound (lines_of (parted_of script)) }
    ensures { EndsBy (LeadsToFamilySession family bound workers (lines_of (parted_of script.entry)))
        (W.state out.old) (W.state out.new) result }
{
    job_session();
    planned_once();
    below_dim();
    same_tables();
    let top = match greatest_bound(bound, script) {
        Ok(top) => top,
        Err(unfit) => return refuse_bound(out, unfit),
    };
    match tensors_of(alloc, family, top) {
        Ok(tensors) => talk_script(rt, alloc, tensors, bound as u8, workers, script, gate, out),
        Err(refusal) => refuse_making(out, refusal),
    }
}
