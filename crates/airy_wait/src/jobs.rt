// Jobs of workers and callers, by the structure that they are of.
ghost use Rattle.std.specs.Prelude.{◌≡◌, ◌<◌, IsTrue, length};
ghost use Rattle.cell_words.specs.Seats.{plan_of};
ghost use Rattle.fill_crew.specs.Crews.{IsIdle, EachAt};
ghost use Rattle.command_words.specs.Bounds.{is_bound};
ghost use Rattle.run_reports.specs.Report.{Ends, EndsOrWants};
ghost use Rattle.run_reports.specs.Ends.{EndsBy, EndsWithBound};
ghost use Rattle.session_law.specs.Sessions.{answered};
ghost use Rattle.airy_wait.specs.Asked.{keys_asked, IsJob};
ghost use Rattle.airy_wait.specs.Turns.{plan_replies, IsFresh};
ghost use Rattle.airy_wait.specs.Waiting.{stored_waiting, LeadsToClosedWaiting, LeadsToFamilyWaiting};

use crate::callers::{Caller, callers_made, fill_and_ask};
use crate::replies::print_replies;
use crate::words::Job;
use airy_io::{Sink, Source};
use airy_math::{Family, below_dim, own_tensors, planned_once};
use airy_relations::{Verdict, check};
use amp_plan::Plan;
use cell_words::{CountSeat, Countdown};
use command_words::is_bound;
use run_reports::{
    read_bounded, refuse_bound, refuse_input, refuse_making, refuse_memory, refuse_plan,
    say_verdict, tensors_of,
};
use series_law::{job_session, same_tables, widened_relations};
use sparse_tensor::Tensors;
use std::alloc::Global;
use std::sync::Wait;
use std::thread::Threads;

/// Does a job at a named structure.
pub(crate) fn wait_on_family<R: Threads + Wait + Sync, W: Sink>(
    rt: &R,
    alloc: Global,
    family: Family,
    bound: u32,
    job: Job<'_>,
    out: &mut W,
) -> u8
    requires { IsJob job }
    ensures { EndsBy (LeadsToFamilyWaiting family bound (keys_asked job.entry)) (W.state out.old) (W.state out.new) result }
{
    job_session();
    planned_once();
    below_dim();
    same_tables();
    if !is_bound(bound) {
        return refuse_bound(out, bound);
    }
    match tensors_of(alloc, family, bound as u8) {
        Ok(tensors) => wait_stored(rt, alloc, tensors, bound as u8, job, out),
        Err(refusal) => refuse_making(out, refusal),
    }
}

/// Does a job at the text of the source.
pub(crate) fn wait_on_text<R: Threads + Wait + Sync, S: Source, W: Sink>(
    rt: &R,
    alloc: Global,
    bound: u32,
    job: Job<'_>,
    src: &mut S,
    out: &mut W,
) -> u8
    requires { IsJob job }
    ensures { EndsWithBound bound (LeadsToClosedWaiting bound (keys_asked job.entry))
        (S.state src.old) (S.state src.new) (W.state out.old) (W.state out.new) result }
{
    match read_bounded(alloc, bound, src) {
        Ok(tensors) => wait_closed(rt, alloc, tensors, bound as u8, job, out),
        Err(refusal) => refuse_input(out, refusal),
    }
}

/// Does a job at a text's tensors, or says where their relations fail first.
fn wait_closed<R: Threads + Wait + Sync, W: Sink>(
    rt: &R,
    alloc: Global,
    tensors: Tensors,
    bound: u8,
    job: Job<'_>,
    out: &mut W,
) -> u8
    requires some { 0 < bound }
    requires within { IsTrue (is_bound bound) }
    requires job { IsJob job }
    ensures { EndsBy (LeadsToClosedWaiting bound (keys_asked job.entry) tensors) (W.state out.old) (W.state out.new) result }
{
    job_session();
    planned_once();
    below_dim();
    same_tables();
    own_tensors();
    widened_relations();
    tensors.soundness_fact();
    let dim = tensors.dim();
    match check(&tensors, dim) {
        Verdict::Closed => wait_stored(rt, alloc, tensors, bound, job, out),
        fails => say_verdict(&fails, out),
    }
}

/// Plans stored tensors and does a job at them.
fn wait_stored<R: Threads + Wait + Sync, W: Sink>(
    rt: &R,
    alloc: Global,
    tensors: Tensors,
    bound: u8,
    job: Job<'_>,
    out: &mut W,
) -> u8
    requires { IsJob job }
    ensures { EndsOrWants (stored_waiting tensors bound (keys_asked job.entry)) (W.state out.old) (W.state out.new) result }
{
    match Plan::make(alloc, tensors, bound) {
        Ok(plan) => wait_planned(rt, alloc, plan, job, out),
        Err(refused) => refuse_plan(out, &refused.cause),
    }
}

/// Opens a board for a plan, fills it by the workers beside the callers, and writes what these were told. All memory is taken before the
/// first thread is started.
fn wait_planned<R: Threads + Wait + Sync, W: Sink>(
    rt: &R,
    alloc: Global,
    plan: Plan,
    job: Job<'_>,
    out: &mut W,
) -> u8
    requires { IsJob job }
    ensures { EndsOrWants (answered (plan_replies plan (keys_asked job.entry))) (W.state out.old) (W.state out.new) result }
{
    let Ok((board, mut seats)) = Countdown::make(alloc, plan, job.workers + job.callers) else {
        return refuse_memory(out);
    };
    let Ok(mut callers) = callers_made(alloc, &board, &mut seats, job) else {
        return refuse_memory(out);
    };
    ask_and_print(
        rt,
        &board,
        seats.as_mut_slice(),
        job,
        callers.as_mut_slice(),
        out,
    )
}

/// Lets the workers fill beside the callers, and writes what these were told.
fn ask_and_print<R: Threads + Wait + Sync, W: Sink>(
    rt: &R,
    board: &Countdown,
    workers: &mut [CountSeat],
    job: Job<'_>,
    callers: &mut [Caller],
    out: &mut W,
) -> u8
    requires idle { EachAt (IsIdle board.now) workers.old }
    requires job { IsJob job }
    requires many { length callers.old ≡ job.callers }
    requires fresh { EachAt (IsFresh board.now (length job.asks.now)) callers.old }
    ensures { Ends (answered (plan_replies (plan_of board.now) (keys_asked job.entry))) (W.state out.old) (W.state out.new) result }
{
    fill_and_ask(rt, board, workers, job, callers);
    print_replies(callers, job.asks.len(), out)
}
