ghost use Rattle.std.specs.Prelude.{◌≡◌, ◌<◌, ◌≤◌, ◌+◌, IsTrue, false};
ghost use Rattle.run_reports.specs.StructureTables.{is_bound};
ghost use Rattle.airyrun.specs.Run.{LeadsToClosedSession, LeadsToClosedTable, LeadsToProbe, LeadsToTextRelations};
ghost use Rattle.command_words.specs.Bounds.{IsScript, reach};
ghost use Rattle.command_words.specs.Lines.{FinishesOnce, Rises};
ghost use Rattle.command_words.specs.Options.{lines_of};
ghost use Rattle.command_words.specs.Asked.{parted_of, IsLeft, IsPlaces};
ghost use Rattle.run_reports.specs.Ends.{EndsBy, EndsOfText, EndsWithBound};

use crate::talk::talk_script;
use airy_exists::no_orders;
use airy_io::{Sink, Source};
use airy_math::{below_dim, own_tensors, planned_once};
use airy_relations::{Verdict, check};
use command_words::{Left, greatest_bound};
use fill_crew::Gate;
use run_reports::{
    print_stored, read_bounded, refuse_bound, refuse_input, refuse_text, say_relations, say_verdict,
};
use series_law::{job_checked, job_session, job_uniqueness, same_tables, widened_relations};
use sparse_tensor::Tensors;
use std::alloc::Global;
use std::thread::Threads;
use tensor_text::read_tensors;

/// Does `probe X`.
pub(crate) fn probe<R: Threads + Sync, S: Source, W: Sink, G: Gate + Sync>(
    rt: &R,
    alloc: Global,
    bound: u32,
    workers: u8,
    src: &mut S,
    gate: &G,
    out: &mut W,
) -> u8
    requires { workers ≤ 16 }
    ensures { EndsWithBound bound (LeadsToProbe bound) (S.state src.old) (S.state src.new) (W.state out.old) (W.state out.new) result }
{
    match read_bounded(alloc, bound, src) {
        Ok(tensors) => print_text(rt, alloc, tensors, bound as u8, workers, gate, out),
        Err(refusal) => refuse_input(out, refusal),
    }
}

/// Does `table - X`.
pub(crate) fn table_of_text<R: Threads + Sync, S: Source, W: Sink, G: Gate + Sync>(
    rt: &R,
    alloc: Global,
    bound: u32,
    workers: u8,
    src: &mut S,
    gate: &G,
    out: &mut W,
) -> u8
    requires { workers ≤ 16 }
    ensures { EndsWithBound bound (LeadsToClosedTable bound)
        (S.state src.old) (S.state src.new) (W.state out.old) (W.state out.new) result }
{
    match read_bounded(alloc, bound, src) {
        Ok(tensors) => print_closed(rt, alloc, tensors, bound as u8, workers, gate, out),
        Err(refusal) => refuse_input(out, refusal),
    }
}

/// Does `session - X SCRIPT...`: its bounds come first, in the order of the words, and then the text.
pub(crate) fn session_of_text<R: Threads + Sync, S: Source, W: Sink, G: Gate + Sync>(
    rt: &R,
    alloc: Global,
    bound: u32,
    workers: u8,
    script: Left<'_>,
    src: &mut S,
    gate: &G,
    out: &mut W,
) -> u8
    requires workers { workers ≤ 16 }
    requires left { IsLeft script }
    requires script { IsScript bound (lines_of (parted_of script)) }
    ensures { EndsWithBound (reach bound (lines_of (parted_of script.entry)))
        (LeadsToClosedSession bound workers (lines_of (parted_of script.entry)))
        (S.state src.old) (S.state src.new) (W.state out.old) (W.state out.new) result }
{
    match greatest_bound(bound, script) {
        Ok(_) => session_within(rt, alloc, bound as u8, workers, script, src, gate, out),
        Err(unfit) => refuse_bound(out, unfit),
    }
}

/// Reads the text of a session whose bounds are within their limits, and answers its script.
fn session_within<R: Threads + Sync, S: Source, W: Sink, G: Gate + Sync>(
    rt: &R,
    alloc: Global,
    bound: u8,
    workers: u8,
    script: Left<'_>,
    src: &mut S,
    gate: &G,
    out: &mut W,
) -> u8
    requires bound { 0 < bound }
    requires within { IsTrue (is_bound (reach bound (lines_of (parted_of script)))) }
    requires workers { workers ≤ 16 }
    requires script { IsLeft script }
    requires finish { FinishesOnce false (lines_of (parted_of script)) }
    requires rises { Rises bound (lines_of (parted_of script)) }
    ensures { EndsOfText (LeadsToClosedSession bound workers (lines_of (parted_of script.entry)))
        (S.state src.old) (S.state src.new) (W.state out.old) (W.state out.new) result }
{
    match read_tensors(alloc, src) {
        Ok(tensors) => talk_closed(rt, alloc, tensors, bound, workers, script, gate, out),
        Err(refusal) => refuse_text(out, refusal),
    }
}

/// Does `relations N -`: the places below N, or below dim where that is less.
pub(crate) fn relations_of_text<S: Source, W: Sink>(
    alloc: Global,
    places: u8,
    src: &mut S,
    out: &mut W,
) -> u8
    requires { IsPlaces places }
    ensures { EndsOfText (LeadsToTextRelations places) (S.state src.old) (S.state src.new) (W.state out.old) (W.state out.new) result }
{
    match read_tensors(alloc, src) {
        Ok(tensors) => {
            tensors.soundness_fact();
            say_relations(&tensors, places.min(tensors.dim()), out)
        }
        Err(refusal) => refuse_text(out, refusal),
    }
}

/// Plans, fills and prints the table of a text's tensors.
fn print_text<R: Threads + Sync, W: Sink, G: Gate + Sync>(
    rt: &R,
    alloc: Global,
    tensors: Tensors,
    bound: u8,
    workers: u8,
    gate: &G,
    out: &mut W,
) -> u8
    requires bound { IsTrue (is_bound bound) }
    requires workers { workers ≤ 16 }
    ensures { EndsBy (LeadsToProbe bound tensors) (W.state out.old) (W.state out.new) result }
{
    job_uniqueness();
    job_checked();
    planned_once();
    own_tensors();
    tensors.soundness_fact();
    print_stored(rt, alloc, tensors, bound, workers, gate, out)
}

/// Prints the table of a text's tensors, or where their relations fail first.
fn print_closed<R: Threads + Sync, W: Sink, G: Gate + Sync>(
    rt: &R,
    alloc: Global,
    tensors: Tensors,
    bound: u8,
    workers: u8,
    gate: &G,
    out: &mut W,
) -> u8
    requires bound { IsTrue (is_bound bound) }
    requires workers { workers ≤ 16 }
    ensures { EndsBy (LeadsToClosedTable bound tensors) (W.state out.old) (W.state out.new) result }
{
    job_uniqueness();
    job_checked();
    planned_once();
    own_tensors();
    no_orders();
    widened_relations();
    tensors.soundness_fact();
    match check(&tensors, tensors.dim()) {
        Verdict::Closed => print_stored(rt, alloc, tensors, bound, workers, gate, out),
        fails => say_verdict(&fails, out),
    }
}

/// Answers the script of the session of a text's tensors, or says where their relations fail first.
fn talk_closed<R: Threads + Sync, W: Sink, G: Gate + Sync>(
    rt: &R,
    alloc: Global,
    tensors: Tensors,
    bound: u8,
    workers: u8,
    script: Left<'_>,
    gate: &G,
    out: &mut W,
) -> u8
    requires bound { 0 < bound }
    requires within { IsTrue (is_bound (reach bound (lines_of (parted_of script)))) }
    requires workers { workers ≤ 16 }
    requires script { IsLeft script }
    requires finish { FinishesOnce false (lines_of (parted_of script)) }
    requires rises { Rises bound (lines_of (parted_of script)) }
    ensures { EndsBy (LeadsToClosedSession bound workers (lines_of (parted_of script.entry)) tensors)
        (W.state out.old) (W.state out.new) result }
{
    job_session();
    planned_once();
    below_dim();
    same_tables();
    own_tensors();
    widened_relations();
    tensors.soundness_fact();
    let dim = tensors.dim();
    match check(&tensors, dim) {
        Verdict::Closed => talk_script(rt, alloc, tensors, bound, workers, script, gate, out),
        fails => say_verdict(&fails, out),
    }
}
