ghost use Rattle.std.specs.Prelude.{◌≡◌, map, string_bytes};
ghost use Rattle.std.specs.Process.{exit_status};
ghost use Rattle.run_reports.specs.Runs.{run_of};
ghost use Rattle.airy_wait.specs.Laws.{HasCauses, IsComplete};
ghost use Rattle.airy_wait.specs.Run.{Answers};

use crate::jobs::{wait_on_family, wait_on_text};
use crate::words::{Asked, read_wait_words};
use airy_io::{Sink, Source};
use command_words::Kind;
use run_reports::refuse_word;
use std::alloc::Global;
use std::process::ExitCode;
use std::sync::Wait;
use std::thread::Threads;

/// Does what the words ask for, from the source to the sink, and answers the status. What is promised holds if the call returns.
///
/// The words are `KIND X WORKERS CALLERS ASK...`: KIND is `wk`, `bgw`, `wp`, or `-` for the text of the source; X is from 1 to 24,
/// WORKERS from 1 to 16, CALLERS from 1 to 8. So many workers fill the table of the structure up to X, and beside them the callers make
/// the 1 to 256 asks, each `G:D,D,..`: ask k, from 0, is made by caller `k mod CALLERS`, who waits for its answer. A thread is started for
/// each where one can be made; what can't be started is run by the starter, the workers before the callers.
///
/// When all have returned, the replies are written, a line each, in the order of the words: status 0. A refusal writes one line: 2 for a
/// word, 3 for the text, 4 for a relation that fails, 5 for a bound or a plan beyond its limits, 6 where a number leaves the range, 8
/// where the source failed, 10 for want of memory. With 9, where the sink failed, a prefix was taken. Memory is taken before the first
/// thread is started.
///
/// Each number that a reply shows is the amplitude of every solution of the constraints (Kontsevich and Soibelman; Andersen, Borot,
/// Chekhov and Orantin): see `specs/Waiting.antt`.
pub fn run_waiting<R: Threads + Wait + Sync, S: Source, W: Sink>(
    rt: &R,
    alloc: Global,
    words: &[String],
    src: &mut S,
    out: &mut W,
) -> u8
    ensures answers { Answers
        (run_of (map string_bytes words.now) (S.state src.old) (S.state src.new) (W.state out.old) (W.state out.new) result) }
    ensures causes { HasCauses
        (run_of (map string_bytes words.now) (S.state src.old) (S.state src.new) (W.state out.old) (W.state out.new) result) }
    ensures complete { IsComplete
        (run_of (map string_bytes words.now) (S.state src.old) (S.state src.new) (W.state out.old) (W.state out.new) result) }
{
    dispatch(rt, alloc, words, src, out)
}

/// Runs the words, and ends with the status of the run.
pub fn serve<R: Threads + Wait + Sync, S: Source, W: Sink>(
    rt: &R,
    alloc: Global,
    words: &[String],
    src: &mut S,
    out: &mut W,
) -> ExitCode
    ensures answers { Answers
        (run_of (map string_bytes words.now) (S.state src.old) (S.state src.new) (W.state out.old) (W.state out.new) (exit_status result)) }
    ensures causes { HasCauses
        (run_of (map string_bytes words.now) (S.state src.old) (S.state src.new) (W.state out.old) (W.state out.new) (exit_status result)) }
    ensures complete { IsComplete
        (run_of (map string_bytes words.now) (S.state src.old) (S.state src.new) (W.state out.old) (W.state out.new) (exit_status result)) }
{
    let status = run_waiting(rt, alloc, words, src, out);
    ExitCode::from(status)
}

/// Does what the words ask for, by the structure that they name.
fn dispatch<R: Threads + Wait + Sync, S: Source, W: Sink>(
    rt: &R,
    alloc: Global,
    words: &[String],
    src: &mut S,
    out: &mut W,
) -> u8
    ensures { Answers (run_of (map string_bytes words.now) (S.state src.old) (S.state src.new) (W.state out.old) (W.state out.new) result) }
{
    match read_wait_words(words) {
        Asked::Refused { before } => refuse_word(out, before),
        Asked::Waiting {
            kind: Kind::Named(family),
            bound,
            job,
        } => wait_on_family(rt, alloc, family, bound, job, out),
        Asked::Waiting {
            kind: Kind::Text,
            bound,
            job,
        } => wait_on_text(rt, alloc, bound, job, src, out),
    }
}
