ghost use Rattle.std.specs.Prelude.{◌≡◌, map, string_bytes};
ghost use Rattle.std.specs.Process.{exit_status};
ghost use Rattle.run_reports.specs.Runs.{run_of};
ghost use Rattle.airymore.specs.Run.{Answers};
ghost use Rattle.airymore.specs.Laws.{HasCauses, IsComplete};

use crate::brackets::brackets;
use crate::curves::{relations_of_curve, table_of_curve};
use crate::documents::{document_of_family, document_of_text};
use crate::quick::quick;
use crate::verify::verify;
use airy_io::{Sink, Source};
use command_words::Kind;
use fill_crew::{Gate, OpenGate};
use more_words::{MoreAsked, read_more_words};
use run_reports::refuse_word;
use std::alloc::Global;
use std::process::ExitCode;
use std::thread::Threads;

/// Does what the words ask for, from the source to the sink, and answers the status.
///
/// The words are `curve X WORKERS U...`, `curve-relations N U...`, `brackets`, `quick X WORKERS`, `json KIND X WORKERS` and `verify`; X is
/// from 1 to 24, WORKERS from 0 to 16 and N from 1 to 32. There are 0 to 24 words U, the numbers u_1, u_2, .. of a curve, each a value as
/// in a text of tensors. KIND is `wk`, `bgw`, `wp` or `-`. `brackets`, `quick` and `json -` read the text of the source, `verify` its JSON
/// document; else nothing is read. Status 0 comes with the whole output. A refusal writes one line: 2 for a word, 3 for the text or the
/// document, 4 for a relation that fails, 5 for a bound or a plan beyond its limits, 6 where a number leaves the range, 7 where two index
/// orders of a key, or a sum and a document's value, differ, 8 where the source failed, 10 for want of memory. With 9, where the sink
/// failed, a prefix was taken.
///
/// Each number of a printed table is the amplitude of every solution of the constraints (Kontsevich and Soibelman; Andersen, Borot,
/// Chekhov and Orantin), and the table is itself such a solution: of `curve` at every greatest index, see `specs/Curves.antt`; of
/// `quick`, where the relations hold, with no look at any pivot but the least, see `specs/Quick.antt`; of the document that `json` writes,
/// see `specs/Documents.antt`. So are the values of a document of which `verify` says `solution`; at 7 they are no solution, see
/// `specs/Verify.antt`. What `brackets` prints are the numbers by which the operators close, see `specs/Brackets.antt`. The workers ask
/// the gate before each cell; what they leave, the calling thread fills without asking.
pub fn run_more<R: Threads + Sync, S: Source, W: Sink, G: Gate + Sync>(
    rt: &R,
    alloc: Global,
    words: &[String],
    src: &mut S,
    out: &mut W,
    gate: &G,
) -> u8
    ensures answers { Answers
        (run_of (map string_bytes words.now) (S.state src.old) (S.state src.new) (W.state out.old) (W.state out.new) result) }
    ensures causes { HasCauses
        (run_of (map string_bytes words.now) (S.state src.old) (S.state src.new) (W.state out.old) (W.state out.new) result) }
    ensures complete { IsComplete
        (run_of (map string_bytes words.now) (S.state src.old) (S.state src.new) (W.state out.old) (W.state out.new) result) }
{
    dispatch(rt, alloc, words, src, out, gate)
}

/// Runs the words with the open gate, and ends with the status of the run.
pub fn serve<R: Threads + Sync, S: Source, W: Sink>(
    rt: &R,
    alloc: Global,
    words: &[String],
    src: &mut S,
    out: &mut W,
) -> ExitCode
    ensures answers { Answers
        (run_of (map string_bytes words.now) (S.state src.old) (S.state src.new) (W.state out.old) (W.state out.new) (exit_status result)) }
    ensures causes { HasCauses
        (run_of (map string_bytes words.now) (S.state src.old) (S.state src.new) (W.state out.old) (W.state out.new) (exit_status result)) }
    ensures complete { IsComplete
        (run_of (map string_bytes words.now) (S.state src.old) (S.state src.new) (W.state out.old) (W.state out.new) (exit_status result)) }
{
    let status = run_more(rt, alloc, words, src, out, &OpenGate);
    ExitCode::from(status)
}

/// Does what the words ask for, by the command that they name.
fn dispatch<R: Threads + Sync, S: Source, W: Sink, G: Gate + Sync>(
    rt: &R,
    alloc: Global,
    words: &[String],
    src: &mut S,
    out: &mut W,
    gate: &G,
) -> u8
    ensures { Answers (run_of (map string_bytes words.now) (S.state src.old) (S.state src.new) (W.state out.old) (W.state out.new) result) }
{
    match read_more_words(words) {
        MoreAsked::Refused { before } => refuse_word(out, before),
        MoreAsked::Curve { bound, workers, u } => {
            table_of_curve(rt, alloc, u.as_slice(), bound, workers, gate, out)
        }
        MoreAsked::CurveRelations { places, u } => {
            relations_of_curve(alloc, u.as_slice(), places, out)
        }
        MoreAsked::Brackets => brackets(alloc, src, out),
        MoreAsked::Quick { bound, workers } => quick(rt, alloc, bound, workers, src, gate, out),
        MoreAsked::Json {
            kind: Kind::Named(family),
            bound,
            workers,
        } => document_of_family(rt, alloc, family, bound, workers, gate, out),
        MoreAsked::Json {
            kind: Kind::Text,
            bound,
            workers,
        } => document_of_text(rt, alloc, bound, workers, src, gate, out),
        MoreAsked::Verify => verify(alloc, src, out),
    }
}
