ghost use Rattle.std.specs.Prelude.{◌≤◌, length};
ghost use Rattle.command_words.specs.Asked.{IsPlaces};
ghost use Rattle.run_reports.specs.Report.{Ends};
ghost use Rattle.run_reports.specs.Ends.{EndsBy};
ghost use Rattle.airymore.specs.Curves.{LeadsToCurve, LeadsToCurveRelations, curve_error};

use airy_curve::{CurveErr, curve, curve_cut};
use airy_io::Sink;
use airy_math::{below_dim, planned_once};
use airy_relations::{no_difference, same_verdict};
use command_words::is_bound;
use curve_law::curve_tables;
use fill_crew::Gate;
use frac128::Frac;
use relation_law::{curve_relations, curve_shape};
use run_reports::{print_stored, refuse_bound, refuse_memory, refuse_number, say_relations};
use series_law::same_tables;
use std::alloc::Global;
use std::thread::Threads;

/// Does `curve X WORKERS U...`: makes, fills, checks and prints the table of the curve of the numbers u, of which there are at most 24.
pub(crate) fn table_of_curve<R: Threads + Sync, W: Sink, G: Gate + Sync>(
    rt: &R,
    alloc: Global,
    u: &[Frac],
    bound: u32,
    workers: u8,
    gate: &G,
    out: &mut W,
) -> u8
    requires list { length u.now ≤ 24 }
    requires workers { workers ≤ 16 }
    ensures { EndsBy (LeadsToCurve u.now bound) (W.state out.old) (W.state out.new) result }
{
    if !is_bound(bound) {
        return refuse_bound(out, bound);
    }
    planned_once();
    below_dim();
    same_tables();
    curve_tables();
    match curve(alloc, bound as u8, u) {
        Ok(tensors) => print_stored(rt, alloc, tensors, bound as u8, workers, gate, out),
        Err(refusal) => refuse_curve(out, refusal),
    }
}

/// Does `curve-relations N U...`: checks the relations of that curve in the places below N, with all indices up to 2N and all exponents
/// up to 2N + 1. They hold, so the check can only be refused where a number leaves the range.
pub(crate) fn relations_of_curve<W: Sink>(alloc: Global, u: &[Frac], places: u8, out: &mut W) -> u8
    requires list { length u.now ≤ 24 }
    requires places { IsPlaces places }
    ensures { EndsBy (LeadsToCurveRelations u.now places) (W.state out.old) (W.state out.new) result }
{
    same_verdict();
    no_difference();
    curve_relations();
    curve_shape();
    let dim = 2 * places + 1;
    match curve_cut(alloc, dim, dim, u) {
        Ok(tensors) => say_relations(&tensors, places, out),
        Err(refusal) => refuse_curve(out, refusal),
    }
}

/// Says why the tensors of a curve aren't made.
#[tactic(auto, unfolding(crate::specs::Curves::curve_error, run_reports::specs::Tables::making_report))]
fn refuse_curve<W: Sink>(out: &mut W, refusal: CurveErr) -> u8
    ensures { Ends (curve_error refusal) (W.state out.old) (W.state out.new) result }
{
    match refusal {
        CurveErr::Over { k } => refuse_number(out, 6, b"over in c ", k as u32),
        CurveErr::NoMemory => refuse_memory(out),
    }
}
