ghost use Rattle.std.specs.Prelude.{◌≡◌, ◌<◌, ◌≤◌, ◌+◌, ◌++◌, ◌*◌, length, take};
ghost use Rattle.sparse_tensor.specs.Entries.{looked_up};
ghost use Rattle.airy_relations.specs.Verdicts.{verdict};
ghost use Rattle.frac128.specs.Fraction.{fraction_text};
ghost use Rattle.run_reports.specs.Report.{Ends, Report};
ghost use Rattle.run_reports.specs.Relations.{IsVerdict, relations_report, closed, rel_text, free_indices, place_text};

use crate::report::{put_fraction, refuse, say};
use airy_index::put_indices;
use airy_io::{LineText, Sink};
use airy_relations::{Rel, Verdict, check};
use frac128::Frac;
use sparse_tensor::Tensors;

/// Checks the relations in the places below a number, and says what is found.
pub fn say_relations<W: Sink>(tensors: &Tensors, places: u8, out: &mut W) -> u8
    requires some { 0 < places }
    requires most { places ≤ tensors.now.dim }
    ensures tells { IsVerdict (looked_up tensors.now) places }
    ensures ends { Ends (relations_report (verdict (looked_up tensors.now) places) closed) (W.state out.old) (W.state out.new) result }
{
    say_verdict(&check(tensors, places), out)
}

/// Says what a check of the relations finds.
#[tactic(auto, unfolding(crate::specs::Relations::relations_report, crate::specs::Relations::closed))]
pub fn say_verdict<W: Sink>(found: &Verdict, out: &mut W) -> u8
    ensures { Ends (relations_report found.now closed) (W.state out.old) (W.state out.new) result }
{
    match found {
        Verdict::Closed => say(out, 0, b"closed\n"),
        Verdict::Differs {
            rel,
            place,
            left,
            right,
        } => say_difference(*rel, place, *left, *right, out),
        Verdict::Over { rel, place } => say_overflow(*rel, place, out),
    }
}

/// Says that a relation fails at a place: `REL at PLACE: LEFT and RIGHT`.
#[tactic(auto, unfolding(crate::specs::Relations::relations_report))]
fn say_difference<W: Sink>(rel: Rel, place: &[u8; 4], left: Frac, right: Frac, out: &mut W) -> u8
    ensures { Ends (relations_report (Verdict.Differs rel place.now left right) closed) (W.state out.old) (W.state out.new) result }
{
    let mut name = LineText::new();
    put_place(&mut name, rel, place);
    let mut sides = LineText::new();
    sides.put(b": ");
    put_fraction(&mut sides, left);
    sides.put(b" and ");
    put_fraction(&mut sides, right);
    refuse(out, 4, name.bytes(), sides.bytes())
}

/// Says that a sum of a relation leaves the range at a place: `over in REL at PLACE`.
#[tactic(auto, unfolding(crate::specs::Relations::relations_report))]
fn say_overflow<W: Sink>(rel: Rel, place: &[u8; 4], out: &mut W) -> u8
    ensures { Ends (relations_report (Verdict.Over rel place.now) closed) (W.state out.old) (W.state out.new) result }
{
    let mut text = LineText::new();
    put_place(&mut text, rel, place);
    refuse(out, 6, b"over in ", text.bytes())
}

/// Puts a relation with its place at the end of a line, as `BB at 0 1 1 0`.
#[tactic(auto, unfolding(crate::specs::Relations::place_text))]
fn put_place(line: &mut LineText, rel: Rel, place: &[u8; 4])
    requires { length line.old + 22 ≤ 512 }
    ensures text { line.new ≡ line.old ++ place_text rel place.now }
    ensures short { length line.new ≤ length line.old + 22 }
{
    let mut indices = [0u8; 16];
    let end = put_indices(&mut indices, 0, &place[..free_count(rel)]);
    line.put(name_of(rel));
    line.put(b" at ");
    line.put(&indices[..end]);
}

/// The name of a relation.
#[tactic(auto, unfolding(crate::specs::Relations::rel_text))]
fn name_of(rel: Rel) -> &'static [u8]
    ensures name { result.now ≡ rel_text rel }
    ensures short { length result.now ≤ 2 }
{
    match rel {
        Rel::AA => b"AA",
        Rel::BA => b"BA",
        Rel::BB => b"BB",
        Rel::BC => b"BC",
        Rel::D => b"D",
    }
}

/// How many free indices a relation has.
#[tactic(auto, unfolding(crate::specs::Relations::free_indices))]
fn free_count(rel: Rel) -> usize
    ensures count { result ≡ free_indices rel }
    ensures few { result ≤ 4 }
{
    match rel {
        Rel::AA => 3,
        Rel::BA | Rel::BB | Rel::BC => 4,
        Rel::D => 2,
    }
}
