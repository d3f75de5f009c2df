ghost use Rattle.std.specs.Prelude.{◌≡◌, ◌<◌, ◌≤◌, IsTrue};
ghost use Rattle.sparse_tensor.specs.Grades.{AreSound};
ghost use Rattle.command_words.specs.Bounds.{is_bound};
ghost use Rattle.airy_json.specs.Reading.{kind_text, named, text};
ghost use Rattle.run_reports.specs.Report.{EndsOrWants};
ghost use Rattle.run_reports.specs.Ends.{EndsBy, EndsWithBound};
ghost use Rattle.airymore.specs.Documents.{LeadsToDocument, LeadsToTextDocument, json_report, stored_document};

use airy_exists::no_orders;
use airy_io::{Sink, Source};
use airy_json::{canonical_text, table_json};
use airy_math::{Family, below_dim, own_tensors, planned_once};
use airy_relations::{Verdict, check};
use amp_plan::Plan;
use amp_terms::Table;
use command_words::is_bound;
use fill_crew::Gate;
use run_reports::{
    Form, print_formed, read_bounded, refuse_bound, refuse_input, refuse_making, refuse_memory,
    say, say_verdict, tensors_of,
};
use series_law::{job_checked, job_uniqueness, same_tables, widened_relations};
use sparse_tensor::Tensors;
use std::alloc::Global;
use std::thread::Threads;

/// The name of a family, as a document has it.
#[tactic(auto, unfolding(airy_json::specs::Reading::kind_text))]
fn name_of(family: Family) -> &'static str
    ensures { result.now ≡ kind_text (named family) }
{
    match family {
        Family::Wk => "wk",
        Family::Bgw => "bgw",
        Family::Wp => "wp",
    }
}

/// Does `json KIND X WORKERS` for a named structure.
pub(crate) fn document_of_family<R: Threads + Sync, W: Sink, G: Gate + Sync>(
    rt: &R,
    alloc: Global,
    family: Family,
    bound: u32,
    workers: u8,
    gate: &G,
    out: &mut W,
) -> u8
    requires { workers ≤ 16 }
    ensures { EndsBy (LeadsToDocument (named family) bound (json_report (named family) bound)) (W.state out.old) (W.state out.new) result }
{
    job_uniqueness();
    job_checked();
    planned_once();
    if is_bound(bound) {
        made_document(rt, alloc, family, bound as u8, workers, gate, out)
    } else {
        refuse_bound(out, bound)
    }
}

/// Makes the tensors of a named structure, and writes the document of their table.
fn made_document<R: Threads + Sync, W: Sink, G: Gate + Sync>(
    rt: &R,
    alloc: Global,
    family: Family,
    bound: u8,
    workers: u8,
    gate: &G,
    out: &mut W,
) -> u8
    requires workers { workers ≤ 16 }
    requires within { IsTrue (is_bound bound) }
    requires some { 0 < bound }
    requires most { bound ≤ 24 }
    ensures { EndsOrWants (json_report (named family) bound) (W.state out.old) (W.state out.new) result }
{
    planned_once();
    below_dim();
    same_tables();
    match tensors_of(alloc, family, bound) {
        Ok(tensors) => {
            let document = Document {
                kind: name_of(family),
            };
            print_formed(rt, alloc, tensors, bound, &document, workers, gate, out)
        }
        Err(refusal) => refuse_making(out, refusal),
    }
}

/// Does `json - X WORKERS`.
pub(crate) fn document_of_text<R: Threads + Sync, S: Source, W: Sink, G: Gate + Sync>(
    rt: &R,
    alloc: Global,
    bound: u32,
    workers: u8,
    src: &mut S,
    gate: &G,
    out: &mut W,
) -> u8
    requires { workers ≤ 16 }
    ensures { EndsWithBound bound (LeadsToTextDocument bound)
        (S.state src.old) (S.state src.new) (W.state out.old) (W.state out.new) result }
{
    match read_bounded(alloc, bound, src) {
        Ok(tensors) => write_closed(rt, alloc, tensors, bound as u8, workers, gate, out),
        Err(refusal) => refuse_input(out, refusal),
    }
}

/// Writes the document of the table of a text's tensors, or says where their relations fail first.
fn write_closed<R: Threads + Sync, W: Sink, G: Gate + Sync>(
    rt: &R,
    alloc: Global,
    tensors: Tensors,
    bound: u8,
    workers: u8,
    gate: &G,
    out: &mut W,
) -> u8
    requires bound { IsTrue (is_bound bound) }
    requires workers { workers ≤ 16 }
    ensures { EndsBy (LeadsToTextDocument bound tensors) (W.state out.old) (W.state out.new) result }
{
    job_uniqueness();
    job_checked();
    planned_once();
    own_tensors();
    no_orders();
    widened_relations();
    tensors.soundness_fact();
    match check(&tensors, tensors.dim()) {
        Verdict::Closed => write_text(rt, alloc, tensors, bound, workers, gate, out),
        fails => say_verdict(&fails, out),
    }
}

/// Writes the document of the table of a text's tensors, of which the kind is their canonical text.
fn write_text<R: Threads + Sync, W: Sink, G: Gate + Sync>(
    rt: &R,
    alloc: Global,
    tensors: Tensors,
    bound: u8,
    workers: u8,
    gate: &G,
    out: &mut W,
) -> u8
    requires { workers ≤ 16 }
    ensures { EndsOrWants (stored_document (kind_text (text tensors)) tensors bound) (W.state out.old) (W.state out.new) result }
{
    // No text that is read has a greater dim, so this is never met; it spares a proof of that.
    if tensors.dim() > 32 {
        return refuse_memory(out);
    }
    match canonical_text(alloc, &tensors) {
        Ok(kind) => {
            let document = Document {
                kind: kind.as_str(),
            };
            print_formed(rt, alloc, tensors, bound, &document, workers, gate, out)
        }
        Err(_) => refuse_memory(out),
    }
}

/// The document of a table, of a kind with this text, written by one call where the sink takes it whole.
#[derive(Drop)]
struct Document<'a> {
    kind: &'a str,
}

impl Form for Document<'_> {
    ghost use Rattle.airymore.specs.Documents.{plan_document};

    ghost bytes = { λ document p. plan_document document.kind.now p };

    fn print<W: Sink>(&self, alloc: Global, plan: &Plan, table: &Table, out: &mut W) -> u8 {
        match table_json(alloc, self.kind, plan, table) {
            Ok(text) => say(out, 0, text.as_bytes()),
            Err(_) => refuse_memory(out),
        }
    }
}
