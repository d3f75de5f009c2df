ghost use Rattle.std.specs.Prelude.{◌≡◌, ◌++◌, codes, length};
ghost use Rattle.amp_plan.specs.Plans.{keys_of, tensors_of};
ghost use Rattle.frac128.specs.Fraction.{fraction_text};
ghost use Rattle.airy_json.specs.Verifying.{verified};
ghost use Rattle.run_reports.specs.Report.{Ends, Report, bound_refused};
ghost use Rattle.run_reports.specs.Tables.{pivot_text};
ghost use Rattle.airymore.specs.Verify.{EndsOfDocument, difference_text, error_report, verified_report};

use airy_index::Key;
use airy_io::{LineText, Sink, Source};
use airy_json::{JsonErr, VerifyEnd, read_table, same_verified, verified_job, verify_values};
use airy_math::{below_dim, planned_once};
use amp_plan::Plan;
use frac128::Frac;
use itoa::Buffer;
use run_reports::{
    put_fraction, refuse, refuse_memory, refuse_number, refuse_pivot, refuse_plan, say,
};
use series_law::job_uniqueness;
use std::alloc::Global;

/// Does `verify`: whether the values of the document of the source are a solution of the constraints. No relation is checked.
pub(crate) fn verify<S: Source, W: Sink>(alloc: Global, src: &mut S, out: &mut W) -> u8
    ensures { EndsOfDocument (S.state src.old) (S.state src.new) (W.state out.old) (W.state out.new) result }
{
    planned_once();
    below_dim();
    job_uniqueness();
    verified_job();
    same_verified();
    match read_table(alloc, src) {
        Ok(given) => {
            given.plan.tensors().soundness_fact();
            verify_given(&given.plan, given.values.as_slice(), out)
        }
        Err(refusal) => refuse_document(out, refusal),
    }
}

/// Says what verifying a plan's values finds.
fn verify_given<W: Sink>(plan: &Plan, values: &[Frac], out: &mut W) -> u8
    requires { length values.now ≡ length (keys_of plan.now) }
    ensures { Ends (verified_report (verified (tensors_of plan.now) plan.now.bound values.now)) (W.state out.old) (W.state out.new) result }
{
    match verify_values(plan, values) {
        VerifyEnd::Solution => say(out, 0, b"solution\n"),
        VerifyEnd::Over { key, pivot } => refuse_pivot(out, &key, pivot),
        VerifyEnd::Differs {
            key,
            pivot,
            sum,
            given,
        } => refuse_difference(out, &key, pivot, sum, given),
    }
}

/// Says that a key's pivot sum is another number than the document's value: `KEY first I gives SUM, table has GIVEN`.
#[tactic(auto, unfolding(crate::specs::Verify::difference_text, run_reports::specs::Tables::pivot_text))]
fn refuse_difference<W: Sink>(out: &mut W, key: &Key, pivot: u8, sum: Frac, given: Frac) -> u8
    ensures { Ends (record { status = 7; bytes = codes "refused: " ++ difference_text key.now pivot sum given ++ codes "\n" })
        (W.state out.old) (W.state out.new) result }
{
    let mut name = [0u8; 128];
    let name_end = key.write_into(&mut name);
    let mut text = LineText::new();
    text.put(&name[..name_end]);
    text.put(b" first ");
    text.put_number(u32::from(pivot));
    text.put(b" gives ");
    put_fraction(&mut text, sum);
    text.put(b", table has ");
    put_fraction(&mut text, given);
    refuse(out, 7, b"", text.bytes())
}

/// Says why a document gives no values.
#[tactic(auto, unfolding(crate::specs::Verify::error_report, run_reports::specs::Texts::text_too_long, run_reports::specs::Texts::read_fault))]
fn refuse_document<W: Sink>(out: &mut W, refusal: JsonErr) -> u8
    ensures { Ends (error_report refusal) (W.state out.old) (W.state out.new) result }
{
    match refusal {
        JsonErr::ReadFault => say(out, 8, b"refused: read fault\n"),
        JsonErr::TooLong => say(out, 3, b"refused: text too long\n"),
        JsonErr::NotJson => say(out, 3, b"refused: not json\n"),
        JsonErr::Form => say(out, 3, b"refused: form\n"),
        JsonErr::Kind => say(out, 3, b"refused: kind\n"),
        JsonErr::Bound { got } => refuse_bound_of(out, got),
        JsonErr::Make { k } => refuse_number(out, 6, b"over in c ", k as u32),
        JsonErr::Plan { cause } => refuse_plan(out, &cause),
        JsonErr::Cell { place } => refuse_number(out, 3, b"cell ", place),
        JsonErr::NoMemory => refuse_memory(out),
    }
}

/// Refuses the bound of a document.
fn refuse_bound_of<W: Sink>(out: &mut W, bound: u64) -> u8
    ensures { Ends (bound_refused bound) (W.state out.old) (W.state out.new) result }
{
    let mut buffer = Buffer::new();
    refuse(out, 5, b"bound ", buffer.format(bound).as_bytes())
}
