ghost use Rattle.std.specs.Prelude.{◌≡◌, ◌<◌, ◌≤◌, length, IfOk, IfErr};
ghost use Rattle.serde_json.specs.Data.{Items};
ghost use Rattle.serde_json.specs.View.{view, items_view};
ghost use Rattle.amp_plan.specs.Plans.{keys_of};
ghost use Rattle.airy_json.specs.Reading.{IsPlanOf, first_bad, cell_values, cells_answer, bound_answer, form_answer, form_of, answer_of};
ghost use Rattle.airy_json.specs.Given.{Refuses, Says, ReadsDocument, HasCause};
ghost use Rattle.airy_json.specs.Steps.{kind_seen};

use crate::cells::read_cells;
use crate::forms::read_form;
use crate::kinds::{TableKind, read_kind, tensors_of};
use crate::refusals::JsonErr;
use airy_io::Source;
use airy_math::below_dim;
use amp_plan::{Plan, PlanCause, same_limits};
use frac128::Frac;
use named_families::MakeErr;
use serde_json::Value;
use std::alloc::Global;
use tensor_text::{TextErr, read_bytes};

/// The most bytes of a document.
const MOST_BYTES: usize = 16_777_216;

/// What a document gives: a plan, and a value for each of its keys.
#[derive(Drop)]
pub struct Given {
    pub plan: Plan,
    pub values: Vec<Frac>,
}

/// The plan of a kind up to a bound from 1 to 24.
fn make_plan(alloc: Global, kind: TableKind, bound: u8) -> Result<Plan, JsonErr>
    requires some { 0 < bound }
    requires most { bound ≤ 24 }
    ensures plan { IfOk result (IsPlanOf (kind_seen kind) bound) }
    ensures answer { IfOk result (λ plan. (ds : Items) → bound_answer (kind_seen kind) bound ds
        ≡ cells_answer (kind_seen kind) bound (cell_values (keys_of plan) ds) (first_bad (keys_of plan) ds)) }
    ensures cause { IfErr result (λ e. (ds : Items) → Refuses e (bound_answer (kind_seen kind) bound ds)) }
{
    let tensors = match tensors_of(alloc, kind, bound) {
        Ok(tensors) => tensors,
        Err(MakeErr::Over { k }) => return Err(JsonErr::Make { k }),
        Err(MakeErr::NoMemory) => return Err(JsonErr::NoMemory),
    };
    below_dim();
    same_limits();
    match Plan::make(alloc, tensors, bound) {
        Ok(plan) => Ok(plan),
        Err(refusal) => match refusal.cause {
            PlanCause::NoMemory => Err(JsonErr::NoMemory),
            cause => Err(JsonErr::Plan { cause }),
        },
    }
}

/// Reads the cells of a kind's table up to a bound.
#[tactic(auto, using(crate::proofs::PlanLemmas::bad_bound, crate::proofs::CellLemmas::bad_cell))]
fn read_table_of(
    alloc: Global,
    kind: TableKind,
    bound: u64,
    cells: &Vec<Value>,
) -> Result<Given, JsonErr>
    ensures { Says result (bound_answer (kind_seen kind) bound (items_view cells.now.items)) }
{
    if bound == 0 || bound > 24 {
        return Err(JsonErr::Bound { got: bound });
    }
    let plan = make_plan(alloc, kind, bound as u8)?;
    plan.limits_fact();
    let values = read_cells(alloc, plan.keys(), cells)?;
    Ok(Given { plan, values })
}

/// Reads a document that is JSON.
#[tactic(auto, unfolding(crate::specs::Reading::form_answer, crate::specs::Reading::kind_answer))]
fn read_data(alloc: Global, value: &Value) -> Result<Given, JsonErr>
    ensures { Says result (form_answer (form_of (view value.now))) }
{
    let Some(form) = read_form(value) else {
        return Err(JsonErr::Form);
    };
    // No string of a document is longer than the document, so this is never met; it spares a proof of that.
    if form.kind.len() > MOST_BYTES {
        return Err(JsonErr::NoMemory);
    }
    let kind = read_kind(alloc, form.kind)?;
    read_table_of(alloc, kind, form.bound, form.cells)
}

/// Reads the bytes of a document.
fn read_document(alloc: Global, bytes: &[u8]) -> Result<Given, JsonErr>
    requires { length bytes.now ≤ 16777216 }
    ensures { Says result (answer_of bytes.now) }
{
    match Value::from_slice(alloc, bytes) {
        Ok(value) => read_data(alloc, &value),
        Err(e) if e.is_memory() => Err(JsonErr::NoMemory),
        Err(_) => Err(JsonErr::NotJson),
    }
}

/// Reads a document from a source: JSON in UTF-8, of which the value is an object with exactly the members `bound`, `cells` and
/// `kind`. Where a name stands more than once in an object, the last one counts. Whole numbers are written in digits alone, not as
/// `1.0`, `1e0` or `-0`.
///
/// `kind` is `wk`, `bgw` or `wp`, or a text of tensors, which needn't be canonical. `bound` is from 1 to 24, and the plan is that of
/// the kind's tensors up to it. `cells` has one object for each planned key in plan order, with exactly the members `g` and `i`, the
/// key's genus and indices, and `v`, a string with a value; the values are these.
///
/// Each refusal comes exactly where it is the first of `JsonErr` that meets the bytes, but for these two: `ReadFault` comes only where the
/// source's count of faults rose, and every other answer leaves that count; `NoMemory` may come at any step. `TooLong` comes where the
/// source gives a byte beyond 16,777,216, and reading stops at that byte; all else after the source was read to its end.
pub fn read_table<S: Source>(alloc: Global, src: &mut S) -> Result<Given, JsonErr>
    ensures read { ReadsDocument (S.state src.old) (S.state src.new) result }
    ensures cause { HasCause (S.state src.old).faults (S.state src.new).faults result }
{
    match read_bytes(alloc, src, MOST_BYTES) {
        Ok(bytes) => read_document(alloc, bytes.as_slice()),
        Err(TextErr::ReadFault) => Err(JsonErr::ReadFault),
        Err(TextErr::TooLong) => Err(JsonErr::TooLong),
        Err(_) => Err(JsonErr::NoMemory),
    }
}
