ghost use Rattle.std.specs.Prelude.{◌≡◌, ◌≢◌, ℕ, ◌<◌, ◌≤◌, ◌++◌, codes, length, List, Some, None};
ghost use Rattle.airy_io.specs.Causes.{Writes};
ghost use Rattle.amp_plan.specs.Plans.{Planning, keys_of, tensors_of};
ghost use Rattle.amp_terms.specs.Tables.{first_without, full_table, value_at};
ghost use Rattle.run_reports.specs.Report.{Ends, EndsOrWants, Report};
ghost use Rattle.run_reports.specs.Tables.{rank_text, table_text, cause_report, stored_report};
ghost use Rattle.run_reports.specs.Forms.{count_text, formed_cells, formed_stored, plan_last, plan_rest, plan_summary, rank_last};

use crate::pivots::{refuse_orders, refuse_pivot};
use crate::report::{refuse_bound, refuse_key, refuse_memory, refuse_number, say};
use airy_io::{Failed, LineText, Sink, write_all};
use amp_plan::{Plan, PlanCause};
use amp_terms::{Table, write_value};
use constraint_check::{CheckEnd, check_crew};
use fill_crew::{Gate, fill_all};
use frac128::Frac;
use sparse_tensor::Tensors;
use std::alloc::Global;
use std::thread::Threads;

/// What is printed of a whole table that is a solution.
pub trait Form {
    ghost bytes: { Self → Planning → List ℕ };

    /// Prints it, of the table of a plan in which each key has a Value.
    fn print<W: Sink>(&self, alloc: Global, plan: &Plan, table: &Table, out: &mut W) -> u8
        requires full { table.now ≡ full_table (tensors_of plan.now) plan.now.bound }
        requires values { first_without table.now ≡ None }
        ensures { EndsOrWants (record { status = 0; bytes = bytes self.now plan.now }) (W.state out.old) (W.state out.new) result };
}

/// A line for each key.
#[derive(Drop)]
struct Rows;

impl Form for Rows {
    ghost use Rattle.run_reports.specs.Forms.{plan_rows};

    ghost bytes = { λ form p. plan_rows p };

    fn print<W: Sink>(&self, _alloc: Global, plan: &Plan, table: &Table, out: &mut W) -> u8 {
        print_table(plan, table, out)
    }
}

/// A summary of four lines: `cells N`, `needs N`, `last KEY VALUE` and `solution`.
#[derive(Drop)]
pub struct Summary;

impl Form for Summary {
    ghost use Rattle.run_reports.specs.Forms.{plan_summary};

    ghost bytes = { λ form p. plan_summary p };

    fn print<W: Sink>(&self, _alloc: Global, plan: &Plan, table: &Table, out: &mut W) -> u8 {
        print_summary(plan, table, out)
    }
}

/// Plans, fills and checks the table of stored tensors, and prints its lines.
pub fn print_stored<R: Threads + Sync, W: Sink, G: Gate + Sync>(
    rt: &R,
    alloc: Global,
    tensors: Tensors,
    bound: u8,
    workers: u8,
    gate: &G,
    out: &mut W,
) -> u8
    requires { workers ≤ 16 }
    ensures { EndsOrWants (stored_report tensors bound) (W.state out.old) (W.state out.new) result }
{
    print_formed(rt, alloc, tensors, bound, &Rows, workers, gate, out)
}

/// Plans, fills and checks the table of stored tensors, and prints it in a form.
pub fn print_formed<R: Threads + Sync, W: Sink, G: Gate + Sync, F: Form>(
    rt: &R,
    alloc: Global,
    tensors: Tensors,
    bound: u8,
    form: &F,
    workers: u8,
    gate: &G,
    out: &mut W,
) -> u8
    requires { workers ≤ 16 }
    ensures { EndsOrWants (formed_stored (F.bytes form.now) tensors bound) (W.state out.old) (W.state out.new) result }
{
    match Plan::make(alloc, tensors, bound) {
        Ok(plan) => fill_and_print(rt, alloc, plan, form, workers, gate, out),
        Err(refused) => refuse_plan(out, &refused.cause),
    }
}

/// Says why no plan is made.
#[tactic(auto, unfolding(crate::specs::Tables::cause_report))]
pub fn refuse_plan<W: Sink>(out: &mut W, cause: &PlanCause) -> u8
    ensures { Ends (cause_report cause.now) (W.state out.old) (W.state out.new) result }
{
    match cause {
        PlanCause::Bound { got } => refuse_bound(out, *got as u32),
        PlanCause::Cells { level } => refuse_number(out, 5, b"cells at level ", *level as u32),
        PlanCause::Edges { key } => refuse_key(out, 5, b"needs at ", key),
        PlanCause::NoMemory => refuse_memory(out),
    }
}

/// Fills the plan's table, checks every pivot, and prints the table; or names the first key without a Value, or the first pivot that
/// fails.
fn fill_and_print<R: Threads + Sync, W: Sink, G: Gate + Sync, F: Form>(
    rt: &R,
    alloc: Global,
    plan: Plan,
    form: &F,
    workers: u8,
    gate: &G,
    out: &mut W,
) -> u8
    requires { workers ≤ 16 }
    ensures { EndsOrWants (formed_cells (F.bytes form.now) plan) (W.state out.old) (W.state out.new) result }
{
    match fill_all(rt, alloc, plan, workers, gate) {
        Ok(filled) => {
            check_and_print(rt, alloc, &filled.plan, &filled.table, form, workers, out)
        }
        Err(_) => refuse_memory(out),
    }
}

/// Checks every pivot of a filled table by so many workers and this thread, and prints it.
fn check_and_print<R: Threads + Sync, W: Sink, F: Form>(
    rt: &R,
    alloc: Global,
    plan: &Plan,
    table: &Table,
    form: &F,
    workers: u8,
    out: &mut W,
) -> u8
    requires full { table.now ≡ full_table (tensors_of plan.now) plan.now.bound }
    requires workers { workers ≤ 16 }
    ensures { EndsOrWants (formed_cells (F.bytes form.now) plan.now) (W.state out.old) (W.state out.new) result }
{
    match check_crew(rt, alloc, plan, table, workers) {
        CheckEnd::NotValue { key } => refuse_key(out, 6, b"over at ", &key),
        CheckEnd::Over { key, pivot } => refuse_pivot(out, &key, pivot),
        CheckEnd::Orders {
            key,
            first,
            v1,
            second,
            v2,
        } => refuse_orders(out, &key, (first, v1), (second, v2)),
        CheckEnd::Solution => form.print(alloc, plan, table, out),
    }
}

/// Prints the summary of a whole table.
fn print_summary<W: Sink>(plan: &Plan, table: &Table, out: &mut W) -> u8
    requires { table.now ≡ full_table (tensors_of plan.now) plan.now.bound }
    ensures { Ends (record { status = 0; bytes = plan_summary plan.now }) (W.state out.old) (W.state out.new) result }
{
    match write_summary(plan, table, out) {
        Ok(()) => 0,
        Err(_) => 9,
    }
}

/// Writes the lines of the summary: `cells N`, `needs N`, `last KEY VALUE` and `solution`.
fn write_summary<W: Sink>(plan: &Plan, table: &Table, out: &mut W) -> Result<(), Failed>
    requires { table.now ≡ full_table (tensors_of plan.now) plan.now.bound }
    ensures { Writes (plan_summary plan.now) (W.state out.old) (W.state out.new) result }
{
    write_count(b"cells ", plan.len(), out)?;
    write_rest(plan, table, out)
}

/// Writes the lines behind the first.
fn write_rest<W: Sink>(plan: &Plan, table: &Table, out: &mut W) -> Result<(), Failed>
    requires { length table.now ≡ length (keys_of plan.now) }
    ensures { Writes (plan_rest plan.now table.now) (W.state out.old) (W.state out.new) result }
{
    write_count(b"needs ", plan.edges(), out)?;
    write_end(plan, table, out)
}

/// Writes the last key, and that the table is a solution.
fn write_end<W: Sink>(plan: &Plan, table: &Table, out: &mut W) -> Result<(), Failed>
    requires { length table.now ≡ length (keys_of plan.now) }
    ensures { Writes (plan_last plan.now table.now ++ codes "solution\n") (W.state out.old) (W.state out.new) result }
{
    write_last(plan, table, out)?;
    write_all(out, b"solution\n")
}

/// Writes a line with a number.
#[tactic(auto, unfolding(crate::specs::Forms::count_text))]
fn write_count<W: Sink>(what: &[u8], number: u32, out: &mut W) -> Result<(), Failed>
    requires { length what.now ≤ 16 }
    ensures { Writes (count_text what.now number) (W.state out.old) (W.state out.new) result }
{
    let mut line = LineText::new();
    line.put(what);
    line.put_number(number);
    line.put(b"\n");
    write_all(out, line.bytes())
}

/// Writes the line of the last key, where there is one with a Value.
fn write_last<W: Sink>(plan: &Plan, table: &Table, out: &mut W) -> Result<(), Failed>
    requires { length table.now ≡ length (keys_of plan.now) }
    ensures { Writes (plan_last plan.now table.now) (W.state out.old) (W.state out.new) result }
{
    match plan.len().checked_sub(1) {
        Some(last) => write_last_rank(plan, table, last, out),
        None => Ok(()),
    }
}

/// Writes the line of a rank as the last, where it has a Value.
#[tactic(auto, unfolding(crate::specs::Forms::last_text))]
fn write_last_rank<W: Sink>(
    plan: &Plan,
    table: &Table,
    rank: u32,
    out: &mut W,
) -> Result<(), Failed>
    requires cell { rank < length table.now }
    requires key { rank < length (keys_of plan.now) }
    ensures { Writes (rank_last plan.now rank (value_at table.now rank)) (W.state out.old) (W.state out.new) result }
{
    match table.value(rank) {
        Some(value) => write_row(b"last ", plan, rank, value, out),
        None => Ok(()),
    }
}

/// Prints a table.
pub fn print_table<W: Sink>(plan: &Plan, table: &Table, out: &mut W) -> u8
    requires { length table.now ≡ length (keys_of plan.now) }
    ensures { Ends (record { status = 0; bytes = table_text plan.now table.now }) (W.state out.old) (W.state out.new) result }
{
    match write_rows(plan, table, out) {
        Ok(()) => 0,
        Err(_) => 9,
    }
}

/// Writes the lines of a table, each by one call where the sink takes it whole.
fn write_rows<W: Sink>(plan: &Plan, table: &Table, out: &mut W) -> Result<(), Failed>
    requires { length table.now ≡ length (keys_of plan.now) }
    ensures { Writes (table_text plan.now table.now) (W.state out.old) (W.state out.new) result }
{
    for rank in 0..plan.len() {
        write_rank(plan, table, rank, out)?;
    }
    Ok(())
}

/// Writes the line of a rank, where it has a Value.
#[tactic(auto, unfolding(crate::specs::Tables::row_text))]
fn write_rank<W: Sink>(plan: &Plan, table: &Table, rank: u32, out: &mut W) -> Result<(), Failed>
    requires cell { rank < length table.now }
    requires key { rank < length (keys_of plan.now) }
    ensures { Writes (rank_text plan.now rank (value_at table.now rank)) (W.state out.old) (W.state out.new) result }
{
    match table.value(rank) {
        Some(value) => write_row(b"", plan, rank, value, out),
        None => Ok(()),
    }
}

/// Writes the line of a rank with its Value, behind some words.
#[tactic(auto, unfolding(crate::specs::Tables::row_text, amp_plan::specs::Places::letter_power, amp_plan::specs::Plans::tensors_of, sparse_tensor::specs::Entries::looked_up))]
fn write_row<W: Sink>(
    before: &[u8],
    plan: &Plan,
    rank: u32,
    value: Frac,
    out: &mut W,
) -> Result<(), Failed>
    requires rank { rank < length (keys_of plan.now) }
    requires short { length before.now ≤ 16 }
    ensures { Writes (before.now ++ rank_text plan.now rank (Some value)) (W.state out.old) (W.state out.new) result }
{
    let key = plan.key(rank);
    let mut name = [0u8; 128];
    let name_end = key.write_into(&mut name);
    let mut number = [0u8; 96];
    let number_end = write_value(value, plan.letter(&key), &mut number);
    let mut line = LineText::new();
    line.put(before);
    line.put(&name[..name_end]);
    line.put(b" ");
    line.put(&number[..number_end]);
    line.put(b"\n");
    write_all(out, line.bytes())
}
