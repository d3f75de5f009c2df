// How a board begins with the outcomes of a table.
ghost use Rattle.std.specs.Prelude.{◌≡◌, ◌⊎◌, ℕ, suc, ◌+◌, ◌*◌, ◌<◌, ◌≤◌, length, IfOk};
ghost use Rattle.std.specs.Prelude.{get_or, None, not, slice_index, vec_len, vec_capacity};
ghost use Rattle.amp_plan.specs.Needs.{needs_at};
ghost use Rattle.cell_words.specs.Countdown.{FILLED, count_of};
ghost use Rattle.cell_words.specs.Layout.{cells};
ghost use Rattle.cell_words.specs.Resuming.{carries, carried_in, CanResume, AreResumed};
ghost use Rattle.cell_words.specs.Starts.{can_start, starts};
ghost use Rattle.cell_words.specs.Words.{word_of, IsSized};

use crate::countdown::FILLED_WORD;
use crate::words::{encode, is_sized};
use amp_plan::Plan;
use amp_terms::{Outcome, Table};
use std::alloc::{AllocError, Global};

/// What a table has at a rank: nothing past its end.
fn carried_at(table: &Table, rank: u32) -> Option<Outcome>
    ensures { result ≡ get_or table.now rank None }
{
    if rank < table.len() {
        table.outcome(rank)
    } else {
        None
    }
}

/// The ranks at which the table has an outcome, in a list with room for more.
pub(crate) fn carried_ranks(alloc: Global, table: &Table, room: u32) -> Result<Vec<u32>, AllocError>
    requires { length table.now ≤ room }
    ensures ranks { IfOk result (λ v. v.items ≡ carried_in table.now) }
    ensures room { IfOk result (λ v. room ≤ vec_capacity v) }
{
    let mut ranks = Vec::with_capacity(alloc, room as usize)?;
    for rank in 0..table.len() {
        if carried_at(table, rank).is_some() {
            ranks.push(rank)?;
        }
    }
    Ok(ranks)
}

/// The number of a rank's needs that the table doesn't carry.
fn needs_left(plan: &Plan, table: &Table, rank: u32) -> u64
    requires { rank < cells plan.now }
    ensures { result ≡ count_of (λ q. not (carries table.now q)) (needs_at plan.now rank) }
{
    let mut left = 0u64;
    let needs = plan.needs(rank);
    for i in 0..needs.len() {
        if carried_at(table, needs[i]).is_none() {
            left += 1;
        }
    }
    left
}

/// Writes the words of a filled cell.
fn put_cell(words: &mut Vec<u64>, rank: u32, outcome: &Outcome)
    requires { 5 * rank + 5 ≤ vec_len words.old }
    ensures len { vec_len words.new ≡ vec_len words.old }
    ensures state { slice_index words.new.items (5 * rank) ≡ FILLED }
    ensures values { (k : ℕ) → k < 4 → slice_index words.new.items (5 * rank + suc k) ≡ word_of outcome.now k }
    ensures others { (i : ℕ) → (i < 5 * rank) ⊎ (5 * rank + 5 ≤ i) → slice_index words.new.items i ≡ slice_index words.old.items i }
    ensures sized { IsSized outcome.now }
{
    is_sized(outcome);
    let (a, b, c, d) = encode(*outcome);
    let at = 5 * rank as usize;
    words[at] = FILLED_WORD;
    words[at + 1] = a;
    words[at + 2] = b;
    words[at + 3] = c;
    words[at + 4] = d;
}

/// Writes the words of all cells.
#[tactic(auto, unfolding(crate::specs::Layout::code_of))]
fn put_cells(plan: &Plan, table: &Table, words: &mut Vec<u64>)
    requires can { CanResume plan.now table.now }
    requires long { 5 * cells plan.now ≤ vec_len words.old }
    requires zero { (i : ℕ) → slice_index words.old.items i ≡ 0 }
    ensures len { vec_len words.new ≡ vec_len words.old }
    ensures words { AreResumed plan.now table.now (cells plan.now) words.new.items }
{
    for rank in 0..plan.len() {
        match carried_at(table, rank) {
            Some(outcome) => put_cell(words, rank, &outcome),
            None => words[5 * rank as usize] = needs_left(plan, table, rank),
        }
    }
}

/// The words of a board.
pub(crate) fn resumed_words(
    alloc: Global,
    plan: &Plan,
    table: &Table,
) -> Result<Vec<u64>, AllocError>
    requires { CanResume plan.now table.now }
    ensures some { IfOk result (λ v. 0 < vec_len v) }
    ensures long { IfOk result (λ v. 5 * cells plan.now ≤ vec_len v) }
    ensures words { IfOk result (λ v. AreResumed plan.now table.now (cells plan.now) v.items) }
{
    plan.limits_fact();
    let cells = plan.len().max(1);
    let mut words = vec![in alloc; 0u64; 5 * cells as usize]?;
    put_cells(plan, table, &mut words);
    Ok(words)
}

/// Whether a rank isn't carried, and all its needs are.
fn is_ready(plan: &Plan, table: &Table, rank: u32) -> bool
    requires { rank < cells plan.now }
    ensures { result ≡ can_start plan.now (carried_in table.now) rank }
{
    if carried_at(table, rank).is_some() {
        return false;
    }
    needs_left(plan, table, rank) == 0
}

/// The ranks that can be claimed at the start.
pub(crate) fn start_ranks(alloc: Global, plan: &Plan, table: &Table) -> Result<Vec<u32>, AllocError>
    ensures { IfOk result (λ v. v.items ≡ starts plan.now (carried_in table.now)) }
{
    let mut ranks = Vec::new(alloc);
    for rank in 0..plan.len() {
        if is_ready(plan, table, rank) {
            ranks.push(rank)?;
        }
    }
    Ok(ranks)
}
