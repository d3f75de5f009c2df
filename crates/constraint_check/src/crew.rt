// The check of every pivot by several threads.
ghost use Rattle.std.specs.Prelude.{◌≡◌, ◌+◌, ◌<◌, ◌≤◌, length, IfOk};
ghost use Rattle.amp_plan.specs.Plans.{tensors_of, keys_of};
ghost use Rattle.amp_terms.specs.Tables.{full_table};
ghost use Rattle.constraint_check.specs.Pivots.{HoldsValues, HasPassed, PassTo, PassInPiece, cut_at};
ghost use Rattle.constraint_check.specs.Ends.{verdict_from};
ghost use Rattle.constraint_check.specs.Checked.{IsChecked};

use crate::CheckEnd;
use crate::keys::check_passed;
use crate::pivots::{Pivots, first_failing};
use amp_plan::Plan;
use amp_terms::{Table, TableOutcomes};
use std::alloc::{AllocError, Global};
use std::thread;
use std::thread::Threads;

/// What `check_table` answers, where so many threads beside the calling one take part.
pub fn check_crew<R: Threads + Sync>(
    rt: &R,
    alloc: Global,
    plan: &Plan,
    table: &Table,
    crew: u8,
) -> CheckEnd
    requires outcomes { table.now ≡ full_table (tensors_of plan.now) plan.now.bound }
    requires len { length table.now ≡ length (keys_of plan.now) }
    requires crew { crew ≤ 16 }
    ensures { IsChecked plan.now table.now result }
{
    check_passed(plan, table, passed_by(rt, alloc, plan, table, crew))
}

/// A rank below which the keys of a table of Values pass: found by a crew, or 0 for want of memory.
fn passed_by<R: Threads + Sync>(rt: &R, alloc: Global, plan: &Plan, table: &Table, crew: u8) -> u32
    requires outcomes { table.now ≡ full_table (tensors_of plan.now) plan.now.bound }
    requires len { length table.now ≡ length (keys_of plan.now) }
    requires crew { crew ≤ 16 }
    ensures { HasPassed plan.now table.now result }
{
    if table.first_not_value().is_some() {
        return 0;
    }
    reached(rt, alloc, plan, table, u32::from(crew) + 1).unwrap_or(0)
}

/// A rank below which the keys pass, the first that fails where one does, found by the pieces.
fn reached<R: Threads + Sync>(
    rt: &R,
    alloc: Global,
    plan: &Plan,
    table: &Table,
    pieces: u32,
) -> Result<u32, AllocError>
    requires values { HoldsValues plan.now table.now }
    requires pieces { (0 < pieces) × (pieces ≤ 17) }
    ensures within { IfOk result (λ r. r ≤ length (keys_of plan.now)) }
    ensures passed { IfOk result (λ r. verdict_from plan.now 0 ≡ verdict_from plan.now r) }
{
    plan.limits_fact();
    let len = plan.len();
    let ranks = thread::map_indices(
        rt,
        alloc,
        pieces as usize,
        &|k|
            requires { HoldsValues plan.now table.now × (k < pieces) × (pieces ≤ 17) }
            ensures { PassInPiece plan.entry.now pieces k result }
        { pass_piece(plan, table, pieces, k as u32) },
    )?;
    for k in 0..pieces {
        let rank = ranks[k as usize];
        if rank < cut(len, pieces, k + 1) {
            return Ok(rank);
        }
    }
    Ok(len)
}

/// The first rank of a piece whose key fails, or the piece's end.
fn pass_piece(plan: &Plan, table: &Table, pieces: u32, k: u32) -> u32
    requires values { HoldsValues plan.now table.now }
    requires pieces { (k < pieces) × (pieces ≤ 17) }
    ensures { PassInPiece plan.now pieces k result }
{
    plan.limits_fact();
    let len = plan.len();
    let from = cut(len, pieces, k);
    let to = cut(len, pieces, k + 1);
    pass(plan, table, from, to)
}

/// The first rank from one to another whose key fails, or the other.
fn pass(plan: &Plan, table: &Table, from: u32, to: u32) -> u32
    requires values { HoldsValues plan.now table.now }
    requires from { from ≤ to }
    requires to { to ≤ length (keys_of plan.now) }
    ensures { PassTo plan.now from to result }
{
    match first_failing(plan, &mut TableOutcomes { table }, from, to, Pivots::Others) {
        None => to,
        Some(failure) => failure.rank,
    }
}

/// The rank at which a piece begins, where so many ranks are cut into pieces whose lengths differ by at most 1.
#[tactic(auto, unfolding(crate::specs::Pivots::cut_at))]
fn cut(len: u32, pieces: u32, k: u32) -> u32
    requires { (len ≤ 200000) × (0 < pieces) × (pieces ≤ 17) × (k ≤ pieces) }
    ensures { result ≡ cut_at len pieces k }
{
    k * (len / pieces) + k.min(len % pieces)
}
