// Filling what workers left.
ghost use Rattle.std.specs.Prelude.{◌≡◌, ◌≤◌, ◌+◌, vec_len, IfOk, IfErr};
ghost use Rattle.amp_plan.specs.Plans.{tensors_of};
ghost use Rattle.amp_terms.specs.Tables.{full_table};
ghost use Rattle.cell_words.specs.Layout.{cells};
ghost use Rattle.cell_words.specs.Closings.{AreReceipts, receipts_in};
ghost use Rattle.cell_words.specs.Seats.{plan_of, seats_of};
ghost use Rattle.cell_words.specs.Deals.{AreAll};
ghost use Rattle.fill_crew.specs.Crews.{AreSwept};

use crate::Gate;
use crate::crew::fill_beside;
use amp_plan::Plan;
use cell_words::{BoardErr, Cells, Closed, CountSeat, Countdown};
use std::alloc::Global;
use std::thread::Threads;

/// Fills every cell that isn't filled, with all seats of the board. Afterwards every seat knows every rank.
pub fn sweep(board: &Countdown, seats: &mut [CountSeat])
    requires { AreAll board.now seats.old }
    ensures { AreSwept board.now (cells (plan_of board.now)) seats.old seats.new }
{
    let plan = board.plan();
    plan.needs_fact();
    for rank in 0..plan.len() {
        board.fill_alone(seats, rank);
    }
}

/// Fills what is left of a board and closes it. These are all its seats.
fn close_swept(board: Countdown, mut seats: Vec<CountSeat>) -> Closed
    requires { AreAll board seats.items }
    ensures plan { result.plan ≡ plan_of board }
    ensures table { result.table ≡ full_table (tensors_of (plan_of board)) (plan_of board).bound }
    ensures many { vec_len result.receipts ≡ seats_of board }
    ensures receipts { AreReceipts result.table (receipts_in result) }
{
    sweep(&board, seats.as_mut_slice());
    board.close(seats)
}

/// Fills a board by workers with all seats but the last, sweeps and closes it. These are all its seats.
pub(crate) fn fill_board<R: Threads + Sync, G: Gate + Sync>(
    rt: &R,
    alloc: Global,
    board: Countdown,
    mut seats: Vec<CountSeat>,
    gate: &G,
) -> Closed
    requires seats { AreAll board seats.items }
    requires few { vec_len seats ≤ 17 }
    ensures plan { result.plan ≡ plan_of board }
    ensures table { result.table ≡ full_table (tensors_of (plan_of board)) (plan_of board).bound }
    ensures many { vec_len result.receipts ≡ seats_of board }
    ensures receipts { AreReceipts result.table (receipts_in result) }
{
    let Some(own) = seats.pop() else {
        unreachable!()
    };
    let (mut seats, ()) = fill_beside(rt, alloc, &board, seats, gate, &mut || {});
    let Ok(()) = seats.push(own) else {
        unreachable!()
    };
    close_swept(board, seats)
}

/// The plan with the outcome of each rank, filled by so many workers.
pub fn fill_all<R: Threads + Sync, G: Gate + Sync>(
    rt: &R,
    alloc: Global,
    plan: Plan,
    crew: u8,
    gate: &G,
) -> Result<Closed, BoardErr>
    requires { crew ≤ 16 }
    ensures plan { IfOk result (λ c. c.plan ≡ plan) }
    ensures table { IfOk result (λ c. c.table ≡ full_table (tensors_of plan) plan.bound) }
    ensures many { IfOk result (λ c. vec_len c.receipts ≡ crew + 1) }
    ensures receipts { IfOk result (λ c. AreReceipts c.table (receipts_in c)) }
    ensures back { IfErr result (λ e. e.plan ≡ plan) }
{
    let (board, seats) = Countdown::make(alloc, plan, crew + 1)?;
    Ok(fill_board(rt, alloc, board, seats, gate))
}
