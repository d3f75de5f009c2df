ghost use Rattle.std.specs.Prelude.{◌≡◌, ◌⊎◌, ◌<◌, ◌++◌, ◌∷◌, []};
ghost use Rattle.cell_words.specs.Layout.{cells};
ghost use Rattle.cell_words.specs.Seats.{plan_of, done_of};
ghost use Rattle.fill_crew.specs.Crews.{IsIdle, HasWorked};
ghost use Rattle.airy_wait.specs.Waits.{FillsInOrder, IsPassed, KnowsBelow};

use crate::Bell;
use crate::waits::look_wait;
use cell_words::{Cells, Claim, CountSeat, Countdown};
use std::sync::Wait;

/// A worker's round: it fills each rank that is left in plan order, waits for the needs of a rank that others fill, and at the end for
/// the ranks that others have claimed. Afterwards the seat knows every rank. It rings after each fill, and so are the others to do.
pub fn fill_round<R: Wait>(rt: &R, bell: &Bell, board: &Countdown, seat: &mut CountSeat)
    requires { IsIdle board.now seat.old }
    ensures back { HasWorked board.now seat.old seat.new }
    ensures order { FillsInOrder (cells (plan_of board.now)) seat.old seat.new }
    ensures knows { KnowsBelow (cells (plan_of board.now)) seat.new }
{
    let len = board.plan().len();
    for rank in 0..len {
        fill_in_turn(rt, bell, board, seat, rank);
    }
    for awaited in 0..len {
        look_wait(rt, bell, board, seat, awaited);
    }
}

/// Fills a rank and rings. It waits for the bell while needs of the rank are to sign, and passes over a rank that another caller has
/// claimed. The count is read before the claim, so that no ring behind the claim is lost.
fn fill_in_turn<R: Wait>(rt: &R, bell: &Bell, board: &Countdown, seat: &mut CountSeat, rank: u32)
    requires seat { IsIdle board.now seat.old }
    requires rank { rank < cells (plan_of board.now) }
    ensures back { HasWorked board.now seat.old seat.new }
    ensures fills { (done_of seat.new ≡ done_of seat.old) ⊎ (done_of seat.new ≡ done_of seat.old ++ rank ∷ []) }
    ensures passed { IsPassed seat.new rank }
{
    for _ in rt.forever() {
        let seen = bell.count(rt);
        match board.claim(seat, rank) {
            Claim::Mine => {
                board.fill(seat, rank, |_| {});
                bell.ring(rt);
                return;
            }
            Claim::Needs { left: _ } => {}
            Claim::Taken | Claim::Done => return,
        }
        bell.wait_past(rt, seen);
    }
    unreachable!()
}
