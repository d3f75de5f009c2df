// Claiming a cell.
ghost use Rattle.std.specs.Prelude.{◌≡◌, ◌<◌, ℕ, None};
ghost use Rattle.cell_words.specs.Layout.{cells};

use crate::countdown::{CLAIMED_WORD, CountSeat, Countdown, FILLED_WORD};

/// What a claim finds.
#[derive(Clone, Copy, Debug, PartialEq, Eq)]
pub enum Claim {
    /// The cell is the caller's to fill.
    Mine,
    /// So many needs are still to sign.
    Needs { left: u64 },
    /// Another caller has claimed it.
    Taken,
    /// It is filled.
    Done,
}

impl Countdown {
    ghost use Rattle.cell_words.specs.Countdown.{Known};
    ghost use Rattle.cell_words.specs.Seats.{IsSeatOf, view_of, plan_of, number_of, held_of, done_of};
    ghost use Rattle.cell_words.specs.Claims.{Claims};

    /// Claims a cell whose needs are all filled, by one compare and exchange.
    pub fn claim(&self, seat: &mut CountSeat, rank: u32) -> Claim
        requires seat { IsSeatOf self.now seat.old }
        requires free { held_of seat.old ≡ None }
        requires rank { rank < cells (plan_of self.now) }
        ensures seat { IsSeatOf self.now seat.new }
        ensures number { number_of seat.new ≡ number_of seat.old }
        ensures done { done_of seat.new ≡ done_of seat.old }
        ensures answer { Claims (plan_of self.now) rank (view_of seat.old) (view_of seat.new) (held_of seat.new) result }
        ensures keeps { (r : ℕ) → Known (view_of seat.old) r → Known (view_of seat.new) r }
    {
        let word = self.exchange(seat, rank);
        if word == 0 {
            seat.held = Some(rank);
            return Claim::Mine;
        }
        if word == CLAIMED_WORD {
            return Claim::Taken;
        }
        if word == FILLED_WORD {
            return Claim::Done;
        }
        Claim::Needs { left: word }
    }
}
