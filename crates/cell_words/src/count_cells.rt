// The countdown board as a board of cells.
ghost use Rattle.std.specs.Prelude.{◌≡◌, ◌<◌};
ghost use Rattle.cell_words.specs.Layout.{cells, outcome_at};
ghost use Rattle.cell_words.specs.Countdown.{Known};

use crate::cells::{Cells, Look};
use crate::countdown::{CountSeat, Countdown, FILLED_WORD};
use crate::view::Standing;
use crate::words::decode;
use amp_plan::Plan;
use amp_terms::Outcome;

impl Countdown {
    ghost use Rattle.cell_words.specs.Seats.{HasToken, view_of, plan_of};

    /// The outcome of a rank that the seat knows.
    pub(crate) fn outcome(&self, seat: &mut CountSeat, rank: u32) -> Outcome
        requires token { HasToken self.now seat.old.place }
        requires known { Known (view_of seat.old) rank }
        requires rank { rank < cells (plan_of self.now) }
        ensures seat { seat.new ≡ seat.old }
        ensures outcome { result ≡ outcome_at (plan_of self.now) rank }
    {
        let a = self.word(seat, rank, 0);
        let b = self.word(seat, rank, 1);
        let c = self.word(seat, rank, 2);
        let d = self.word(seat, rank, 3);
        decode(a, b, c, d)
    }
}

impl Cells for Countdown {
    ghost use Rattle.cell_words.specs.Countdown.{Known};
    ghost use Rattle.cell_words.specs.Seats.{IsSeatOf, view_of, latest_word, IsLookAt};
    ghost use Rattle.cell_words.specs.Seats.{ShowsUnfilled as shows_unfilled, standing_of, plan_of as its_plan};

    type Seat = CountSeat;

    type Standing = Standing;

    ghost plan_of = { its_plan };

    ghost IsSeat = { IsSeatOf };

    ghost standing = { standing_of };

    ghost looks = { λ s. (view_of s).looks };

    ghost latest = { λ s. latest_word (view_of s).latest };

    ghost LookedAt = { λ s r. IsLookAt (view_of s).latest r };

    ghost ShowsUnfilled = { λ s r. shows_unfilled (view_of s).latest r };

    ghost Knows = { λ s r. Known (view_of s) r };

    fn plan(&self) -> &Plan {
        &self.base.plan
    }

    fn look(&self, seat: &mut CountSeat, rank: u32) -> Look {
        airy_math::needs_first();
        self.base.plan.planned_fact();
        self.base.plan.needs_fact();
        let word = self.load(seat, rank);
        if word == FILLED_WORD {
            Look::Filled(self.outcome(seat, rank))
        } else {
            Look::Empty { word }
        }
    }
}
