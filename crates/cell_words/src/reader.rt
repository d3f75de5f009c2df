// The outcomes of the ranks that a seat knows, as a pivot sum reads them.
ghost use Rattle.std.specs.Prelude.{◌≡◌, ◌<◌, ◌↔◌};

use crate::countdown::{CountSeat, Countdown};
use amp_terms::{Outcome, Seen};

/// What the seat knows of the ranks below one.
#[derive(Drop)]
pub(crate) struct Reader<'a> {
    pub(crate) board: &'a Countdown,
    pub(crate) seat: &'a mut CountSeat,
    pub(crate) rank: u32,
}

impl Seen for Reader<'_> {
    ghost use Rattle.std.specs.Prelude.{ℕ, ◌<◌};
    ghost use Rattle.cell_words.specs.Layout.{cells, lower_outcomes};
    ghost use Rattle.cell_words.specs.Countdown.{Known};
    ghost use Rattle.cell_words.specs.Seats.{HasToken, view_of, plan_of};
    ghost use Rattle.cell_words.specs.declared.countdown.CountSeat.{CountSeat};

    // The reference to the seat, and the seat with its whole view.
    ghost Base = { ℕ × CountSeat };

    ghost made_over = { λ r. (r.seat.ghost_name, r.seat.now) };

    ghost has = { λ r k. HasToken r.board.now r.seat.now.place × Known (view_of r.seat.now) k
        × (k < r.rank) × (r.rank < cells (plan_of r.board.now)) };

    ghost shown = { λ r. lower_outcomes (plan_of r.board.now) r.rank };

    fn at(&mut self, rank: u32) -> Outcome {
        self.board.outcome(self.seat, rank)
    }
}
