// Filling a cell with all seats in hand.
ghost use Rattle.std.specs.Prelude.{◌≡◌, ℕ, ◌+◌, ◌<◌, ◌≤◌, ◌++◌, [], ◌∷◌, length, true, false, Some, None, slice_index_or};
ghost use Rattle.amp_plan.specs.Needs.{has};
ghost use Rattle.cell_words.specs.Layout.{cells};
ghost use Rattle.cell_words.specs.Countdown.{tail_of};

use crate::countdown::{CountSeat, Countdown};
use crate::plays::Parts;
use crate::view::View;
use atomic_table::Seat;

impl Countdown {
    ghost use Rattle.cell_words.specs.declared.view.Act.{Act};
    ghost use Rattle.cell_words.specs.Countdown.{act_in, IsWhole};
    ghost use Rattle.cell_words.specs.Seats.{IsResting, IsToken, view_of, plan_of, number_of, held_of, done_of, HasSameDone};
    ghost use Rattle.cell_words.specs.Deals.{AreSeats, AreAll, AreTaken, IsGathered, IsAfter};
    ghost use Rattle.cell_words.specs.Deals.{EachIs, OthersAre, KnowsNeeds, first_receipt, receipts_of};
    ghost use Rattle.cell_words.specs.declared.countdown.CountSeat.{CountSeat};

    /// Fills a cell whose needs the seat knows, where it isn't filled. The seat has all portions, so no other can be at the cell.
    pub(crate) fn fill_first(&self, seat: &mut CountSeat, rank: u32)
        requires seat { IsResting self.now seat.old }
        requires whole { IsWhole (view_of seat.old) }
        requires rank { rank < cells (plan_of self.now) }
        requires knows { KnowsNeeds (plan_of self.now) rank seat.old }
        ensures seat { IsResting self.now seat.new }
        ensures number { number_of seat.new ≡ number_of seat.old }
        ensures held { held_of seat.old ≡ None → held_of seat.new ≡ None }
        ensures fills { act_in (view_of seat.old) rank ≡ None → done_of seat.new ≡ done_of seat.old ++ rank ∷ [] }
        ensures stays { (a : Act) → act_in (view_of seat.old) rank ≡ Some a → done_of seat.new ≡ done_of seat.old }
        ensures others { tail_of (view_of seat.new).portions ≡ tail_of (view_of seat.old).portions }
        ensures seen { (view_of seat.new).seen ≡ (view_of seat.old).seen ++ rank ∷ [] }
    {
        self.base.plan.needs_fact();
        self.base.plan.limits_fact();
        let word = self.exchange(seat, rank);
        if word != 0 {
            return;
        }
        self.fill_at(seat, rank, |_: u32| {});
        self.receipt(seat, rank);
    }

    /// Takes the tokens of all seats, and makes them one.
    pub(crate) fn gather(&self, seats: &mut [CountSeat]) -> Seat<(), View>
        requires seats { AreSeats self.now seats.old }
        ensures token { IsToken self.now result }
        ensures gathered { IsGathered (plan_of self.now) seats.old result.me.0 }
        ensures taken { AreTaken seats.old seats.new }
    {
        let Some(mut place) = seats[0].place.take() else {
            unreachable!()
        };
        for k in 1..seats.len() {
            let Some(other) = seats[k].place.take() else {
                unreachable!()
            };
            self.table.shared.join_seat::<Parts>(&mut place, other);
        }
        place
    }

    /// Fills a cell whose needs the first seat knows, with all seats in hand. Afterwards all seats know it.
    pub fn fill_alone(&self, seats: &mut [CountSeat], rank: u32)
        requires seats { AreAll self.now seats.old }
        requires rank { rank < cells (plan_of self.now) }
        requires knows { (d : CountSeat) → KnowsNeeds (plan_of self.now) rank (slice_index_or seats.old 0 d) }
        ensures seats { AreAll self.now seats.new }
        ensures len { length seats.new ≡ length seats.old }
        ensures after { EachIs (IsAfter rank) seats.old seats.new }
        ensures fills { (d : CountSeat) → has rank (receipts_of seats.old) ≡ false
            → first_receipt seats.new d ≡ first_receipt seats.old d ++ rank ∷ [] }
        ensures stays { (d : CountSeat) → has rank (receipts_of seats.old) ≡ true → first_receipt seats.new d ≡ first_receipt seats.old d }
        ensures others { OthersAre HasSameDone seats.old seats.new }
    {
        let place = self.gather(seats);
        seats[0].place = Some(place);
        self.fill_first(&mut seats[0], rank);
        let Some(place) = seats[0].place.take() else {
            unreachable!()
        };
        self.deal(place, seats);
    }
}
