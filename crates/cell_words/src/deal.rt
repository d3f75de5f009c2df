// Dealing the portions of one view to seats.
ghost use Rattle.std.specs.Prelude.{◌≡◌, ◌<◌, length};

use crate::countdown::{CountSeat, Countdown};
use crate::plays::Parts;
use crate::view::View;
use atomic_table::Seat;

impl Countdown {
    ghost use Rattle.cell_words.specs.Seats.{IsToken, plan_of};
    ghost use Rattle.cell_words.specs.Deals.{AreReady, IsDealt, EachIs};

    /// Splits the token, and gives each seat one portion, in order.
    pub(crate) fn deal(&self, mut place: Seat<(), View>, seats: &mut [CountSeat])
        requires token { IsToken self.now place }
        requires some { 0 < length seats.old }
        requires many { length place.me.0.portions ≡ length seats.old }
        requires ready { AreReady (plan_of self.now) place.me.0.portions seats.old }
        ensures len { length seats.new ≡ length seats.old }
        ensures dealt { EachIs (IsDealt self.now place.me.0) seats.old seats.new }
    {
        let last = seats.len() - 1;
        for k in 0..last {
            let one = self.table.shared.split_seat::<Parts>(&mut place);
            seats[k].place = Some(one);
        }
        seats[last].place = Some(place);
    }
}
