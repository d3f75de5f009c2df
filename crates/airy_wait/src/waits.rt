ghost use Rattle.std.specs.Prelude.{◌≡◌, ℕ, ◌<◌, false};
ghost use Rattle.amp_plan.specs.Places.{place_in};
ghost use Rattle.amp_terms.specs.declared.Outcome.TheVariants.{Blocked};
ghost use Rattle.cell_words.specs.Layout.{cells, outcome_at};
ghost use Rattle.cell_words.specs.Looks.{Reaches};
ghost use Rattle.cell_words.specs.Seats.{IsSeatOf, plan_of, standing_of};
ghost use Rattle.ask_seats.specs.Counts.{Knows};
ghost use Rattle.ask_seats.specs.Sessions.{is_rank};
ghost use Rattle.ask_seats.specs.Asks.{reply_at};
ghost use Rattle.ask_seats.specs.Talks.{told_of, KnowsAll};
ghost use Rattle.airy_wait.specs.Waits.{told_reply};

use crate::Bell;
use airy_index::Key;
use amp_plan::{Place, Plan};
use amp_terms::Outcome;
use cell_words::{Cells, CountSeat, Countdown, Look};
use frac128::Frac;
use std::sync::Wait;

/// What an ask tells that waits for its answer.
#[derive(Drop)]
pub enum Told {
    /// The value of a planned key, with the power of the letter.
    Value(Frac, u16),
    /// The shape doesn't cover the key: every solution has 0 there.
    Zero,
    /// The sum of a planned key leaves the range.
    Over,
    /// A planned key rests on this key, which has no value.
    Blocked(Key),
    /// The Euler number is above the bound.
    Beyond,
    /// An index isn't below dim.
    BadIndex,
}

/// Asks for a key: what its place says, or, of a planned key, the outcome that its cell is filled with, for which it waits. The bell is
/// to be rung after each fill. It fills nothing, and takes no memory.
#[tactic(auto, unfolding(crate::specs::Waits::told_reply))]
pub fn ask_wait<R: Wait>(
    rt: &R,
    bell: &Bell,
    board: &Countdown,
    seat: &mut CountSeat,
    key: &Key,
) -> Told
    requires seat { IsSeatOf board.now seat.old }
    ensures seat { IsSeatOf board.now seat.new }
    ensures standing { standing_of seat.new ≡ standing_of seat.old }
    ensures idle { is_rank (place_in (plan_of board.now) key.now) ≡ false → seat.new ≡ seat.old }
    ensures keeps { (r : ℕ) → Knows seat.old r → Knows seat.new r }
    ensures tells { told_reply result ≡ told_of (plan_of board.now) key.now }
    ensures knows { KnowsAll (plan_of board.now) key.now (Knows seat.new) }
{
    let plan = board.plan();
    plan.needs_fact();
    plan.planned_fact();
    key.validity_fact();
    match plan.rank_of(key) {
        Place::At(rank) => tell(plan, key, &look_wait(rt, bell, board, seat, rank)),
        Place::Zero => Told::Zero,
        Place::Beyond => Told::Beyond,
        Place::BadIndex => Told::BadIndex,
    }
}

/// Looks at the cell of a rank until it is filled, and between two looks waits for the bell. The count is read before the look, so
/// that no ring behind the look is lost.
pub(crate) fn look_wait<R: Wait>(
    rt: &R,
    bell: &Bell,
    board: &Countdown,
    seat: &mut CountSeat,
    rank: u32,
) -> Outcome
    requires seat { IsSeatOf board.now seat.old }
    requires rank { rank < cells (plan_of board.now) }
    ensures seat { IsSeatOf board.now seat.new }
    ensures standing { standing_of seat.new ≡ standing_of seat.old }
    ensures keeps { (r : ℕ) → Knows seat.old r → Knows seat.new r }
    ensures outcome { result ≡ outcome_at (plan_of board.now) rank }
    ensures knows { (q : ℕ) → q < cells (plan_of board.now) → Reaches (plan_of board.now) rank q → Knows seat.new q }
{
    for _ in rt.forever() {
        let seen = bell.count(rt);
        if let Look::Filled(outcome) = board.look(seat, rank) {
            return outcome;
        }
        bell.wait_past(rt, seen);
    }
    unreachable!()
}

/// The outcome of a planned key.
#[tactic(auto, unfolding(ask_seats::specs::Sessions::outcome_reply, crate::specs::Waits::told_reply))]
fn tell(plan: &Plan, key: &Key, outcome: &Outcome) -> Told
    requires { (q : ℕ) → outcome.now ≡ Blocked q → q < cells plan.now }
    ensures { told_reply result ≡ reply_at plan.now key.now outcome.now }
{
    match outcome {
        Outcome::Value(value) => Told::Value(*value, plan.letter(key)),
        Outcome::Over => Told::Over,
        Outcome::Blocked { first } => Told::Blocked(plan.key(*first)),
    }
}
