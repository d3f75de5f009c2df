ghost use Rattle.std.specs.Prelude.{◌≡◌, ℕ, ◌<◌, false};
ghost use Rattle.amp_plan.specs.Places.{place_in};
ghost use Rattle.amp_terms.specs.declared.Outcome.TheVariants.{Blocked};
ghost use Rattle.cell_words.specs.Layout.{cells};
ghost use Rattle.ask_seats.specs.Replies.{reply_of};
ghost use Rattle.ask_seats.specs.Sessions.{is_rank};
ghost use Rattle.ask_seats.specs.Asks.{IsAnswer, looks_at, reply_at};

use crate::Answer;
use airy_index::Key;
use amp_plan::{Place, Plan};
use amp_terms::Outcome;
use cell_words::{Cells, Look};

/// One caller's asks at a board, by a seat of it.
pub struct Asker<'a, B: Cells> {
    pub board: &'a B,
    pub seat: B::Seat,
}

impl<'a, B: Cells> Asker<'a, B> {
    /// Asks of a board by a seat of it.
    pub fn of(board: &'a B, seat: B::Seat) -> Asker<'a, B>
        ensures { (result.board ≡ board.entry) × (result.seat ≡ seat) }
    {
        Asker { board, seat }
    }

    /// The seat, with what it had and what the asks gave it.
    pub fn into_seat(self) -> B::Seat
        ensures { result ≡ self.entry.seat }
    {
        let Asker { board: _, seat } = self;
        seat
    }

    /// Asks for a key: what its place says, or what one look at its cell finds.
    pub fn ask(&mut self, key: &Key) -> Answer
        requires seat { B.IsSeat self.old.board.now self.old.seat }
        ensures board { self.new.board ≡ self.old.board }
        ensures seat { B.IsSeat self.new.board.now self.new.seat }
        ensures standing { B.standing self.new.seat ≡ B.standing self.old.seat }
        ensures looks { B.looks self.new.seat ≡ looks_at (place_in (B.plan_of self.old.board.now) key.now) (B.looks self.old.seat) }
        ensures idle { is_rank (place_in (B.plan_of self.old.board.now) key.now) ≡ false → self.new.seat ≡ self.old.seat }
        ensures keeps { (r : ℕ) → B.Knows self.old.seat r → B.Knows self.new.seat r }
        ensures answer { IsAnswer (B.plan_of self.old.board.now) key.now (B.Knows self.old.seat) (B.Knows self.new.seat)
            (B.ShowsUnfilled self.new.seat) (B.latest self.new.seat) result }
    {
        let plan = self.board.plan();
        plan.needs_fact();
        plan.planned_fact();
        key.validity_fact();
        match plan.rank_of(key) {
            Place::At(rank) => match self.board.look(&mut self.seat, rank) {
                Look::Filled(outcome) => tell(plan, key, &outcome),
                Look::Empty { word } => Answer::NotYet { word },
            },
            Place::Zero => Answer::Zero,
            Place::Beyond => Answer::Beyond,
            Place::BadIndex => Answer::BadIndex,
        }
    }
}

/// The outcome of a planned key.
#[tactic(auto, unfolding(crate::specs::Sessions::outcome_reply, crate::specs::Replies::reply_of))]
fn tell(plan: &Plan, key: &Key, outcome: &Outcome) -> Answer
    requires { (q : ℕ) → outcome.now ≡ Blocked q → q < cells plan.now }
    ensures { reply_of result ≡ reply_at plan.now key.now outcome.now }
{
    match outcome {
        Outcome::Value(value) => Answer::Value(*value, plan.letter(key)),
        Outcome::Over => Answer::Over,
        Outcome::Blocked { first } => Answer::Blocked(plan.key(*first)),
    }
}
