ghost use Rattle.std.specs.Prelude.{◌≡◌, ℕ, ◌+◌, ◌*◌, ◌<◌, ◌≤◌, replicate, None};
ghost use Rattle.cell_words.specs.Layout.{cells};

use crate::cells::{Cells, Look};
use crate::level_plays::{Levels, LookStep, Part, Raise, Read, Write};
use crate::level_view::View;
use crate::words::decode;
use amp_plan::Plan;
use amp_terms::Outcome;
use atomic_table::{Seat, Table};
use std::alloc::Global;

/// A board whose cells are filled level by level, a level being the keys of one Euler number.
#[derive(Drop)]
pub struct Frontier {
    pub(crate) table: Table<(), View, Plan, Levels, Global>,
    pub(crate) plan: Plan,
    pub(crate) closing: amp_terms::Table,
    ghost sized: { table.shared.table_id.words ≡ 4 * cells plan + 1 },
    ghost few: { cells plan ≤ 200000 },
    ghost blank: { closing ≡ replicate (cells plan) None },
}

/// An asker's token on one frontier board.
#[derive(Drop)]
pub struct LevelSeat {
    pub(crate) place: Seat<(), View>,
}

/// The filler's token on one frontier board.
#[derive(Drop)]
pub struct FillSeat {
    pub(crate) place: Seat<(), View>,
    pub(crate) published: u8,
    pub(crate) outcomes: Vec<Outcome>,
}

impl Frontier {
    ghost use Rattle.airy_math.specs.Levels.{euler_of};
    ghost use Rattle.amp_plan.specs.Plans.{key_at};
    ghost use Rattle.cell_words.specs.Words.{IsSized};
    ghost use Rattle.cell_words.specs.Layout.{outcome_at};
    ghost use Rattle.cell_words.specs.Levels.{cells_to, settled, value_word, looked, wrote, raised, new_asker, joined};
    ghost use Rattle.cell_words.specs.LevelSeats.{plan_of, IsPlaceOf};
    ghost use Rattle.cell_words.specs.declared.level_view.Role.TheVariants.{Filler, Asker};

    /// One load of the count.
    fn load_count(&self, seat: &mut Seat<(), View>) -> u64
        requires seat { IsPlaceOf self.now seat.old }
        requires asks { seat.old.me.0.role ≡ Asker }
        ensures seat { IsPlaceOf self.now seat.new }
        ensures view { seat.new.me.0 ≡ looked seat.old.me.0 result }
        ensures rises { seat.old.me.0.count ≤ result }
        ensures sized { (r : ℕ) → r < cells_to (plan_of self.now) result → IsSized (outcome_at (plan_of self.now) r) }
    {
        self.table.shared.load::<LookStep>(seat, 0)
    }

    /// A value word of a level that the seat knows.
    fn load_word(&self, seat: &mut Seat<(), View>, at: usize) -> u64
        requires seat { IsPlaceOf self.now seat.old }
        requires asks { seat.old.me.0.role ≡ Asker }
        requires known { at < 4 * cells_to (plan_of self.now) seat.old.me.0.count }
        ensures seat { seat.new ≡ seat.old }
        ensures value { result ≡ value_word (plan_of self.now) at }
    {
        self.table.shared.load::<Read>(seat, at + 1)
    }

    /// Stores the next value word.
    pub(crate) fn store_word(&self, seat: &mut Seat<(), View>, at: usize, word: u64)
        requires seat { IsPlaceOf self.now seat.old }
        requires fills { seat.old.me.0.role ≡ Filler }
        requires next { (at ≡ settled seat.old.me.0) × (at < 4 * cells (plan_of self.now)) }
        requires word { word ≡ value_word (plan_of self.now) at }
        requires sized { (r : ℕ) → 4 * r ≤ at → at < 4 * r + 4 → IsSized (outcome_at (plan_of self.now) r) }
        ensures seat { IsPlaceOf self.now seat.new }
        ensures view { seat.new.me.0 ≡ wrote seat.old.me.0 }
    {
        self.table.shared.store::<Write>(seat, at + 1, word);
    }

    /// Raises the count, where the next level is wholly written.
    pub(crate) fn raise(&self, seat: &mut Seat<(), View>, level: u64)
        requires seat { IsPlaceOf self.now seat.old }
        requires fills { seat.old.me.0.role ≡ Filler }
        requires next { (level ≡ seat.old.me.0.count + 1) × (level ≤ (plan_of self.now).bound) }
        requires whole { settled seat.old.me.0 ≡ 4 * cells_to (plan_of self.now) level }
        ensures seat { IsPlaceOf self.now seat.new }
        ensures view { seat.new.me.0 ≡ raised seat.old.me.0 }
    {
        self.table.shared.store::<Raise>(seat, 0, level);
    }

    /// A new asker, who knows what the filler knows.
    pub(crate) fn asker(&self, filler: &mut Seat<(), View>) -> LevelSeat
        requires seat { IsPlaceOf self.now filler.old }
        requires fills { filler.old.me.0.role ≡ Filler }
        ensures filler { IsPlaceOf self.now filler.new }
        ensures seat { IsPlaceOf self.now result.place }
        ensures same { filler.new.me.0 ≡ filler.old.me.0 }
        ensures view { result.place.me.0 ≡ new_asker filler.old.me.0 }
    {
        LevelSeat {
            place: self.table.shared.split_seat::<Part>(filler),
        }
    }

    /// Joins an asker that was made from the filler into another.
    pub(crate) fn join(&self, seat: &mut Seat<(), View>, told: LevelSeat)
        requires seat { IsPlaceOf self.now seat.old × (seat.old.me.0.role ≡ Asker) }
        requires told { IsPlaceOf self.now told.place × (told.place.me.0.role ≡ Asker) }
        ensures seat { IsPlaceOf self.now seat.new }
        ensures view { seat.new.me.0 ≡ joined seat.old.me.0 told.place.me.0 }
    {
        self.table.shared.join_seat::<Part>(seat, told.place);
    }

    /// The outcome of a rank in a level that the seat knows.
    fn outcome(&self, seat: &mut Seat<(), View>, rank: u32) -> Outcome
        requires seat { IsPlaceOf self.now seat.old }
        requires asks { seat.old.me.0.role ≡ Asker }
        requires known { rank < cells_to (plan_of self.now) seat.old.me.0.count }
        requires sized { IsSized (outcome_at (plan_of self.now) rank) }
        ensures seat { seat.new ≡ seat.old }
        ensures value { result ≡ outcome_at (plan_of self.now) rank }
    {
        let at = 4 * rank as usize;
        let a = self.load_word(seat, at);
        let b = self.load_word(seat, at + 1);
        let c = self.load_word(seat, at + 2);
        let d = self.load_word(seat, at + 3);
        decode(a, b, c, d)
    }
}

impl Cells for Frontier {
    ghost use Rattle.std.specs.Prelude.{◌≡◌, ℕ, Option, ◌+◌, ◌<◌, ◌≤◌};
    ghost use Rattle.airy_math.specs.Levels.{euler_of};
    ghost use Rattle.amp_plan.specs.Plans.{Planning, key_at};
    ghost use Rattle.cell_words.specs.Looks.{Answers};
    ghost use Rattle.cell_words.specs.Layout.{cells};
    ghost use Rattle.cell_words.specs.Levels.{cells_to};
    ghost use Rattle.cell_words.specs.LevelSeats.{plan_of as its_plan, looks_of, latest_of, HasLooked};
    ghost use Rattle.cell_words.specs.LevelSeats.{IsAsker, ShowsUnfilled as shows_unfilled, Knows as IsKnown};

    type Seat = LevelSeat;

    type Standing = ();

    ghost plan_of = { its_plan };

    ghost IsSeat = { IsAsker };

    ghost standing = { λ _. tt };

    ghost looks = { looks_of };

    ghost latest = { latest_of };

    ghost LookedAt = { λ s _. HasLooked s };

    ghost ShowsUnfilled = { λ s. shows_unfilled s.place.me.0 };

    ghost Knows = { IsKnown };

    fn plan(&self) -> &Plan {
        &self.plan
    }

    #[tactic(auto, unfolding(airy_math::specs::Levels::euler_of))]
    fn look(&self, seat: &mut LevelSeat, rank: u32) -> Look {
        airy_math::needs_first();
        airy_math::planned_once();
        let count = self.load_count(&mut seat.place);
        if u64::from(self.plan.key(rank).euler()) <= count {
            Look::Filled(self.outcome(&mut seat.place, rank))
        } else {
            Look::Empty { word: count }
        }
    }
}
