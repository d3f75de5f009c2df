ghost use Rattle.std.specs.Prelude.{◌≡◌, ℕ, ◌+◌, ◌<◌, ◌≤◌, vec_len};
ghost use Rattle.cell_words.specs.Layout.{cells, outcome_at};
ghost use Rattle.cell_words.specs.Levels.{cells_to};
ghost use Rattle.cell_words.specs.LevelSeats.{plan_of, published_of, outcomes_of, IsFiller, IsFilling};

use crate::frontier::{FillSeat, Frontier};
use crate::levels::{level_end, level_outcome};
use crate::words::{encode, is_sized};
use amp_terms::Outcome;

impl FillSeat {
    /// The number of published levels.
    pub fn published(&self) -> u8
        ensures { result ≡ published_of self.now }
    {
        self.published
    }

    /// The outcomes of the ranks of the published levels.
    pub fn outcomes(&self) -> &[Outcome]
        ensures { result.now ≡ outcomes_of self.now }
    {
        self.outcomes.as_slice()
    }
}

impl Frontier {
    ghost use Rattle.std.specs.Prelude.{◌++◌};
    ghost use Rattle.cell_words.specs.Levels.{level_after};

    /// Stores the outcome of the next rank.
    fn store(&self, filler: &mut FillSeat, outcome: &Outcome)
        requires filler { IsFilling self.now (vec_len filler.old.outcomes) filler.old }
        requires next { vec_len filler.old.outcomes < cells (plan_of self.now) }
        requires outcome { outcome.now ≡ outcome_at (plan_of self.now) (vec_len filler.old.outcomes) }
        ensures filler { IsFilling self.now (vec_len filler.new.outcomes) filler.new }
        ensures more { vec_len filler.new.outcomes ≡ vec_len filler.old.outcomes + 1 }
        ensures published { published_of filler.new ≡ published_of filler.old }
    {
        is_sized(outcome);
        let at = 4 * filler.outcomes.len();
        let (a, b, c, d) = encode(*outcome);
        self.store_word(&mut filler.place, at, a);
        self.store_word(&mut filler.place, at + 1, b);
        self.store_word(&mut filler.place, at + 2, c);
        self.store_word(&mut filler.place, at + 3, d);
        let Ok(()) = filler.outcomes.push(*outcome) else {
            unreachable!()
        };
    }

    /// Publishes the next level, which is wholly written.
    fn raise_level(&self, filler: &mut FillSeat)
        requires filler { IsFilling self.now (cells_to (plan_of self.now) (published_of filler.old + 1)) filler.old }
        requires next { published_of filler.old < (plan_of self.now).bound }
        ensures filler { IsFiller self.now filler.new }
        ensures published { published_of filler.new ≡ published_of filler.old + 1 }
        ensures outcomes { outcomes_of filler.new ≡ outcomes_of filler.old }
    {
        let _bound = self.plan.bound();
        let level = filler.published + 1;
        self.raise(&mut filler.place, u64::from(level));
        filler.published = level;
    }

    /// Publishes the next level, whose outcomes are these.
    pub fn publish(&self, filler: &mut FillSeat, level: &[Outcome])
        requires filler { IsFiller self.now filler.old }
        requires next { published_of filler.old < (plan_of self.now).bound }
        requires level { level.now ≡ level_after (plan_of self.now) (published_of filler.old) }
        ensures filler { IsFiller self.now filler.new }
        ensures published { published_of filler.new ≡ published_of filler.old + 1 }
        ensures outcomes { outcomes_of filler.new ≡ outcomes_of filler.old ++ level.now }
    {
        for outcome in level {
            self.store(filler, outcome);
        }
        self.raise_level(filler);
    }
}

/// Computes and publishes the next level.
pub fn level_alone(board: &Frontier, filler: &mut FillSeat)
    requires filler { IsFiller board.now filler.old }
    requires next { published_of filler.old < (plan_of board.now).bound }
    ensures filler { IsFiller board.now filler.new }
    ensures published { published_of filler.new ≡ published_of filler.old + 1 }
{
    let _bound = board.plan.bound();
    let published = filler.published;
    let start = filler.outcomes.len() as u32;
    let end = level_end(&board.plan, start, published + 1);
    for rank in start..end {
        let outcome = level_outcome(&board.plan, published, rank, filler.outcomes.as_slice());
        board.store(filler, &outcome);
    }
    board.raise_level(filler);
}

/// Computes and publishes every level that is left.
pub fn level_sweep(board: &Frontier, filler: &mut FillSeat)
    requires filler { IsFiller board.now filler.old }
    ensures filler { IsFiller board.now filler.new }
    ensures published { published_of filler.new ≡ (plan_of board.now).bound }
{
    for _ in filler.published..board.plan.bound() {
        level_alone(board, filler);
    }
}
