ghost use Rattle.std.specs.Prelude.{◌≡◌, ℕ, ◌+◌, ◌<◌};
ghost use Rattle.cell_words.specs.Layout.{cells};

use amp_plan::Plan;
use amp_terms::Outcome;

/// What a look at a cell finds.
#[derive(Clone, Copy, Debug, PartialEq, Eq)]
pub enum Look {
    /// The outcome of its rank.
    Filled(Outcome),
    /// The loaded word, which says that the cell isn't filled.
    Empty { word: u64 },
}

/// A board of cells that callers look at, each with a seat.
pub trait Cells {
    ghost use Rattle.std.specs.Prelude.{Option};
    ghost use Rattle.amp_plan.specs.Plans.{Planning};
    ghost use Rattle.cell_words.specs.Looks.{Answers};

    /// One caller's token.
    type Seat;

    /// What no look changes of a seat, besides its board.
    type Standing;

    /// The plan that the board was made with.
    ghost plan_of: { Self → Planning };

    /// It is a seat of this board.
    ghost IsSeat: { Self → Self.Seat → Type 0 };

    /// What no look changes of this seat.
    ghost standing: { Self.Seat → Self.Standing };

    /// The number of its looks.
    ghost looks: { Self.Seat → ℕ };

    /// The word that the latest look loaded.
    ghost latest: { Self.Seat → Option ℕ };

    /// The word that the latest look loaded is the one that decides on this rank.
    ghost LookedAt: { Self.Seat → ℕ → Type 0 };

    /// The test: the latest look shows that this rank isn't filled.
    ghost ShowsUnfilled: { Self.Seat → ℕ → Type 0 };

    /// The seat knows this rank: no later look of it finds the rank empty.
    ghost Knows: { Self.Seat → ℕ → Type 0 };

    /// The plan that the board was made with.
    fn plan(&self) -> &Plan
        ensures { result.now ≡ plan_of self.now };

    /// Looks at the cell of a rank, by one load of the word that decides.
    fn look(&self, seat: &mut Self::Seat, rank: u32) -> Look
        requires seat { IsSeat self.now seat.old }
        requires rank { rank < cells (plan_of self.now) }
        ensures seat { IsSeat self.now seat.new }
        ensures standing { standing seat.new ≡ standing seat.old }
        ensures looks { looks seat.new ≡ looks seat.old + 1 }
        ensures looked { LookedAt seat.new rank }
        ensures keeps { (r : ℕ) → Knows seat.old r → Knows seat.new r }
        ensures answer { Answers (plan_of self.now) rank (Knows seat.old) (Knows seat.new)
            (ShowsUnfilled seat.new) (latest seat.new) result };
}
