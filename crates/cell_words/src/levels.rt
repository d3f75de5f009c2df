ghost use Rattle.std.specs.Prelude.{◌≡◌, ℕ, ◌+◌, ◌<◌, ◌≤◌, length, take};
ghost use Rattle.airy_math.specs.Levels.{euler_of};
ghost use Rattle.amp_plan.specs.Plans.{key_at};
ghost use Rattle.cell_words.specs.Layout.{cells, all_outcomes, outcome_at};
ghost use Rattle.cell_words.specs.Levels.{cells_to};

use amp_plan::Plan;
use amp_terms::{Outcome, Seen, pivot_value};

/// The number of cells in the levels up to one, from a number of cells on that is not greater.
pub fn level_end(plan: &Plan, from: u32, level: u8) -> u32
    requires level { level ≤ plan.now.bound }
    requires from { from ≤ cells_to plan.now level }
    ensures { result ≡ cells_to plan.now level }
{
    for rank in from..plan.len() {
        if plan.key(rank).euler() > u16::from(level) {
            return rank;
        }
    }
    plan.len()
}

/// The outcome of a rank whose level is at most the one behind the first `published`, over the outcomes of these at least.
pub fn level_outcome(plan: &Plan, published: u8, rank: u32, done: &[Outcome]) -> Outcome
    requires rank { rank < cells plan.now }
    requires level { (published ≤ plan.now.bound) × (euler_of (key_at plan.now rank) ≤ published + 1) }
    requires done { done.now ≡ take (length done.now) (all_outcomes plan.now) }
    requires enough { cells_to plan.now published ≤ length done.now }
    ensures { result ≡ outcome_at plan.now rank }
{
    plan.planned_fact();
    plan.needs_fact();
    airy_math::needs_first();
    airy_math::ranks();
    let key = plan.key(rank);
    key.validity_fact();
    let pivot = key.idx()[0];
    pivot_value(plan, &key, pivot, &mut Listed { done })
}

/// The outcomes of the first ranks.
#[derive(Drop)]
struct Listed<'a> {
    done: &'a [Outcome],
}

impl Seen for Listed<'_> {
    ghost use Rattle.std.specs.Prelude.{List, ◌<◌, length};
    ghost use Rattle.amp_terms.specs.declared.Outcome.{Outcome};
    ghost use Rattle.amp_terms.specs.Pivots.{listed};

    ghost Base = { List Outcome };

    ghost made_over = { λ s. s.done.now };

    ghost has = { λ s r. r < length s.done.now };

    ghost shown = { λ s. listed s.done.now };

    #[tactic(auto, unfolding(amp_terms::specs::Pivots::listed))]
    fn at(&mut self, rank: u32) -> Outcome {
        self.done[rank as usize]
    }
}
