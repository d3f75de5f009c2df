ghost use Rattle.std.specs.Prelude.{◌≡◌, ◌↔◌, ◌<◌, ◌^◌, ℕ};
ghost use Rattle.airy_math.specs.Rational.{whole};
ghost use Rattle.amp_plan.specs.Ranked.{RankedTerm, Alone, Once, Joined, Twice};

use frac128::Frac;
use running_sum::Weight;

/// Takes the terms of a pivot sum one after another, with ranks in place of keys.
pub trait TermVisitor {
    ghost State: { Type 0 };

    ghost state: { Self → Self.State };

    ghost step: { Self.State → RankedTerm → Self.State };

    ghost allows: { Self → ℕ → Type 0 };

    /// The term v.
    fn alone(&mut self, v: Frac)
        ensures step { state self.new ≡ step (state self.old) (Alone v) }
        ensures stays { (r : ℕ) → allows self.new r ↔ allows self.old r };

    /// The term (m v) F, where v stands for m equal indices, and F stands at the rank.
    fn once(&mut self, times: u8, v: Frac, rank: u32)
        requires { allows self.old rank }
        ensures step { state self.new ≡ step (state self.old) (Once (whole times) v rank) }
        ensures stays { (r : ℕ) → allows self.new r ↔ allows self.old r };

    /// The term w F, where w is None if it isn't obtained.
    fn joined(&mut self, weight: &Weight, rank: u32)
        requires { allows self.old rank }
        ensures step { state self.new ≡ step (state self.old) (Joined weight.now rank) }
        ensures stays { (r : ℕ) → allows self.new r ↔ allows self.old r };

    /// The term ((w q) F1) F2, where w is None if it isn't obtained.
    fn twice(&mut self, weight: &Weight, ways: u64, left: u32, right: u32)
        requires left { allows self.old left }
        requires right { allows self.old right }
        requires ways { ways < 2 ^ 63 }
        ensures step { state self.new ≡ step (state self.old) (Twice weight.now (whole ways) left right) }
        ensures stays { (r : ℕ) → allows self.new r ↔ allows self.old r };
}
