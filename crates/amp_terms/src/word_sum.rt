// Terms of words are made in registers, and added with no other step. Two numbers that may be short or long would meet in registers
// with all their words, which spill: so both are asked for as words first, and read again, apart, where that isn't the term's way.
ghost use Rattle.std.specs.Prelude.{◌≡◌, ℕ, ◌↔◌, ◌<◌, ◌^◌, IfSome};
ghost use Rattle.airy_math.specs.Rational.{whole};
ghost use Rattle.amp_plan.specs.Ranked.{Once, Joined, Twice};
ghost use Rattle.amp_terms.specs.Pivots.{IsTerm};

use crate::pivot::{PivotSum, Seen};
use amp_plan::TermVisitor;
use frac128::Frac;
use running_sum::{Unreduced, Weight, word_joined, word_once, word_twice};

/// The sum of the terms so far, and the least rank so far without a Value. Terms of words are added first.
#[derive(Drop)]
pub(crate) struct WordSum<'a, S> {
    pub(crate) any: PivotSum<'a, S>,
}

impl<'a, S: Seen> TermVisitor for WordSum<'a, S> {
    ghost use Rattle.std.specs.Prelude.{Option, ℕ};
    ghost use Rattle.airy_math.specs.Rational.{ℚ};
    ghost use Rattle.amp_terms.specs.declared.Outcome.{Outcome};
    ghost use Rattle.amp_terms.specs.Pivots.{Summing, with_term};

    ghost State = { Summing S.Base };

    ghost state = { λ v. record {
      reader = v.any.seen.ghost_name;
      base = S.made_over v.any.seen.now;
      shown = S.shown v.any.seen.now;
      blocked = v.any.blocked;
      sum = v.any.sum;
    } };

    ghost step = { with_term };

    ghost allows = { λ v r. S.has v.any.seen.now r };

    fn alone(&mut self, v: Frac) {
        self.any.alone(v);
    }

    fn once(&mut self, times: u8, v: Frac, rank: u32) {
        match seen_once(self.any.seen, times, v, rank) {
            Some(term) => self.any.sum.add(&term),
            None => self.any.once(times, v, rank),
        }
    }

    fn joined(&mut self, weight: &Weight, rank: u32) {
        match seen_joined(self.any.seen, weight, rank) {
            Some(term) => self.any.sum.add(&term),
            None => self.any.joined(weight, rank),
        }
    }

    #[inline(always)]
    fn twice(&mut self, weight: &Weight, ways: u64, left: u32, right: u32) {
        match seen_twice(self.any.seen, weight, ways, left, right) {
            Some(term) => self.any.sum.add(&term),
            None => self.any.twice(weight, ways, left, right),
        }
    }
}

/// The term (m v) F by words, where F is a Value.
#[inline(always)]
fn seen_once<S: Seen>(seen: &mut S, times: u8, v: Frac, rank: u32) -> Option<Unreduced>
    requires { S.has seen.old rank }
    ensures term { IfSome result (IsTerm (S.shown seen.old) (Once (whole times) v rank)) }
    ensures ranks { (r : ℕ) → S.has seen.new r ↔ S.has seen.old r }
    ensures same { S.shown seen.new ≡ S.shown seen.old }
    ensures base { S.made_over seen.new ≡ S.made_over seen.old }
{
    let x = seen.word(rank)?;
    word_once(times, v, &x)
}

/// The term w F by words, where F is a Value.
#[inline(always)]
fn seen_joined<S: Seen>(seen: &mut S, weight: &Weight, rank: u32) -> Option<Unreduced>
    requires { S.has seen.old rank }
    ensures term { IfSome result (IsTerm (S.shown seen.old) (Joined weight.now rank)) }
    ensures ranks { (r : ℕ) → S.has seen.new r ↔ S.has seen.old r }
    ensures same { S.shown seen.new ≡ S.shown seen.old }
    ensures base { S.made_over seen.new ≡ S.made_over seen.old }
{
    let x = seen.word(rank)?;
    word_joined(weight, &x)
}

/// The term ((w q) F1) F2 by words, where F1 and F2 are Values.
#[inline(always)]
fn seen_twice<S: Seen>(
    seen: &mut S,
    weight: &Weight,
    ways: u64,
    left: u32,
    right: u32,
) -> Option<Unreduced>
    requires left { S.has seen.old left }
    requires right { S.has seen.old right }
    requires ways { ways < 2 ^ 63 }
    ensures term { IfSome result (IsTerm (S.shown seen.old) (Twice weight.now (whole ways) left right)) }
    ensures ranks { (r : ℕ) → S.has seen.new r ↔ S.has seen.old r }
    ensures same { S.shown seen.new ≡ S.shown seen.old }
    ensures base { S.made_over seen.new ≡ S.made_over seen.old }
{
    let x = seen.word(left)?;
    let y = seen.word(right)?;
    word_twice(weight, ways, &x, &y)
}
