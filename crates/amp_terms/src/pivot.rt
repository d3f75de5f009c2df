ghost use Rattle.std.specs.Prelude.{◌≡◌, ◌↔◌, ℕ, ◌<◌, Some, None, IfSome, is_some};
ghost use Rattle.airy_math.specs.Keys.{times};
ghost use Rattle.airy_math.specs.Planned.{IsPlanned};
ghost use Rattle.airy_math.specs.RationalLaws.{0ℚ};
ghost use Rattle.airy_math.specs.Terms.{terms};
ghost use Rattle.amp_plan.specs.Plans.{tensors_of};
ghost use Rattle.amp_terms.specs.declared.Outcome.{Outcome};
ghost use Rattle.amp_terms.specs.Outcomes.{has_value, outcome_from, smaller, value_or_zero, Value};
ghost use Rattle.amp_terms.specs.Tables.{value_of};
ghost use Rattle.amp_terms.specs.Pivots.{noted, planned_outcome, pivot_ranks};
ghost use Rattle.amp_plan.specs.Ranked.{AreAllowed, NameAllowed, pivot_terms};

use crate::Outcome;
use crate::word_sum::WordSum;
use airy_index::Key;
use amp_plan::{Plan, TermVisitor, walk_terms};
use frac128::Frac;
use running_sum::{Unreduced, Weight, Word, long_joined, long_once, long_twice};

/// Outcomes of ranks that can be read.
pub trait Seen {
    ghost Base: { Type 0 };

    ghost made_over: { Self → Self.Base };

    ghost has: { Self → ℕ → Type 0 };

    ghost shown: { Self → ℕ → Outcome };

    /// The outcome of a rank that it has.
    fn at(&mut self, rank: u32) -> Outcome
        requires { has self.old rank }
        ensures outcome { result ≡ shown self.old rank }
        ensures ranks { (r : ℕ) → has self.new r ↔ has self.old r }
        ensures same { shown self.new ≡ shown self.old }
        ensures base { made_over self.new ≡ made_over self.old };

    /// The Value of a rank that it has as a factor of words, where it is found to be one.
    #[inline(always)]
    fn word(&mut self, rank: u32) -> Option<Word>
        requires { has self.old rank }
        ensures word { IfSome result (λ w. shown self.old rank ≡ Value w) }
        ensures ranks { (r : ℕ) → has self.new r ↔ has self.old r }
        ensures same { shown self.new ≡ shown self.old }
        ensures base { made_over self.new ≡ made_over self.old }
    {
        match self.at(rank) {
            Outcome::Value(v) => Word::of(v),
            _ => None,
        }
    }

    /// The Value of a rank that it has as a factor, where it has one.
    #[tactic(auto, using(crate::proofs::TableLemmas::none_has, crate::proofs::TableLemmas::has_some))]
    fn factor(&mut self, rank: u32) -> Option<Unreduced>
        requires { has self.old rank }
        ensures factor { IfSome result (λ x. x ≡ value_of (shown self.old rank)) }
        ensures whether { is_some result ≡ has_value (shown self.old rank) }
        ensures ranks { (r : ℕ) → has self.new r ↔ has self.old r }
        ensures same { shown self.new ≡ shown self.old }
        ensures base { made_over self.new ≡ made_over self.old }
    {
        match self.at(rank) {
            Outcome::Value(v) => Some(Unreduced::of(v)),
            _ => None,
        }
    }
}

/// The outcome of the pivot sum of a planned key, for one of its indices, over the outcomes of the ranks that its terms
/// name: `Blocked` by the least of these without a Value, else `Over` where a step of the ordered sum leaves the range, else
/// the `Value` of that sum. The recursion is that of Kontsevich and Soibelman, and of Andersen, Borot, Chekhov and Orantin.
pub fn pivot_value<S: Seen>(plan: &Plan, key: &Key, pivot: u8, seen: &mut S) -> Outcome
    requires planned { IsPlanned (tensors_of plan.now) plan.now.bound key.now }
    requires pivot { 0 < times pivot key.now.idx }
    requires seen { AreAllowed (S.has seen.old) (pivot_ranks plan.now pivot key.now) }
    ensures outcome { result ≡ planned_outcome plan.now (S.shown seen.old) key.now pivot }
    ensures ranks { (r : ℕ) → S.has seen.new r ↔ S.has seen.old r }
    ensures same { S.shown seen.new ≡ S.shown seen.old }
    ensures base { S.made_over seen.new ≡ S.made_over seen.old }
{
    let mut sum = WordSum {
        any: PivotSum {
            seen,
            blocked: None,
            sum: Unreduced::of(Frac::whole(0)),
        },
    };
    add_terms(plan, key, pivot, &mut sum);
    sum.any.outcome()
}

/// Adds all terms to a sum that is 0.
fn add_terms<S: Seen>(plan: &Plan, key: &Key, pivot: u8, sum: &mut WordSum<'_, S>)
    requires planned { IsPlanned (tensors_of plan.now) plan.now.bound key.now }
    requires pivot { 0 < times pivot key.now.idx }
    requires seen { NameAllowed (S.has sum.old.any.seen.now) (pivot_terms plan.now pivot key.now) }
    requires unblocked { sum.old.any.blocked ≡ None }
    requires zero { sum.old.any.sum ≡ Some 0ℚ }
    ensures outcome { outcome_from sum.new.any.blocked sum.new.any.sum
        ≡ planned_outcome plan.now (S.shown sum.old.any.seen.now) key.now pivot }
    ensures same_reference { sum.new.any.seen.ghost_name ≡ sum.old.any.seen.ghost_name }
    ensures ranks { (r : ℕ) → S.has sum.new.any.seen.now r ↔ S.has sum.old.any.seen.now r }
    ensures same { S.shown sum.new.any.seen.now ≡ S.shown sum.old.any.seen.now }
    ensures base { S.made_over sum.new.any.seen.now ≡ S.made_over sum.old.any.seen.now }
{
    walk_terms(plan, key, pivot, sum);
}

/// The sum of the terms so far, and the least rank so far without a Value.
#[derive(Drop)]
pub(crate) struct PivotSum<'a, S> {
    pub(crate) seen: &'a mut S,
    pub(crate) blocked: Option<u32>,
    pub(crate) sum: Unreduced,
}

impl<'a, S: Seen> TermVisitor for PivotSum<'a, S> {
    ghost use Rattle.std.specs.Prelude.{Option, ℕ};
    ghost use Rattle.airy_math.specs.Rational.{ℚ};
    ghost use Rattle.amp_terms.specs.declared.Outcome.{Outcome};
    ghost use Rattle.amp_terms.specs.Pivots.{Summing, with_term};

    ghost State = { Summing S.Base };

    ghost state = { λ v. record {
      reader = v.seen.ghost_name;
      base = S.made_over v.seen.now;
      shown = S.shown v.seen.now;
      blocked = v.blocked;
      sum = v.sum;
    } };

    ghost step = { with_term };

    ghost allows = { λ v r. S.has v.seen.now r };

    fn alone(&mut self, v: Frac) {
        self.sum.add(&Unreduced::of(v));
    }

    #[inline(never)]
    fn once(&mut self, times: u8, v: Frac, rank: u32) {
        let factor = self.factor(rank);
        self.sum.add(&long_once(times, v, &factor));
    }

    #[inline(never)]
    fn joined(&mut self, weight: &Weight, rank: u32) {
        let factor = self.factor(rank);
        self.sum.add(&long_joined(weight, &factor));
    }

    #[inline(never)]
    fn twice(&mut self, weight: &Weight, ways: u64, left: u32, right: u32) {
        let first = self.factor(left);
        let second = self.factor(right);
        self.sum.add(&long_twice(weight, ways, &first, &second));
    }
}

impl<S: Seen> PivotSum<'_, S> {
    /// The Value at a rank, and 0 where it has none: then the rank is noted.
    fn factor(&mut self, rank: u32) -> Unreduced
        requires { S.has self.old.seen.now rank }
        ensures factor { result ≡ Some (value_or_zero (S.shown self.old.seen.now rank)) }
        ensures noted { self.new.blocked ≡ noted self.old.blocked rank (S.shown self.old.seen.now rank) }
        ensures sum { self.new.sum ≡ self.old.sum }
        ensures same_reference { self.new.seen.ghost_name ≡ self.old.seen.ghost_name }
        ensures ranks { (r : ℕ) → S.has self.new.seen.now r ↔ S.has self.old.seen.now r }
        ensures same { S.shown self.new.seen.now ≡ S.shown self.old.seen.now }
        ensures base { S.made_over self.new.seen.now ≡ S.made_over self.old.seen.now }
    {
        match self.seen.factor(rank) {
            Some(factor) => factor,
            None => {
                self.blocked = less(self.blocked, rank);
                Unreduced::of(Frac::whole(0))
            }
        }
    }
}

impl<S> PivotSum<'_, S> {
    /// The outcome of the whole sum.
    #[tactic(auto, unfolding(crate::specs::Outcomes::outcome_from))]
    fn outcome(&self) -> Outcome
        ensures { result ≡ outcome_from self.now.blocked self.now.sum }
    {
        match (self.blocked, self.sum.value()) {
            (Some(first), _) => Outcome::Blocked { first },
            (None, Some(v)) => Outcome::Value(v),
            (None, None) => Outcome::Over,
        }
    }
}

/// The less of a rank and one that may be missing.
#[tactic(auto, unfolding(crate::specs::Outcomes::smaller))]
fn less(least: Option<u32>, rank: u32) -> Option<u32>
    ensures { result ≡ smaller rank least }
{
    match least {
        Some(least) => Some(least.min(rank)),
        None => Some(rank),
    }
}
