// The products of a pair by codes: parts are chosen run by run, and those that can't come where both keys are covered are passed
// over. This is the walk where codes tell all keys of the plan apart. Where two keys have one code, `walk_splits` makes each key and
// looks for it in their order; no plan is known at which that happens, and with it nothing need be stated of codes.
ghost use Rattle.std.specs.Prelude.{◌≡◌, ◌≤◌, ◌<◌, ◌+◌, ◌-◌, ◌*◌, ◌/◌, ◌^◌, ◌∷◌, [], ℕ, true, length, Some};
ghost use Rattle.std.specs.Int.RustNames.{unsigned_abs};
ghost use Rattle.airy_math.specs.Shapes.{per_n as shape_per_n};
ghost use Rattle.airy_math.specs.Splits.{splits};
ghost use Rattle.amp_plan.specs.Plans.{tensors_of, keys_of};
ghost use Rattle.amp_plan.specs.Ranked.{NameAllowed, Takes};
ghost use Rattle.index_lists.specs.Rests.{IsRest};
ghost use Rattle.amp_plan.specs.Walk.{HasRoom, pair_genus};
ghost use Rattle.index_lists.specs.Measures.{IsLight, IsMeasured};
ghost use Rattle.index_lists.specs.SplitLists.{chain, AreListed};
ghost use Rattle.amp_plan.specs.Shares.{can_reach as reached, of_share, IsShare, CanGoOn, TakesChoices};

use crate::finding::find_live;
use crate::pair::Pair;
use crate::ranking::Ranking;
use crate::visitor::TermVisitor;
use index_lists::{Chosen, Measure, Rest, SplitList, chain_of, law_excess, per_n};
use key_index::KeyIndex;

/// The products of a pair of indices with the genus k on the left: what its walk over splits needs.
#[derive(Clone, Copy)]
pub(crate) struct Share<'a> {
    pub(crate) genus: u8,
    pub(crate) k: u8,
    pub(crate) pair: &'a Pair,
    /// The law's number for each index.
    pub(crate) per_n: i64,
    /// The measure of the first index of the pair.
    pub(crate) left: Measure,
    /// The measure of all indices that are split, with the second index of the pair.
    pub(crate) right: Measure,
    /// Both keys are covered only where the excess of the part is from this number
    pub(crate) low: i64,
    /// to this one.
    pub(crate) high: i64,
}

impl Share<'_> {
    /// Whether the part's excess can come between the two numbers.
    #[tactic(auto, unfolding(crate::specs::Shares::can_reach))]
    fn can_reach(&self, chosen: &Chosen) -> bool
        requires high { unsigned_abs self.now.high ≤ 2 ^ 50 }
        requires light { IsLight chosen.now.part }
        ensures { result ≡ reached self.now chosen.now }
    {
        self.low <= chosen.part.excess + i64::from(chosen.gain)
            && chosen.part.excess <= self.high + i64::from(chosen.loss)
    }

    /// The same share in a place of its own, so that a reference to it leaves the first in registers: most shares end at one test.
    #[inline(always)]
    fn moved(&self) -> Share<'_>
        ensures { result ≡ self.now }
    {
        Share {
            genus: self.genus,
            k: self.k,
            pair: self.pair,
            per_n: self.per_n,
            left: self.left,
            right: self.right,
            low: self.low,
            high: self.high,
        }
    }
}

/// Hands over the products of all splits that begin with the part that was chosen, and go on with the runs that are left; none
/// where the part's excess can't come where both keys are covered.
#[cycle(choices)]
#[inline(always)]
pub(crate) fn walk_reachable<V: TermVisitor>(
    ranking: &Ranking,
    index: &KeyIndex,
    share: &Share,
    left: &[(u8, u8)],
    chosen: &Chosen,
    visitor: &mut V,
)
    requires keys { index.now.keys ≡ keys_of ranking.now }
    requires exact { index.now.exact ≡ true }
    requires share { IsShare ranking.now share.now }
    requires go_on { CanGoOn (V.allows visitor.old) ranking.now share.now left.now chosen.now }
    ensures { TakesChoices V.allows V.state V.step ranking.now share.now left.now chosen.now visitor.old visitor.new }
{
    if !share.can_reach(chosen) {
        return;
    }
    match left.split_first() {
        None => walk_chosen(ranking, index, share, chosen, visitor),
        Some((run, others)) => walk_choices(ranking, index, share, *run, others, chosen, visitor),
    }
}

/// The same where a run is left, without asking that.
#[cycle(choices)]
fn walk_choices<V: TermVisitor>(
    ranking: &Ranking,
    index: &KeyIndex,
    share: &Share,
    run: (u8, u8),
    others: &[(u8, u8)],
    chosen: &Chosen,
    visitor: &mut V,
)
    requires keys { index.now.keys ≡ keys_of ranking.now }
    requires exact { index.now.exact ≡ true }
    requires share { IsShare ranking.now share.now }
    requires go_on { CanGoOn (V.allows visitor.old) ranking.now share.now (run ∷ others.now) chosen.now }
    ensures { TakesChoices V.allows V.state V.step ranking.now share.now (run ∷ others.now) chosen.now visitor.old visitor.new }
{
    let item = Measure::of(index, share.per_n, run.0);
    let mut next = chosen.before(&item, run.1);
    let mut taken = 0;
    loop {
        walk_reachable(ranking, index, share, others, &next, visitor);
        if taken == run.1 {
            return;
        }
        next = next.one_more(&item, run.1, taken);
        taken += 1;
    }
}

/// Hands over the product of a split whose part has been chosen, where both its keys are live.
#[inline(always)]
fn walk_chosen<V: TermVisitor>(
    ranking: &Ranking,
    index: &KeyIndex,
    share: &Share,
    chosen: &Chosen,
    visitor: &mut V,
)
    requires keys { index.now.keys ≡ keys_of ranking.now }
    requires exact { index.now.exact ≡ true }
    requires share { IsShare ranking.now share.now }
    requires go_on { CanGoOn (V.allows visitor.old) ranking.now share.now [] chosen.now }
    ensures { TakesChoices V.allows V.state V.step ranking.now share.now [] chosen.now visitor.old visitor.new }
{
    let left = share.left.plus(chosen.part);
    let Some(left) = find_live(ranking, index, share.k, left) else {
        return;
    };
    let right = share.right.minus(chosen.part);
    let Some(right) = find_live(ranking, index, share.genus - share.k, right) else {
        return;
    };
    visitor.twice(&share.pair.weight, chosen.ways, left, right);
}

impl<'a> Share<'a> {
    /// The share of a pair and a genus in the products of what is left of a key.
    fn of(ranking: &Ranking, genus: u8, rest: &Rest, pair: &'a Pair, k: u8) -> Share<'a>
        requires rest { IsRest (shape_per_n ranking.now.tensors.shape) rest.now }
        requires few { length rest.now.list.items ≤ 25 }
        requires a { pair.now.a < ranking.now.tensors.dim }
        requires b { pair.now.b < ranking.now.tensors.dim }
        requires k { k ≤ genus }
        ensures share { IsShare ranking.now result }
        ensures genus { result.genus ≡ genus }
        ensures k { result.k ≡ k }
        ensures pair { result.pair.now ≡ pair.now }
        ensures right { IsMeasured (shape_per_n ranking.now.tensors.shape) (pair.now.b ∷ rest.now.list.items) result.right }
    {
        ranking.is_small();
        ranking.tensors().soundness_fact();
        let shape = ranking.tensors().shape();
        let per_n = per_n(shape);
        let left = Measure::of(ranking.index(), per_n, pair.a);
        let right = Measure::of(ranking.index(), per_n, pair.b).plus(rest.whole);
        Share {
            genus,
            k,
            pair,
            per_n,
            left,
            right,
            low: right.excess - law_excess(shape, genus - k),
            high: law_excess(shape, k) - left.excess,
        }
    }
}

/// The chain of the one excess that the part of a product can have, where there is one.
fn only_chain(share: &Share) -> Option<u8>
    ensures only { (n : ℕ) → result ≡ Some n → (share.now.low ≡ share.now.high) × (n ≡ chain share.now.low) }
    ensures below { (n : ℕ) → result ≡ Some n → n < 64 }
{
    if share.low != share.high || share.low.unsigned_abs() > 1 << 29 {
        return None;
    }
    Some(chain_of(share.low))
}

/// Hands over the products of the listed splits: of those in the one chain where there is one, and else of all.
fn walk_listed<const N: usize, V: TermVisitor>(
    ranking: &Ranking,
    index: &KeyIndex,
    share: &Share,
    list: &SplitList<N>,
    visitor: &mut V,
)
    requires keys { index.now.keys ≡ keys_of ranking.now }
    requires exact { index.now.exact ≡ true }
    requires share { IsShare ranking.now share.now }
    requires room { HasRoom (tensors_of ranking.now) ranking.now.bound share.now.genus list.now.rest.list.items }
    requires right { IsMeasured share.now.per_n (share.now.pair.now.b ∷ list.now.rest.list.items) share.now.right }
    requires listed { AreListed share.now.per_n list.now.rest.list.items list.now.splits }
    requires allowed { NameAllowed (V.allows visitor.old) (of_share ranking.now share.now list.now.rest.list.items) }
    ensures { Takes V.allows V.state V.step (of_share ranking.now share.now list.now.rest.list.items) visitor.old visitor.new }
{
    let chain = only_chain(share);
    let mut left = list.first_met(chain);
    while left > 0 {
        let (split, next) = list.met_at(chain, left);
        walk_chosen(ranking, index, share, &split.chosen(), visitor);
        left = next;
    }
}

/// Hands over the products of a pair with the genus k on the left, by codes.
pub(crate) fn walk_share<const N: usize, V: TermVisitor>(
    ranking: &Ranking,
    index: &KeyIndex,
    genus: u8,
    list: &SplitList<N>,
    pair: &Pair,
    k: u8,
    visitor: &mut V,
)
    requires keys { index.now.keys ≡ keys_of ranking.now }
    requires exact { index.now.exact ≡ true }
    requires rest { IsRest (shape_per_n ranking.now.tensors.shape) list.now.rest }
    requires listed { list.now.whole ≡ true → AreListed (shape_per_n ranking.now.tensors.shape) list.now.rest.list.items list.now.splits }
    requires room { HasRoom (tensors_of ranking.now) ranking.now.bound genus list.now.rest.list.items }
    requires a { pair.now.a < ranking.now.tensors.dim }
    requires b { pair.now.b < ranking.now.tensors.dim }
    requires k { k ≤ genus }
    requires allowed { NameAllowed (V.allows visitor.old) (pair_genus ranking.now genus list.now.rest.list.items pair.now k) }
    ensures { Takes V.allows V.state V.step (pair_genus ranking.now genus list.now.rest.list.items pair.now k) visitor.old visitor.new }
{
    ranking.is_small();
    let share = Share::of(ranking, genus, &list.rest, pair, k);
    if list.whole {
        return walk_listed(ranking, index, &share, list, visitor);
    }
    let chosen = Chosen {
        part: Measure {
            places: 0,
            excess: 0,
            code: 0,
        },
        ways: 1,
        gain: list.rest.gain,
        loss: list.rest.loss,
    };
    if !share.can_reach(&chosen) {
        return;
    }
    let runs = list.rest.runs.as_slice();
    walk_reachable(ranking, index, &share.moved(), runs, &chosen, visitor);
}
