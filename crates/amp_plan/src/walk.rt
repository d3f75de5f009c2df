ghost use Rattle.std.specs.Prelude.{◌≡◌, ◌<◌, ◌≤◌, ◌-◌, ◌^◌, true, length};
ghost use Rattle.airy_math.specs.Keys.{times};
ghost use Rattle.airy_math.specs.Shapes.{per_n as shape_per_n};
ghost use Rattle.airy_math.specs.Terms.{terms};
ghost use Rattle.airy_math.specs.Planned.{IsPlanned};
ghost use Rattle.airy_index.specs.SplitValues.{split_value};
ghost use Rattle.amp_plan.specs.Plans.{tensors_of};
ghost use Rattle.amp_plan.specs.Ranked.{NameAllowed, Takes, rest_terms, pivot_terms};
ghost use Rattle.index_lists.specs.Measures.{IsMeasured};
ghost use Rattle.airy_math.specs.Splits.{splits};
ghost use Rattle.index_lists.specs.Rests.{IsRest};
ghost use Rattle.index_lists.specs.SplitLists.{AreListed};
ghost use Rattle.amp_plan.specs.Walk.{HasRoom, IsPartOf, once_part, run_part, b_part};
ghost use Rattle.amp_plan.specs.Walk.{both_parts, pair_joined, pair_split, pair_genus, pair_products};
ghost use Rattle.amp_plan.specs.Walk.{entry_part, c_part};

use crate::finding::{rank_beside, rank_joined, rank_with};
use crate::pair::{Pair, weight_of};
use crate::ranking::Ranking;
use crate::share::walk_share;
use crate::visitor::TermVisitor;
use airy_index::{Key, Split, Splits};
use frac128::Frac;
use index_lists::{Measure, Rest, SplitList, per_n, splits_to_list, without};
use item_chains::Chains;

/// Hands over all terms of the pivot sum of a planned key, for one of its indices, in their order, over a ranking.
pub(crate) fn walk_ranked<V: TermVisitor>(ranking: &Ranking, key: &Key, pivot: u8, visitor: &mut V)
    requires planned { IsPlanned (tensors_of ranking.now) ranking.now.bound key.now }
    requires pivot { 0 < times pivot key.now.idx }
    requires allowed { NameAllowed (V.allows visitor.old) (pivot_terms ranking.now pivot key.now) }
    ensures { Takes V.allows V.state V.step (pivot_terms ranking.now pivot key.now) visitor.old visitor.new }
{
    key.validity_fact();
    let rest = without(key.idx(), pivot);
    walk_rest(ranking, key.g(), pivot, rest.as_slice(), visitor);
}

/// The same of a genus and what is left of the indices without the pivot.
fn walk_rest<V: TermVisitor>(ranking: &Ranking, genus: u8, pivot: u8, rest: &[u8], visitor: &mut V)
    requires room { HasRoom (tensors_of ranking.now) ranking.now.bound genus rest.now }
    requires few { length rest.now ≤ 25 }
    requires allowed { NameAllowed (V.allows visitor.old) (rest_terms ranking.now pivot genus rest.now) }
    ensures { Takes V.allows V.state V.step (rest_terms ranking.now pivot genus rest.now) visitor.old visitor.new }
{
    match (genus, rest.len()) {
        (0, 2) => visitor.alone(ranking.tensors().a(pivot, rest[0], rest[1])),
        (1, 0) => visitor.alone(ranking.tensors().d(pivot)),
        _ => walk_parts(ranking, genus, pivot, rest, visitor),
    }
}

/// Hands over the B terms and the C terms.
fn walk_parts<V: TermVisitor>(ranking: &Ranking, genus: u8, pivot: u8, rest: &[u8], visitor: &mut V)
    requires room { HasRoom (tensors_of ranking.now) ranking.now.bound genus rest.now }
    requires few { length rest.now ≤ 25 }
    requires allowed { NameAllowed (V.allows visitor.old) (both_parts ranking.now pivot genus rest.now) }
    ensures { Takes V.allows V.state V.step (both_parts ranking.now pivot genus rest.now) visitor.old visitor.new }
{
    ranking.tensors().soundness_fact();
    let rest = Rest::of(ranking.index(), ranking.tensors().shape(), rest);
    walk_b(ranking, genus, pivot, &rest, visitor);
    walk_c(ranking, genus, pivot, rest, visitor);
}

/// Hands over the B terms.
fn walk_b<V: TermVisitor>(ranking: &Ranking, genus: u8, pivot: u8, rest: &Rest, visitor: &mut V)
    requires rest { IsRest (shape_per_n ranking.now.tensors.shape) rest.now }
    requires room { HasRoom (tensors_of ranking.now) ranking.now.bound genus rest.now.list.items }
    requires allowed { NameAllowed (V.allows visitor.old) (b_part ranking.now pivot genus rest.now.list.items) }
    ensures { Takes V.allows V.state V.step (b_part ranking.now pivot genus rest.now.list.items) visitor.old visitor.new }
{
    let runs = rest.runs.as_slice();
    for run in runs {
        walk_run(ranking, genus, pivot, rest, *run, visitor);
    }
}

/// Hands over the B terms of a run.
fn walk_run<V: TermVisitor>(
    ranking: &Ranking,
    genus: u8,
    pivot: u8,
    rest: &Rest,
    run: (u8, u8),
    visitor: &mut V,
)
    requires room { HasRoom (tensors_of ranking.now) ranking.now.bound genus rest.now.list.items }
    requires allowed { NameAllowed (V.allows visitor.old) (run_part ranking.now pivot genus rest.now.list.items run) }
    ensures { Takes V.allows V.state V.step (run_part ranking.now pivot genus rest.now.list.items run) visitor.old visitor.new }
{
    ranking.is_small();
    ranking.tensors().soundness_fact();
    let left = without(rest.list.as_slice(), run.0);
    let left = left.as_slice();
    let per_n = per_n(ranking.tensors().shape());
    let measure = Measure::of_list(ranking.index(), per_n, left);
    let row = ranking.tensors().row_b(pivot, run.0);
    for entry in row {
        walk_once(ranking, genus, left, &measure, run.1, *entry, visitor);
    }
}

/// Hands over the B term of an entry, where its key is live. The list is what is left without the index of the run.
fn walk_once<V: TermVisitor>(
    ranking: &Ranking,
    genus: u8,
    left: &[u8],
    measure: &Measure,
    times: u8,
    entry: (u8, Frac),
    visitor: &mut V,
)
    requires measured { IsMeasured (shape_per_n ranking.now.tensors.shape) left.now measure.now }
    requires room { HasRoom (tensors_of ranking.now) ranking.now.bound genus left.now }
    requires small { entry.0 < ranking.now.tensors.dim }
    requires allowed { NameAllowed (V.allows visitor.old) (once_part ranking.now genus left.now times entry) }
    ensures { Takes V.allows V.state V.step (once_part ranking.now genus left.now times entry) visitor.old visitor.new }
{
    if let Some(rank) = rank_beside(ranking, genus, left, measure, entry.0) {
        visitor.once(times, entry.1, rank);
    }
}

/// Hands over the C terms, with as much room for a list of splits as they need.
fn walk_c<V: TermVisitor>(ranking: &Ranking, genus: u8, pivot: u8, rest: Rest, visitor: &mut V)
    requires rest { IsRest (shape_per_n ranking.now.tensors.shape) rest }
    requires room { HasRoom (tensors_of ranking.now) ranking.now.bound genus rest.list.items }
    requires allowed { NameAllowed (V.allows visitor.old) (c_part ranking.now pivot genus rest.list.items) }
    ensures { Takes V.allows V.state V.step (c_part ranking.now pivot genus rest.list.items) visitor.old visitor.new }
{
    match splits_to_list(ranking.tensors(), pivot, &rest) {
        1..=76 => walk_in_room::<76, V>(ranking, genus, pivot, rest, visitor),
        77..=128 => walk_in_room::<128, V>(ranking, genus, pivot, rest, visitor),
        129..=192 => walk_in_room::<192, V>(ranking, genus, pivot, rest, visitor),
        193..=256 => walk_in_room::<256, V>(ranking, genus, pivot, rest, visitor),
        257..=384 => walk_in_room::<384, V>(ranking, genus, pivot, rest, visitor),
        385..=512 => walk_in_room::<512, V>(ranking, genus, pivot, rest, visitor),
        513..=1024 => walk_in_room::<1024, V>(ranking, genus, pivot, rest, visitor),
        1025..=2048 => walk_in_room::<2048, V>(ranking, genus, pivot, rest, visitor),
        _ => walk_in_room::<0, V>(ranking, genus, pivot, rest, visitor),
    }
}

/// Hands over the C terms, with room for that many splits. Its room stands on the stack only while it runs.
#[inline(never)]
fn walk_in_room<const N: usize, V: TermVisitor>(
    ranking: &Ranking,
    genus: u8,
    pivot: u8,
    rest: Rest,
    visitor: &mut V,
)
    requires rest { IsRest (shape_per_n ranking.now.tensors.shape) rest }
    requires room { HasRoom (tensors_of ranking.now) ranking.now.bound genus rest.list.items }
    requires splits { N < 2 ^ 16 }
    requires allowed { NameAllowed (V.allows visitor.old) (c_part ranking.now pivot genus rest.list.items) }
    ensures { Takes V.allows V.state V.step (c_part ranking.now pivot genus rest.list.items) visitor.old visitor.new }
{
    ranking.is_small();
    ranking.tensors().soundness_fact();
    let mut list = SplitList::<N> {
        rest,
        splits: Chains::new(),
        whole: false,
    };
    list.list_all(ranking.index(), ranking.tensors().shape());
    let row = ranking.tensors().row_c(pivot);
    for entry in row {
        walk_entry(ranking, genus, &list, *entry, visitor);
    }
}

/// Hands over the C terms of an entry.
fn walk_entry<const N: usize, V: TermVisitor>(
    ranking: &Ranking,
    genus: u8,
    list: &SplitList<N>,
    entry: (u8, u8, Frac),
    visitor: &mut V,
)
    requires rest { IsRest (shape_per_n ranking.now.tensors.shape) list.now.rest }
    requires listed { list.now.whole ≡ true → AreListed (shape_per_n ranking.now.tensors.shape) list.now.rest.list.items list.now.splits }
    requires room { HasRoom (tensors_of ranking.now) ranking.now.bound genus list.now.rest.list.items }
    requires a { entry.0 < ranking.now.tensors.dim }
    requires b { entry.1 < ranking.now.tensors.dim }
    requires allowed { NameAllowed (V.allows visitor.old) (entry_part ranking.now genus list.now.rest.list.items entry) }
    ensures { Takes V.allows V.state V.step (entry_part ranking.now genus list.now.rest.list.items entry) visitor.old visitor.new }
{
    let pair = Pair {
        a: entry.0,
        b: entry.1,
        weight: weight_of(entry.0, entry.1, entry.2),
    };
    walk_joined(ranking, genus, &list.rest, &pair, visitor);
    walk_products(ranking, genus, list, &pair, visitor);
}

/// Hands over the joined term of a pair, where there is one.
fn walk_joined<V: TermVisitor>(
    ranking: &Ranking,
    genus: u8,
    rest: &Rest,
    pair: &Pair,
    visitor: &mut V,
)
    requires rest { IsRest (shape_per_n ranking.now.tensors.shape) rest.now }
    requires room { HasRoom (tensors_of ranking.now) ranking.now.bound genus rest.now.list.items }
    requires a { pair.now.a < ranking.now.tensors.dim }
    requires b { pair.now.b < ranking.now.tensors.dim }
    requires allowed { NameAllowed (V.allows visitor.old) (pair_joined ranking.now genus rest.now.list.items pair.now) }
    ensures { Takes V.allows V.state V.step (pair_joined ranking.now genus rest.now.list.items pair.now) visitor.old visitor.new }
{
    if genus == 0 {
        return;
    }
    if let Some(rank) = rank_joined(ranking, genus, rest, pair) {
        visitor.joined(&pair.weight, rank);
    }
}

/// Hands over the products of a pair.
fn walk_products<const N: usize, V: TermVisitor>(
    ranking: &Ranking,
    genus: u8,
    list: &SplitList<N>,
    pair: &Pair,
    visitor: &mut V,
)
    requires rest { IsRest (shape_per_n ranking.now.tensors.shape) list.now.rest }
    requires listed { list.now.whole ≡ true → AreListed (shape_per_n ranking.now.tensors.shape) list.now.rest.list.items list.now.splits }
    requires room { HasRoom (tensors_of ranking.now) ranking.now.bound genus list.now.rest.list.items }
    requires a { pair.now.a < ranking.now.tensors.dim }
    requires b { pair.now.b < ranking.now.tensors.dim }
    requires allowed { NameAllowed (V.allows visitor.old) (pair_products ranking.now genus list.now.rest.list.items pair.now) }
    ensures { Takes V.allows V.state V.step (pair_products ranking.now genus list.now.rest.list.items pair.now) visitor.old visitor.new }
{
    for k in 0..=genus {
        walk_genus(ranking, genus, list, pair, k, visitor);
    }
}

/// Hands over the products of a pair with the genus k on the left: by codes, where these tell all keys apart.
fn walk_genus<const N: usize, V: TermVisitor>(
    ranking: &Ranking,
    genus: u8,
    list: &SplitList<N>,
    pair: &Pair,
    k: u8,
    visitor: &mut V,
)
    requires rest { IsRest (shape_per_n ranking.now.tensors.shape) list.now.rest }
    requires listed { list.now.whole ≡ true → AreListed (shape_per_n ranking.now.tensors.shape) list.now.rest.list.items list.now.splits }
    requires room { HasRoom (tensors_of ranking.now) ranking.now.bound genus list.now.rest.list.items }
    requires a { pair.now.a < ranking.now.tensors.dim }
    requires b { pair.now.b < ranking.now.tensors.dim }
    requires k { k ≤ genus }
    requires allowed { NameAllowed (V.allows visitor.old) (pair_genus ranking.now genus list.now.rest.list.items pair.now k) }
    ensures { Takes V.allows V.state V.step (pair_genus ranking.now genus list.now.rest.list.items pair.now k) visitor.old visitor.new }
{
    let index = ranking.index();
    if index.is_exact() {
        walk_share(ranking, index, genus, list, pair, k, visitor);
    } else {
        walk_splits(ranking, genus, list.rest.list.as_slice(), pair, k, visitor);
    }
}

/// Hands over the products of a pair with the genus k on the left, split by split.
fn walk_splits<V: TermVisitor>(
    ranking: &Ranking,
    genus: u8,
    rest: &[u8],
    pair: &Pair,
    k: u8,
    visitor: &mut V,
)
    requires room { HasRoom (tensors_of ranking.now) ranking.now.bound genus rest.now }
    requires a { pair.now.a < ranking.now.tensors.dim }
    requires b { pair.now.b < ranking.now.tensors.dim }
    requires k { k ≤ genus }
    requires allowed { NameAllowed (V.allows visitor.old) (pair_genus ranking.now genus rest.now pair.now k) }
    ensures { Takes V.allows V.state V.step (pair_genus ranking.now genus rest.now pair.now k) visitor.old visitor.new }
{
    ranking.is_small();
    for split in Splits::of(rest) {
        walk_split(ranking, genus, pair, k, &split, visitor);
    }
}

/// Hands over the product of a pair and a split, where both its keys are live.
fn walk_split<V: TermVisitor>(
    ranking: &Ranking,
    genus: u8,
    pair: &Pair,
    k: u8,
    split: &Split,
    visitor: &mut V,
)
    requires a { pair.now.a < ranking.now.tensors.dim }
    requires b { pair.now.b < ranking.now.tensors.dim }
    requires k { k ≤ genus }
    requires split { IsPartOf (tensors_of ranking.now) ranking.now.bound genus k (split_value split.now) }
    requires allowed { NameAllowed (V.allows visitor.old) (pair_split ranking.now genus pair.now k (split_value split.now)) }
    ensures { Takes V.allows V.state V.step (pair_split ranking.now genus pair.now k (split_value split.now)) visitor.old visitor.new }
{
    let Some(left) = rank_with(ranking, k, split.part.as_slice(), pair.a) else {
        return;
    };
    let Some(right) = rank_with(ranking, genus - k, split.rest.as_slice(), pair.b) else {
        return;
    };
    visitor.twice(&pair.weight, split.weight, left, right);
}
