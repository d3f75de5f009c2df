ghost use Rattle.std.specs.Prelude.{◌≡◌, ◌<◌, ◌≤◌, ◌++◌, ◌∷◌, ◌^◌, ◌-◌, [], length, true};
ghost use Rattle.airy_math.specs.Keys.{Key as KeyValue, key_of, insert, ordered};
ghost use Rattle.airy_math.specs.Shapes.{per_n as shape_per_n};
ghost use Rattle.amp_plan.specs.Plans.{tensors_of, keys_of};
ghost use Rattle.index_lists.specs.Measures.{IsMeasured};
ghost use Rattle.amp_plan.specs.Candidates.{IsCandidate};
ghost use Rattle.index_lists.specs.Rests.{IsRest};
ghost use Rattle.amp_plan.specs.Walk.{HasRoom, live_rank};

use crate::pair::Pair;
use crate::place::Place;
use crate::ranking::Ranking;
use airy_index::Key;
use arrayvec::ArrayVec;
use index_lists::{Measure, Rest, covers_excess, per_n};
use key_index::{KeyIndex, genus_code};

/// The list with one more index at its end.
fn with_index(list: &[u8], x: u8) -> ArrayVec<u8, 26>
    requires { length list.now < 26 }
    ensures { result.items ≡ list.now ++ x ∷ [] }
{
    let mut all = ArrayVec::new();
    for y in list {
        all.push(*y);
    }
    all.push(x);
    all
}

/// The rank of the key of a genus and a list with one more index, where that key is live. The key is made and looked for.
pub(crate) fn rank_with(ranking: &Ranking, genus: u8, list: &[u8], x: u8) -> Option<u32>
    requires room { HasRoom (tensors_of ranking.now) ranking.now.bound genus (ordered list.now) }
    requires small { x < ranking.now.tensors.dim }
    ensures { result ≡ live_rank ranking.now (key_of genus (insert x (ordered list.now))) }
{
    ranking.is_small();
    let indices = with_index(list, x);
    match Key::of(genus, indices.as_slice()) {
        Ok(key) => match ranking.rank_of(&key) {
            Place::At(rank) => Some(rank),
            _ => None,
        },
        Err(_) => None,
    }
}

/// The rank of the key of a genus whose indices have this measure, where that key is live.
pub(crate) fn find_live(
    ranking: &Ranking,
    index: &KeyIndex,
    genus: u8,
    indices: Measure,
) -> Option<u32>
    requires keys { index.now.keys ≡ keys_of ranking.now }
    requires exact { index.now.exact ≡ true }
    requires code { indices.code < 2 ^ 63 }
    ensures { (key : KeyValue) → IsCandidate ranking.now genus indices key → result ≡ live_rank ranking.now key }
{
    if 2 * u16::from(genus) + u16::from(indices.places) <= 2 {
        return None;
    }
    if !covers_excess(ranking.tensors().shape(), genus, indices.excess) {
        return None;
    }
    airy_math::planned_once();
    index.find(genus_code(genus) + indices.code)
}

/// The same of a list in order that has this measure, by the key's code where codes tell all keys apart.
pub(crate) fn rank_beside(
    ranking: &Ranking,
    genus: u8,
    list: &[u8],
    measure: &Measure,
    x: u8,
) -> Option<u32>
    requires room { HasRoom (tensors_of ranking.now) ranking.now.bound genus list.now }
    requires small { x < ranking.now.tensors.dim }
    requires measured { IsMeasured (shape_per_n ranking.now.tensors.shape) list.now measure.now }
    ensures { result ≡ live_rank ranking.now (key_of genus (insert x list.now)) }
{
    let index = ranking.index();
    if !index.is_exact() {
        return rank_with(ranking, genus, list, x);
    }
    ranking.is_small();
    ranking.tensors().soundness_fact();
    let per_n = per_n(ranking.tensors().shape());
    let indices = Measure::of(index, per_n, x).plus(*measure);
    find_live(ranking, index, genus, indices)
}

/// The rank of the key of a joined term, where that key is live: both indices of the pair with what is left.
pub(crate) fn rank_joined(ranking: &Ranking, genus: u8, rest: &Rest, pair: &Pair) -> Option<u32>
    requires some { 0 < genus }
    requires rest { IsRest (shape_per_n ranking.now.tensors.shape) rest.now }
    requires room { HasRoom (tensors_of ranking.now) ranking.now.bound genus rest.now.list.items }
    requires a { pair.now.a < ranking.now.tensors.dim }
    requires b { pair.now.b < ranking.now.tensors.dim }
    ensures { result ≡ live_rank ranking.now (key_of (genus - 1) (insert pair.now.a (insert pair.now.b rest.now.list.items))) }
{
    ranking.is_small();
    let index = ranking.index();
    if !index.is_exact() {
        let with_b = with_index(rest.list.as_slice(), pair.b);
        return rank_with(ranking, genus - 1, with_b.as_slice(), pair.a);
    }
    ranking.tensors().soundness_fact();
    let per_n = per_n(ranking.tensors().shape());
    let with_b = Measure::of(index, per_n, pair.b).plus(rest.whole);
    let indices = Measure::of(index, per_n, pair.a).plus(with_b);
    find_live(ranking, index, genus - 1, indices)
}
