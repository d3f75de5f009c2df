ghost use Rattle.std.specs.Prelude.{◌≡◌, ◌≤◌, ◌<◌, ◌+◌, suc};
ghost use Rattle.airy_math.specs.Relations.{Close};
ghost use Rattle.sparse_tensor.specs.Entries.{looked_up};
ghost use Rattle.airy_relations.specs.Places.{choices_k, choices_l};
ghost use Rattle.airy_relations.specs.Verdicts.{verdict, verdict_at};
ghost use Rattle.airy_relations.specs.Numbers.{TellsFailure};
ghost use Rattle.airy_relations.specs.Walks.{place, over_i, over_j, over_k, over_l};

use crate::sides::side;
use crate::verdict::{Rel, Verdict};
use sparse_tensor::Tensors;

/// The verdict of one place.
#[tactic(auto, using(crate::proofs::VerdictLemmas::equal_sides), unfolding(crate::specs::Verdicts::verdict_at, crate::specs::Verdicts::compared, crate::specs::Places::indices, crate::specs::Walks::place))]
fn check_place(t: &Tensors, rel: Rel, i: u8, j: u8, k: u8, l: u8) -> Verdict
    requires k_below { k < (looked_up t.now).dim }
    requires l_below { l < (looked_up t.now).dim }
    ensures { result ≡ verdict_at (looked_up t.now) (place rel i j k l) }
{
    let place = [i, j, k, l];
    let Some(left) = side(t, rel, i, j, k, l) else {
        return Verdict::Over { rel, place };
    };
    let Some(right) = side(t, rel, j, i, k, l) else {
        return Verdict::Over { rel, place };
    };
    if left == right {
        return Verdict::Closed;
    }
    Verdict::Differs {
        rel,
        place,
        left,
        right,
    }
}

/// How many k a relation has; where it has none, the one 0.
#[tactic(auto, unfolding(crate::specs::Places::choices_k))]
fn count_k(rel: Rel, places: u8) -> u8
    ensures value { result ≡ choices_k rel places }
    ensures within { 0 < places → result ≤ places }
{
    match rel {
        Rel::AA | Rel::BA | Rel::BB | Rel::BC => places,
        Rel::D => 1,
    }
}

/// How many l a relation has; where it has none, the one 0.
#[tactic(auto, unfolding(crate::specs::Places::choices_l))]
fn count_l(rel: Rel, places: u8) -> u8
    ensures value { result ≡ choices_l rel places }
    ensures within { 0 < places → result ≤ places }
{
    match rel {
        Rel::BA | Rel::BB | Rel::BC => places,
        Rel::AA | Rel::D => 1,
    }
}

/// The first verdict that isn't Closed over the places with these i, j and k.
#[tactic(auto, using(crate::proofs::VerdictLemmas::along_numbers), unfolding(crate::specs::Walks::over_l))]
fn check_l(t: &Tensors, places: u8, rel: Rel, i: u8, j: u8, k: u8) -> Verdict
    requires some { 0 < places }
    requires most { places ≤ (looked_up t.now).dim }
    requires k_below { k < (looked_up t.now).dim }
    ensures { result ≡ over_l (looked_up t.now) places rel i j k }
{
    let end = count_l(rel, places);
    for l in 0..end {
        let found = check_place(t, rel, i, j, k, l);
        if !found.is_closed() {
            return found;
        }
    }
    Verdict::Closed
}

/// The first verdict that isn't Closed over the places with these i and j.
#[tactic(auto, using(crate::proofs::VerdictLemmas::along_numbers), unfolding(crate::specs::Walks::over_k))]
fn check_k(t: &Tensors, places: u8, rel: Rel, i: u8, j: u8) -> Verdict
    requires some { 0 < places }
    requires most { places ≤ (looked_up t.now).dim }
    ensures { result ≡ over_k (looked_up t.now) places rel i j }
{
    let end = count_k(rel, places);
    for k in 0..end {
        let found = check_l(t, places, rel, i, j, k);
        if !found.is_closed() {
            return found;
        }
    }
    Verdict::Closed
}

/// The first verdict that isn't Closed over the places with this i.
#[tactic(auto, using(crate::proofs::VerdictLemmas::along_numbers), unfolding(crate::specs::Walks::over_j))]
fn check_j(t: &Tensors, places: u8, rel: Rel, i: u8) -> Verdict
    requires some { 0 < places }
    requires most { places ≤ (looked_up t.now).dim }
    requires below { i < places }
    ensures { result ≡ over_j (looked_up t.now) places rel i }
{
    for j in i + 1..places {
        let found = check_k(t, places, rel, i, j);
        if !found.is_closed() {
            return found;
        }
    }
    Verdict::Closed
}

/// The first verdict that isn't Closed over the places of a relation.
#[tactic(auto, using(crate::proofs::VerdictLemmas::along_numbers), unfolding(crate::specs::Walks::over_i))]
fn check_i(t: &Tensors, places: u8, rel: Rel) -> Verdict
    requires some { 0 < places }
    requires most { places ≤ (looked_up t.now).dim }
    ensures { result ≡ over_i (looked_up t.now) places rel }
{
    for i in 0..places {
        let found = check_j(t, places, rel, i);
        if !found.is_closed() {
            return found;
        }
    }
    Verdict::Closed
}

/// The first verdict that isn't Closed over all places.
#[tactic(auto, using(crate::proofs::VerdictLemmas::along_list))]
fn check_all(t: &Tensors, places: u8) -> Verdict
    requires some { 0 < places }
    requires most { places ≤ (looked_up t.now).dim }
    ensures { result ≡ verdict (looked_up t.now) places }
{
    for rel in [Rel::AA, Rel::BA, Rel::BB, Rel::BC, Rel::D] {
        let found = check_i(t, places, rel);
        if !found.is_closed() {
            return found;
        }
    }
    Verdict::Closed
}

/// Checks the five relations in every place whose free indices are below `places`, with i below j. `places` is from 1 to
/// dim. The verdict is that of the first place that isn't fine, in the order AA, BA, BB, BC, D and in each by i, j, k and
/// l ascending; where there is none it is Closed. A place is fine where both sides are obtained and equal.
///
/// A side is obtained where each step of its ordered sum is obtained in 128 bits: the sum begins at 0, and for each a from
/// 0 to dim - 1 the three products of the expression are added in the order in which it has them. For D first the
/// products of `B^i_{ja}` and `D^a` are added by a ascending, and then for each entry v of `C^i_{ab}` with a at most b, by
/// a and then b ascending, the product of w and `A^j_{ab}`, where w is v, or v times 1/2 where a is b.
///
/// Where it says Closed, the relations hold below `places` by exact numbers, for all i and j. Where it says Differs, both
/// sides are exact, and that relation fails there. It takes no memory.
pub fn check(t: &Tensors, places: u8) -> Verdict
    requires some { 0 < places }
    requires most { places ≤ t.now.dim }
    ensures found { result ≡ verdict (looked_up t.now) places }
    ensures closed { result ≡ Verdict.Closed → Close (looked_up t.now) places }
    ensures differs { TellsFailure (looked_up t.now) places result }
{
    t.soundness_fact();
    check_all(t, places)
}
