ghost use Rattle.std.specs.Prelude.{◌≡◌, ◌+◌, ◌*◌, ◌≤◌, ◌∷◌, [], length, map, OnOk};
ghost use Rattle.airy_math.specs.Keys.{total};
ghost use Rattle.amp_plan.specs.Plans.{keys_of};
ghost use Rattle.correlators.specs.Volumes.{greatest_sum, lists_of_sum};
ghost use Rattle.correlators.specs.Kept.{IsAsked, behind, AddsOf};

use crate::Term;
use airy_index::Key;
use amp_plan::{Place, Plan};
use arrayvec::ArrayVec;
use frac128::Frac;
use std::alloc::AllocError;

/// What the terms of a volume V(g,n) are made of: the coefficients stand by rank.
#[derive(Clone, Copy)]
pub(crate) struct Source<'a> {
    pub(crate) plan: &'a Plan,
    pub(crate) coefficients: &'a [Frac],
    pub(crate) genus: u8,
    pub(crate) places: u8,
}

/// The list with each number doubled.
fn doubled(list: &[u8]) -> ArrayVec<u8, 26>
    requires room { length list.now ≤ 26 }
    requires small { total list.now ≤ 127 }
    ensures { result.items ≡ map (λ d. 2 * d) list.now }
{
    let mut powers = ArrayVec::new();
    for d in list {
        powers.push(2 * *d);
    }
    powers
}

/// Adds the term of a list, where its coefficient isn't 0.
fn add_term(terms: &mut Vec<Term>, source: &Source<'_>, list: &[u8]) -> Result<(), AllocError>
    requires asked { IsAsked source.now.plan.now source.now.genus source.now.places }
    requires len { length source.now.coefficients.now ≡ length (keys_of source.now.plan.now) }
    requires places { length list.now ≡ source.now.places }
    requires sum { total list.now ≤ greatest_sum source.now.genus source.now.places }
    ensures { OnOk result (AddsOf source.now (list.now ∷ []) terms.old.items terms.new.items) }
{
    source.plan.planned_fact();
    let Ok(key) = Key::of(source.genus, list) else {
        unreachable!()
    };
    key.validity_fact();
    let Place::At(rank) = source.plan.rank_of(&key) else {
        unreachable!()
    };
    let coef = source.coefficients[rank as usize];
    if coef.is_zero() {
        return Ok(());
    }
    terms.push(Term {
        coef,
        letter: source.plan.letter(&key),
        powers: doubled(list),
    })?;
    Ok(())
}

/// Adds the terms of the lists that are the prefix and then `places` more numbers whose sum is `left`, descending as in a dictionary.
pub(crate) fn add_terms(
    terms: &mut Vec<Term>,
    prefix: &mut ArrayVec<u8, 26>,
    source: &Source<'_>,
    places: u8,
    left: u8,
) -> Result<(), AllocError>
    requires asked { IsAsked source.now.plan.now source.now.genus source.now.places }
    requires len { length source.now.coefficients.now ≡ length (keys_of source.now.plan.now) }
    requires some { 1 ≤ places }
    requires places { length prefix.old.items + places ≡ source.now.places }
    requires sum { total prefix.old.items + left ≤ greatest_sum source.now.genus source.now.places }
    ensures prefix { prefix.new ≡ prefix.old }
    ensures added { OnOk result (AddsOf source.now (behind prefix.old.items (lists_of_sum places left)) terms.old.items terms.new.items) }
{
    if places == 1 {
        prefix.push(left);
        let done = add_term(terms, source, prefix.as_slice());
        prefix.pop();
        return done;
    }
    for rest in 0..left + 1 {
        prefix.push(left - rest);
        let done = add_terms(terms, prefix, source, places - 1, rest);
        prefix.pop();
        done?;
    }
    Ok(())
}
