ghost use Rattle.std.specs.Prelude.{◌≡◌, ◌<◌, ◌≤◌, true, [], length, None, IfOk};
ghost use Rattle.airy_math.specs.Keys.{euler};
ghost use Rattle.airy_math.specs.Families.{wp_shape};
ghost use Rattle.amp_plan.specs.Plans.{keys_of};
ghost use Rattle.series_law.specs.Amplitudes.{HoldsOutcomes};
ghost use Rattle.correlators.specs.Volumes.{parts_of, asked_refusal, IsVolume};
ghost use Rattle.correlators.specs.Kept.{IsAsked, AddsOf, lists_of};
ghost use Rattle.correlators.specs.Laws.{VolumeOfSolutions};

use crate::coefficients::{coefficients, first_without};
use crate::lists::{Source, add_terms};
use crate::{CorrErr, Poly, Term, counted};
use amp_plan::Plan;
use amp_terms::Table;
use arrayvec::ArrayVec;
use std::alloc::{AllocError, Global};

/// The most lists of indices that a volume may have.
const MOST_LISTS: u64 = 100_000;

/// The volume V(g,n) that a table of the plan gives, for tensors with a letter and the law of Weil and Petersson: the sum over all lists of
/// n indices of F(g,n)[d1 .. dn] times the product of Lk^(2 dk) / (2 dk + 1)!, F the amplitude with its power of the letter (M. Mirzakhani,
/// Weil-Petersson volumes and intersection theory on the moduli space of curves, 2007). (g,n) is stable, and n from 1 to 26.
///
/// The coefficient of a key is its Value over 2, 3, .., 2d + 1 for each index d, ascending, one after the other. Terms of value 0 are left
/// out. The others come by the sum of their list ascending, and within one sum descending as in a dictionary. Where each filled cell of
/// the table holds its rank's outcome, the polynomial is the volume of every solution.
///
/// The refusals, in this order: `Kind` exactly where the tensors carry no letter, `Beyond` exactly where the Euler number is above the
/// bound, `Terms` exactly where there are more than 100,000 lists, `Index` exactly where an index of a covered key of (g,n) isn't below
/// dim, `NotValue` exactly where the table has no Value at some planned key of (g,n), and `Over` exactly where a step of the division
/// of one leaves the range; both name the first such key in plan order. `NoMemory` may come at any step behind `Index`.
pub fn volume(alloc: Global, plan: &Plan, table: &Table, g: u8, n: u8) -> Result<Poly, CorrErr>
    requires len { length table.now ≡ length (keys_of plan.now) }
    requires stable { 0 < euler g n }
    requires some { 1 ≤ n }
    requires most { n ≤ 26 }
    requires law { plan.now.tensors.letter ≡ true → plan.now.tensors.shape ≡ wp_shape }
    ensures answer { IsVolume plan.now table.now g n result }
    ensures unique { HoldsOutcomes plan.now table.now → IfOk result (λ poly. VolumeOfSolutions plan.now g n (parts_of poly.terms.items)) }
{
    if let Some(refusal) = refused(plan, g, n) {
        return Err(refusal);
    }
    if let Some(key) = first_without(plan, table, g, n) {
        return Err(CorrErr::NotValue { key });
    }
    let coefficients = match coefficients(alloc, plan, table, g, n) {
        Ok(coefficients) => coefficients,
        Err(refusal) => return Err(refusal),
    };
    plan.planned_fact();
    let source = Source {
        plan,
        coefficients: coefficients.as_slice(),
        genus: g,
        places: n,
    };
    match all_terms(alloc, &source) {
        Ok(terms) => Ok(Poly { terms }),
        Err(_) => Err(CorrErr::NoMemory),
    }
}

/// What the plan and the pair alone refuse.
#[tactic(auto, unfolding(crate::specs::Volumes::asked_refusal, airy_math::specs::Keys::euler))]
fn refused(plan: &Plan, g: u8, n: u8) -> Option<CorrErr>
    requires stable { 0 < euler g n }
    requires some { 1 ≤ n }
    requires most { n ≤ 26 }
    requires law { plan.now.tensors.letter ≡ true → plan.now.tensors.shape ≡ wp_shape }
    ensures answer { result ≡ asked_refusal plan.now g n }
    ensures asked { result ≡ None → IsAsked plan.now g n }
{
    if !plan.tensors().letter() {
        return Some(CorrErr::Kind);
    }
    if 2 * u16::from(g) + u16::from(n) - 2 > u16::from(plan.bound()) {
        return Some(CorrErr::Beyond);
    }
    plan.limits_fact();
    let counted = counted(g, n);
    if counted > MOST_LISTS {
        return Some(CorrErr::Terms { counted });
    }
    if u16::from(plan.tensors().dim()) <= 3 * u16::from(g) + u16::from(n) - 3 {
        return Some(CorrErr::Index);
    }
    None
}

/// The terms of all lists, by their sums ascending.
fn all_terms(alloc: Global, source: &Source<'_>) -> Result<Vec<Term>, AllocError>
    requires asked { IsAsked source.now.plan.now source.now.genus source.now.places }
    requires len { length source.now.coefficients.now ≡ length (keys_of source.now.plan.now) }
    ensures { IfOk result (λ terms. AddsOf source.now (lists_of source.now) [] terms.items) }
{
    let mut terms = Vec::new(alloc);
    let mut prefix = ArrayVec::new();
    for sum in 0..3 * source.genus + source.places - 2 {
        add_terms(&mut terms, &mut prefix, source, source.places, sum)?;
    }
    Ok(terms)
}
