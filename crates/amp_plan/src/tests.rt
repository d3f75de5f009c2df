ghost use Rattle.std.specs.Prelude.{◌<◌, ◌≤◌, length};
ghost use Rattle.airy_math.specs.Planned.{IsPlanned};
ghost use Rattle.amp_plan.specs.Plans.{keys_of, tensors_of};

use crate::{Place, Plan, PlanCause, TermVisitor, walk_terms};
use airy_index::{Key, Law, Shape};
use frac128::Frac;
use running_sum::Weight;
use sparse_tensor::{PutErr, Tensors};
use std::alloc::Global;
use std::test::Fail;

const WK: Law = Law { per_g: 3, per_n: 1 };

/// Tensors without entries, of a shape with room for a letter where there is to be one.
#[tactic(auto, unfolding(sparse_tensor::specs::Grades::IsSmallLaw, sparse_tensor::specs::Grades::IsAtMost))]
fn graded(alloc: Global, dim: u8, letter: bool) -> Result<Tensors, Fail>
    requires some { 0 < dim }
    requires most { dim ≤ 72 }
{
    if letter {
        return Ok(Tensors::empty(alloc, dim, Shape::AtMost(WK), true)?);
    }
    Ok(Tensors::empty(alloc, dim, Shape::Exact(WK), false)?)
}

#[tactic(auto, unfolding(sparse_tensor::specs::Grades::IsSmallLaw))]
fn ungraded(alloc: Global, dim: u8) -> Result<Tensors, Fail>
    requires some { 0 < dim }
    requires most { dim ≤ 72 }
{
    Ok(Tensors::empty(alloc, dim, Shape::All, false)?)
}

/// The tensors of Witten and Kontsevich with all indices up to `top`: `A^0_00 = 1`, `B^i_jk = 2j + 1` where
/// `i + j = k + 1`, `C^i_jk = 1` where `i = j + k + 2`, `D^1 = 1/8`.
fn wk(alloc: Global, top: u8) -> Result<Tensors, Fail>
    requires { top < 72 }
{
    let mut t = graded(alloc, top + 1, false)?;
    put_wk(&mut t, top)?;
    Ok(t)
}

fn put_wk(t: &mut Tensors, top: u8) -> Result<(), PutErr>
    requires { top < 72 }
{
    t.put_a(0, 0, 0, Frac::whole(1))?;
    if top > 0 {
        t.put_d(1, Frac::new(1, 8).unwrap_or(Frac::whole(0)))?;
    }
    for j in 0..=top {
        for i in 0..=top {
            put_with(t, i, j, top)?;
        }
    }
    Ok(())
}

/// The entries of B whose first two indices are i and j, and those of C whose last two are.
fn put_with(t: &mut Tensors, i: u8, j: u8, top: u8) -> Result<(), PutErr>
    requires i { i < 72 }
    requires j { j < 72 }
{
    if i + j >= 1 && i + j - 1 <= top {
        t.put_b(i, j, i + j - 1, Frac::whole(2 * i64::from(j) + 1))?;
    }
    if i <= j && i + j + 2 <= top {
        t.put_c(i + j + 2, i, j, Frac::whole(1))?;
    }
    Ok(())
}

fn planned(alloc: Global, tensors: Tensors, bound: u8) -> Result<Plan, Fail> {
    match Plan::make(alloc, tensors, bound) {
        Ok(plan) => Ok(plan),
        Err(_) => Err("plan".into()),
    }
}

/// The plan of these tensors with all indices that a table up to the bound can need.
fn plan_of_wk(alloc: Global, bound: u8) -> Result<Plan, Fail>
    requires some { 0 < bound }
    requires most { bound ≤ 24 }
{
    let tensors = wk(alloc, bound - 1 + (bound + 1) / 2)?;
    planned(alloc, tensors, bound)
}

/// Whether the key of that genus with those indices stands there.
fn stands(plan: &Plan, g: u8, indices: &[u8], place: Place) -> bool {
    match Key::of(g, indices) {
        Ok(key) => plan.rank_of(&key) == place,
        Err(_) => false,
    }
}

/// Whether the key of a rank has this text, stands there, and has these needs and dependents.
fn is_row(plan: &Plan, rank: u32, text: &[u8], needs: &[u32], dependents: &[u32]) -> bool {
    if rank >= plan.len() {
        return false;
    }
    let key = plan.key(rank);
    let mut written = [0u8; 128];
    let end = key.write_into(&mut written);
    &written[..end] == text
        && plan.rank_of(&key) == Place::At(rank)
        && plan.needs(rank) == needs
        && plan.dependents(rank) == dependents
}

fn are_rows(plan: &Plan) -> bool {
    is_row(plan, 0, b"0,3 [0 0 0]", &[], &[2])
        && is_row(plan, 1, b"1,1 [1]", &[], &[3, 4])
        && is_row(plan, 2, b"0,4 [0 0 0 1]", &[0], &[])
        && is_row(plan, 3, b"1,2 [0 2]", &[1], &[])
        && is_row(plan, 4, b"1,2 [1 1]", &[1], &[])
}

fn has_sizes(plan: &Plan) -> bool {
    plan.len() == 5 && plan.edges() == 3 && plan.bound() == 2 && plan.tensors().dim() == 3
}

#[test]
fn the_plan_of_wk_up_to_2(rt: HostRuntime) -> Result<(), Fail> {
    let plan = plan_of_wk(rt.alloc(), 2)?;
    assert!(rt; has_sizes(&plan));
    assert!(rt; are_rows(&plan));
    Ok(())
}

/// Whether the plan of that bound has its number of keys, and up to 10 its number of needs.
fn has_numbers(plan: &Plan, bound: u8) -> bool
    requires some { 0 < bound }
    requires most { bound < 13 }
{
    let keys = [2, 5, 11, 22, 42, 76, 133, 225, 372, 601, 952, 1481];
    let needs = [0, 3, 12, 27, 62, 125, 241, 437, 775, 1331];
    let at = bound as usize - 1;
    plan.len() == keys[at]
        && plan.keys().len() == plan.len() as usize
        && (bound > 10 || plan.edges() == needs[at])
}

#[test]
fn the_plans_of_wk_have_their_numbers_of_keys_and_needs(rt: HostRuntime) -> Result<(), Fail> {
    for bound in 1..13 {
        let plan = plan_of_wk(rt.alloc(), bound)?;
        assert!(rt; has_numbers(&plan, bound));
    }
    Ok(())
}

fn are_places(plan: &Plan) -> bool {
    stands(plan, 0, &[1, 0, 0, 0], Place::At(2))
        && stands(plan, 2, &[4], Place::At(10))
        && stands(plan, 1, &[5], Place::Zero)
        && stands(plan, 3, &[7], Place::Beyond)
}

#[test]
fn a_key_stands_at_its_rank_or_nowhere(rt: HostRuntime) -> Result<(), Fail> {
    let plan = plan_of_wk(rt.alloc(), 3)?;
    assert!(rt; are_places(&plan));
    Ok(())
}

#[test]
fn an_index_is_below_dim(rt: HostRuntime) -> Result<(), Fail> {
    let plan = planned(rt.alloc(), graded(rt.alloc(), 2, false)?, 3)?;
    assert!(rt; stands(&plan, 1, &[1], Place::At(1)));
    assert!(rt; stands(&plan, 1, &[2, 0], Place::BadIndex));
    Ok(())
}

fn is_bound(cause: &PlanCause, bound: u8) -> bool {
    match cause {
        PlanCause::Bound { got } => *got == bound,
        _ => false,
    }
}

/// Whether tensors of this dim have no plan up to the bound since it is 0 or above 24, and come back.
fn is_bound_refused(alloc: Global, tensors: Tensors, bound: u8, dim: u8) -> bool {
    match Plan::make(alloc, tensors, bound) {
        Ok(_) => false,
        Err(refusal) => is_bound(&refusal.cause, bound) && refusal.tensors.dim() == dim,
    }
}

#[test]
fn a_bound_is_from_1_to_24(rt: HostRuntime) -> Result<(), Fail> {
    for bound in [0, 25, 255] {
        let tensors = graded(rt.alloc(), 3, false)?;
        assert!(rt; is_bound_refused(rt.alloc(), tensors, bound, 3));
    }
    Ok(())
}

fn is_level(cause: &PlanCause, level: u8) -> bool {
    match cause {
        PlanCause::Cells { level: found } => *found == level,
        _ => false,
    }
}

/// Whether tensors of this dim have no plan since the keys up to that level are too many, and come back.
fn is_level_refused(alloc: Global, tensors: Tensors, level: u8, dim: u8) -> bool {
    match Plan::make(alloc, tensors, level) {
        Ok(_) => false,
        Err(refusal) => is_level(&refusal.cause, level) && refusal.tensors.dim() == dim,
    }
}

#[test]
fn a_plan_has_at_most_200_000_keys(rt: HostRuntime) -> Result<(), Fail> {
    let dense = ungraded(rt.alloc(), 32)?;
    assert!(rt; is_level_refused(rt.alloc(), dense, 3, 32));
    Ok(())
}

/// Whether the two plans have the same key at a rank, with the same needs and dependents.
fn is_same_row(left: &Plan, right: &Plan, rank: u32) -> bool {
    rank < left.len()
        && rank < right.len()
        && right.rank_of(&left.key(rank)) == Place::At(rank)
        && left.needs(rank) == right.needs(rank)
        && left.dependents(rank) == right.dependents(rank)
}

fn are_same_rows(left: &Plan, right: &Plan) -> bool {
    for rank in 0..left.len() {
        if !is_same_row(left, right, rank) {
            return false;
        }
    }
    true
}

/// Whether the plan grows up to the bound to one as the other.
fn grows_to(alloc: Global, plan: Plan, bound: u8, other: &Plan) -> bool {
    if plan.bound() >= bound || bound > 24 {
        return false;
    }
    match plan.grow(alloc, bound) {
        Ok(plan) => plan.len() == other.len()
            && plan.bound() == bound
            && are_same_rows(&plan, other),
        Err(_) => false,
    }
}

#[test]
fn a_plan_grows_to_the_one_of_a_greater_bound(rt: HostRuntime) -> Result<(), Fail> {
    let large = plan_of_wk(rt.alloc(), 3)?;
    let small = planned(rt.alloc(), wk(rt.alloc(), 4)?, 1)?;
    assert!(rt; grows_to(rt.alloc(), small, 3, &large));
    Ok(())
}

fn rank_needs_nothing(plan: &Plan, rank: u32) -> bool {
    rank < plan.len() && plan.needs(rank).is_empty()
}

/// Whether this is the plan of 32 indices of any shape up to the bound 1.
fn is_small_one(plan: &Plan) -> bool {
    plan.bound() == 1
        && plan.len() == 6016
        && stands(plan, 1, &[31], Place::At(6015))
        && rank_needs_nothing(plan, 0)
}

/// Whether the plan doesn't grow since the keys up to that level are too many, and comes back.
fn is_growth_refused(alloc: Global, plan: Plan, level: u8) -> bool {
    if plan.bound() >= level || level > 24 {
        return false;
    }
    match plan.grow(alloc, level) {
        Ok(_) => false,
        Err(refusal) => is_level(&refusal.cause, level) && is_small_one(&refusal.plan),
    }
}

#[test]
fn a_plan_that_does_not_grow_comes_back(rt: HostRuntime) -> Result<(), Fail> {
    let plan = planned(rt.alloc(), ungraded(rt.alloc(), 32)?, 1)?;
    assert!(rt; is_growth_refused(rt.alloc(), plan, 3));
    Ok(())
}

/// Whether the key of genus 1 with those indices has this power of the letter.
fn has_power(plan: &Plan, indices: &[u8], power: u16) -> bool {
    match Key::of(1, indices) {
        Ok(key) => plan.letter(&key) == power,
        Err(_) => false,
    }
}

fn has_powers(plan: &Plan, power: u16) -> bool {
    has_power(plan, &[0, 0], power) && has_power(plan, &[2, 2], 0)
}

/// Whether the keys of tensors, with or without a letter, have their powers of it, where one of them has this one.
fn has_powers_up_to_2(alloc: Global, letter: bool, power: u16) -> Result<bool, Fail> {
    let tensors = graded(alloc, 3, letter)?;
    let plan = planned(alloc, tensors, 2)?;
    Ok(has_powers(&plan, power))
}

#[test]
fn a_key_has_its_power_of_the_letter(rt: HostRuntime) -> Result<(), Fail> {
    assert!(rt; has_powers_up_to_2(rt.alloc(), false, 0)?);
    assert!(rt; has_powers_up_to_2(rt.alloc(), true, 2)?);
    Ok(())
}

/// Counts the products that it takes.
#[derive(Drop)]
struct Products {
    count: u64,
}

impl TermVisitor for Products {
    ghost State = { Unit };

    ghost state = { λ p. tt };

    ghost step = { λ s t. tt };

    ghost allows = { λ p r. Unit };

    fn alone(&mut self, _: Frac) {}

    fn once(&mut self, _: u8, _: Frac, _: u32) {}

    fn joined(&mut self, _: &Weight, _: u32) {}

    fn twice(&mut self, _: &Weight, _: u64, _: u32, _: u32) {
        self.count = self.count.wrapping_add(1);
    }
}

/// The number of products in the pivot sum of a key.
fn walked(plan: &Plan, key: &Key, at: usize) -> u64
    requires planned { IsPlanned (tensors_of plan.now) plan.now.bound key.now }
    requires at { at < length key.now.idx }
{
    let mut products = Products { count: 0 };
    walk_terms(plan, key, key.idx()[at], &mut products);
    products.count
}

/// How many products all keys have at all places.
fn products_of_all(plan: &Plan) -> u64 {
    airy_math::planned_once();
    let mut count = 0u64;
    for rank in 0..plan.len() {
        let key = plan.key(rank);
        for at in 0..key.idx().len() {
            count = count.wrapping_add(walked(plan, &key, at));
        }
    }
    count
}

/// Puts the entries of C whose first two indices are i and j.
fn put_c_with(t: &mut Tensors, i: u8, j: u8) -> Result<(), PutErr> {
    for k in 0..3 {
        if j <= k {
            t.put_c(i, j, k, Frac::whole(1))?;
        }
    }
    Ok(())
}

/// Puts all entries of C at indices below 3.
fn put_all_c(t: &mut Tensors) -> Result<(), PutErr> {
    for i in 0..3 {
        for j in 0..3 {
            put_c_with(t, i, j)?;
        }
    }
    Ok(())
}

/// The plan of tensors of dim 3 with all entries of C.
fn planned_with_all_c(alloc: Global, tensors: Tensors, bound: u8) -> Result<Plan, Fail> {
    let mut tensors = tensors;
    put_all_c(&mut tensors)?;
    planned(alloc, tensors, bound)
}

// The numbers of products are those of a program that tries all splits of all keys.
#[test]
fn the_walk_meets_the_products_of_an_exact_shape(rt: HostRuntime) -> Result<(), Fail> {
    let plan = plan_of_wk(rt.alloc(), 7)?;
    assert!(rt; products_of_all(&plan) == 677);
    Ok(())
}

// Of the lists of splits that are walked over here some have up to 64 splits, some up to 256, and two 270.
#[test]
fn the_walk_meets_the_products_with_each_room(rt: HostRuntime) -> Result<(), Fail> {
    let plan = plan_of_wk(rt.alloc(), 14)?;
    assert!(rt; products_of_all(&plan) == 185_813);
    Ok(())
}

#[test]
fn the_walk_meets_the_products_up_to_a_sum(rt: HostRuntime) -> Result<(), Fail> {
    let plan = planned_with_all_c(rt.alloc(), graded(rt.alloc(), 3, true)?, 5)?;
    assert!(rt; products_of_all(&plan) == 1167);
    Ok(())
}

#[test]
fn the_walk_meets_the_products_without_a_law(rt: HostRuntime) -> Result<(), Fail> {
    let plan = planned_with_all_c(rt.alloc(), ungraded(rt.alloc(), 3)?, 3)?;
    assert!(rt; products_of_all(&plan) == 1890);
    Ok(())
}
