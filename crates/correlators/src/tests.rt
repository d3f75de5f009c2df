ghost use Rattle.std.specs.Prelude.{◌≡◌, ◌≤◌, ◌<◌, length};
ghost use Rattle.airy_math.specs.Keys.{euler};
ghost use Rattle.amp_plan.specs.Plans.{keys_of};

use crate::{CorrErr, Poly, Term, number, volume};
use airy_index::{Key, Law, Shape};
use amp_plan::Plan;
use amp_terms::{Outcome, Table, one_thread};
use frac128::Frac;
use sparse_tensor::{PutErr, Tensors};
use std::alloc::Global;

/// The fraction num / den, or 0 where it is none.
fn fraction(num: i128, den: i128) -> Frac {
    Frac::new(num, den).unwrap_or(Frac::whole(0))
}

/// A fraction whose half and whose third leave the range.
fn thin() -> Frac {
    fraction(1, 1 << 126)
}

fn planned(alloc: Global, tensors: Tensors, bound: u8) -> Option<Plan> {
    Plan::make(alloc, tensors, bound).ok()
}

// ---- numbers

/// The entries of Witten and Kontsevich's tensors that 2,1 [4] rests on, up to 3.
fn put_wk(t: &mut Tensors) -> Result<(), PutErr> {
    t.put_b(0, 2, 1, Frac::whole(5))?;
    t.put_b(1, 1, 1, Frac::whole(3))?;
    t.put_c(4, 0, 2, Frac::whole(1))?;
    t.put_c(4, 1, 1, Frac::whole(1))?;
    t.put_d(1, fraction(1, 8))
}

#[tactic(auto, unfolding(sparse_tensor::specs::Grades::IsSmallLaw))]
fn wk(alloc: Global) -> Option<Plan> {
    let shape = Shape::Exact(Law { per_g: 3, per_n: 1 });
    let mut t = Tensors::empty(alloc, 5, shape, false).ok()?;
    put_wk(&mut t).ok()?;
    planned(alloc, t, 3)
}

/// The law of Witten and Kontsevich up to 1, with `D^1` too thin for a division where 1 is an index, and else 0.
#[tactic(auto, unfolding(sparse_tensor::specs::Grades::IsSmallLaw))]
fn thin_wk(alloc: Global, two_indices: bool) -> Option<Plan> {
    let shape = Shape::Exact(Law { per_g: 3, per_n: 1 });
    let dim = if two_indices { 2 } else { 1 };
    let mut t = Tensors::empty(alloc, dim, shape, false).ok()?;
    if two_indices {
        t.put_d(1, thin()).ok()?;
    }
    planned(alloc, t, 1)
}

/// Whether the number of a key with one index is num / den.
fn has_number(plan: &Plan, table: &Table, g: u8, index: u8, num: i128, den: i128) -> bool
    requires { length table.now ≡ length (keys_of plan.now) }
{
    let Ok(key) = Key::of(g, &[index]) else {
        return false;
    };
    match number(plan, table, &key) {
        Ok(number) => number.parts() == (num, den),
        Err(_) => false,
    }
}

fn has_numbers(plan: &Plan, table: &Table) -> bool
    requires { length table.now ≡ length (keys_of plan.now) }
{
    has_number(plan, table, 2, 4, 1, 1152) && has_number(plan, table, 1, 0, 0, 1)
}

/// Whether the key has that genus, and that index alone.
fn is_key(key: &Key, g: u8, index: u8) -> bool {
    key.g() == g && key.idx() == [index].as_slice()
}

/// Whether a refusal has this name, and names the key of that genus and index where it names one.
fn is_told(refusal: &CorrErr, name: &str, g: u8, index: u8) -> bool {
    match refusal {
        CorrErr::Kind => name == "Kind",
        CorrErr::Beyond => name == "Beyond",
        CorrErr::Terms { counted } => name == "Terms" && *counted == 1_144_066,
        CorrErr::Index => name == "Index",
        CorrErr::NotValue { key } => name == "NotValue" && is_key(key, g, index),
        CorrErr::Over { key } => name == "Over" && is_key(key, g, index),
        CorrErr::NoMemory => false,
    }
}

/// Whether the number of a key with one index is refused so.
fn refuses_number(plan: &Plan, table: &Table, g: u8, index: u8, name: &str) -> bool
    requires { length table.now ≡ length (keys_of plan.now) }
{
    let Ok(key) = Key::of(g, &[index]) else {
        return false;
    };
    match number(plan, table, &key) {
        Ok(_) => false,
        Err(refusal) => is_told(&refusal, name, g, index),
    }
}

/// Of 2,1 [4] the Euler number is above the bound, and the index isn't below dim either.
fn refuses_over_and_beyond(plan: &Plan, table: &Table) -> bool
    requires { length table.now ≡ length (keys_of plan.now) }
{
    refuses_number(plan, table, 1, 1, "Over") && refuses_number(plan, table, 2, 4, "Beyond")
}

// ---- volumes

/// The entries of Weil and Petersson's tensors that 1,1 and 0,4 rest on, up to 2, without the letter.
fn put_wp(t: &mut Tensors) -> Result<(), PutErr> {
    t.put_a(0, 0, 0, Frac::whole(1))?;
    t.put_b(0, 0, 0, fraction(2, 3))?;
    t.put_b(0, 1, 0, Frac::whole(3))?;
    t.put_b(1, 0, 0, Frac::whole(1))?;
    t.put_d(0, fraction(1, 12))?;
    t.put_d(1, fraction(1, 8))
}

#[tactic(auto, unfolding(sparse_tensor::specs::Grades::IsSmallLaw, sparse_tensor::specs::Grades::IsAtMost))]
fn wp(alloc: Global) -> Option<Plan> {
    let shape = Shape::AtMost(Law { per_g: 3, per_n: 1 });
    let mut t = Tensors::empty(alloc, 3, shape, true).ok()?;
    put_wp(&mut t).ok()?;
    planned(alloc, t, 2)
}

/// The law of Weil and Petersson, all entries 0.
#[tactic(auto, unfolding(sparse_tensor::specs::Grades::IsSmallLaw, sparse_tensor::specs::Grades::IsAtMost))]
fn no_wp(alloc: Global, dim: u8, letter: bool, bound: u8) -> Option<Plan>
    requires some { 1 ≤ dim }
    requires most { dim ≤ 72 }
{
    let shape = Shape::AtMost(Law { per_g: 3, per_n: 1 });
    let t = Tensors::empty(alloc, dim, shape, letter).ok()?;
    planned(alloc, t, bound)
}

/// The volume of (g,n), of tensors whose law is that of Weil and Petersson.
#[tactic(auto, unfolding(airy_math::specs::Families::wp_shape))]
fn volume_of(alloc: Global, plan: &Plan, table: &Table, g: u8, n: u8) -> Result<Poly, CorrErr>
    requires len { length table.now ≡ length (keys_of plan.now) }
    requires stable { 0 < euler g n }
    requires some { 1 ≤ n }
    requires most { n ≤ 26 }
{
    let Shape::AtMost(law) = plan.tensors().shape() else {
        return Err(CorrErr::NoMemory);
    };
    if law.per_g != 3 || law.per_n != 1 {
        return Err(CorrErr::NoMemory);
    }
    volume(alloc, plan, table, g, n)
}

fn is_term(term: &Term, num: i128, den: i128, letter: u16, powers: &[u8]) -> bool {
    term.coef.parts() == (num, den) && term.letter == letter && term.powers.as_slice() == powers
}

fn is_torus(terms: &[Term]) -> bool {
    terms.len() == 2 && is_term(&terms[0], 1, 12, 1, &[0]) && is_term(&terms[1], 1, 48, 0, &[2])
}

fn is_sphere(terms: &[Term]) -> bool {
    terms.len() == 5
        && is_term(&terms[0], 2, 1, 1, &[0, 0, 0, 0])
        && is_term(&terms[1], 1, 2, 0, &[2, 0, 0, 0])
        && is_term(&terms[4], 1, 2, 0, &[0, 0, 0, 2])
}

#[tactic(auto, unfolding(airy_math::specs::Keys::euler))]
fn has_torus(alloc: Global, plan: &Plan, table: &Table) -> bool
    requires { length table.now ≡ length (keys_of plan.now) }
{
    match volume_of(alloc, plan, table, 1, 1) {
        Ok(torus) => is_torus(torus.terms.as_slice()),
        Err(_) => false,
    }
}

#[tactic(auto, unfolding(airy_math::specs::Keys::euler))]
fn has_sphere(alloc: Global, plan: &Plan, table: &Table) -> bool
    requires { length table.now ≡ length (keys_of plan.now) }
{
    match volume_of(alloc, plan, table, 0, 4) {
        Ok(sphere) => is_sphere(sphere.terms.as_slice()),
        Err(_) => false,
    }
}

/// Whether there is no volume, for the refusal with this name; the key that it names is 1,1 with this index.
fn is_refused(answer: &Result<Poly, CorrErr>, name: &str, index: u8) -> bool {
    match answer {
        Ok(_) => false,
        Err(refusal) => is_told(refusal, name, 1, index),
    }
}

/// Whether the volume of (g,n) is refused so.
fn refuses(alloc: Global, plan: &Plan, table: &Table, g: u8, n: u8, name: &str, index: u8) -> bool
    requires len { length table.now ≡ length (keys_of plan.now) }
    requires stable { 0 < euler g n }
    requires some { 1 ≤ n }
    requires most { n ≤ 26 }
{
    let answer = volume_of(alloc, plan, table, g, n);
    is_refused(&answer, name, index)
}

/// Whether tensors without the letter refuse any pair, also one beyond the bound.
#[tactic(auto, unfolding(airy_math::specs::Keys::euler))]
fn refuses_kind(alloc: Global, plan: &Plan, table: &Table) -> bool
    requires { length table.now ≡ length (keys_of plan.now) }
{
    refuses(alloc, plan, table, 1, 1, "Kind", 0) && refuses(alloc, plan, table, 2, 10, "Kind", 0)
}

/// Whether tensors with it refuse any number.
fn refuses_number_kind(plan: &Plan, table: &Table) -> bool
    requires { length table.now ≡ length (keys_of plan.now) }
{
    refuses_number(plan, table, 1, 0, "Kind") && refuses_number(plan, table, 2, 4, "Kind")
}

/// Whether the volume of (2,10) is refused by that name. It has 1,144,066 lists, and its greatest index is 13.
#[tactic(auto, unfolding(airy_math::specs::Keys::euler))]
fn refuses_large(alloc: Global, plan: &Plan, table: &Table, name: &str) -> bool
    requires { length table.now ≡ length (keys_of plan.now) }
{
    refuses(alloc, plan, table, 2, 10, name, 0)
}

/// Whether the pair (0,4) is refused for an index, and not for the key without a Value.
#[tactic(auto, unfolding(airy_math::specs::Keys::euler))]
fn refuses_index(alloc: Global, plan: &Plan, table: &Table) -> bool
    requires { length table.now ≡ length (keys_of plan.now) }
{
    refuses(alloc, plan, table, 0, 4, "Index", 0)
}

/// Sets the Value at a rank, and answers whether the pair (1,1) is then refused by that name at the key with this index.
#[tactic(auto, unfolding(airy_math::specs::Keys::euler))]
fn refuses_with(
    alloc: Global,
    plan: &Plan,
    table: &mut Table,
    rank: u32,
    value: Frac,
    name: &str,
    index: u8,
) -> bool {
    if rank >= table.len() {
        return false;
    }
    table.set(rank, Outcome::Value(value));
    table.len() == plan.len() && refuses(alloc, plan, table, 1, 1, name, index)
}

/// With a Value too thin at 1,1 [1] and none at 1,1 [0] the latter is named, and with 0 there the former.
fn refuses_torus(alloc: Global, plan: &Plan, table: &mut Table) -> bool {
    refuses_with(alloc, plan, table, 2, thin(), "NotValue", 0)
        && refuses_with(alloc, plan, table, 1, Frac::whole(0), "Over", 1)
}

// ---- tests

/// What a test shows: of a number, or of a volume.
enum Case {
    Numbers,
    NumberKind,
    NumberOver,
    NumberNotValue,
    NumberIndex,
    Volumes,
    VolumeKind,
    VolumeBeyond,
    VolumeTerms,
    VolumeIndex,
    VolumeNotValueOrOver,
}

fn plan_of(alloc: Global, case: &Case) -> Option<Plan> {
    match case {
        Case::Numbers => wk(alloc),
        Case::NumberKind => no_wp(alloc, 1, true, 1),
        Case::NumberOver => thin_wk(alloc, true),
        Case::NumberNotValue => thin_wk(alloc, true),
        Case::NumberIndex => thin_wk(alloc, false),
        Case::Volumes => wp(alloc),
        Case::VolumeKind => no_wp(alloc, 1, false, 1),
        Case::VolumeBeyond => no_wp(alloc, 1, true, 11),
        Case::VolumeTerms => no_wp(alloc, 1, true, 12),
        Case::VolumeIndex => no_wp(alloc, 1, true, 2),
        Case::VolumeNotValueOrOver => no_wp(alloc, 2, true, 1),
    }
}

/// The table of the plan, or, where a key is to have no Value, an empty one.
fn table_of(alloc: Global, plan: &Plan, case: &Case) -> Option<Table> {
    match case {
        Case::NumberNotValue => Table::empty(alloc, plan.len()).ok(),
        Case::VolumeIndex => Table::empty(alloc, plan.len()).ok(),
        Case::VolumeNotValueOrOver => Table::empty(alloc, plan.len()).ok(),
        _ => one_thread(alloc, plan).ok(),
    }
}

fn shows(alloc: Global, plan: &Plan, table: &mut Table, case: &Case) -> bool
    requires { length table.old ≡ length (keys_of plan.now) }
{
    match case {
        Case::Numbers => has_numbers(plan, table),
        Case::NumberKind => refuses_number_kind(plan, table),
        Case::NumberOver => refuses_over_and_beyond(plan, table),
        Case::NumberNotValue => refuses_number(plan, table, 1, 1, "NotValue"),
        Case::NumberIndex => refuses_number(plan, table, 1, 1, "Index"),
        Case::Volumes => has_torus(alloc, plan, table) && has_sphere(alloc, plan, table),
        Case::VolumeKind => refuses_kind(alloc, plan, table),
        Case::VolumeBeyond => refuses_large(alloc, plan, table, "Beyond"),
        Case::VolumeTerms => refuses_large(alloc, plan, table, "Terms"),
        Case::VolumeIndex => refuses_index(alloc, plan, table),
        Case::VolumeNotValueOrOver => refuses_torus(alloc, plan, table),
    }
}

fn is_shown(alloc: Global, case: &Case) -> bool {
    let Some(plan) = plan_of(alloc, case) else {
        return false;
    };
    let Some(mut table) = table_of(alloc, &plan, case) else {
        return false;
    };
    table.len() == plan.len() && shows(alloc, &plan, &mut table, case)
}

fn are_shown(alloc: Global, one: &Case, other: &Case) -> bool {
    is_shown(alloc, one) && is_shown(alloc, other)
}

#[test]
fn numbers_of_a_table(rt: HostRuntime) {
    assert!(rt; is_shown(rt.alloc(), &Case::Numbers));
}

#[test]
fn a_number_whose_division_leaves_the_range(rt: HostRuntime) {
    assert!(rt; is_shown(rt.alloc(), &Case::NumberOver));
}

#[test]
fn a_number_without_a_value(rt: HostRuntime) {
    assert!(rt; is_shown(rt.alloc(), &Case::NumberNotValue));
}

#[test]
fn a_number_whose_index_is_not_below_dim(rt: HostRuntime) {
    assert!(rt; is_shown(rt.alloc(), &Case::NumberIndex));
}

#[test]
fn volumes_of_a_table(rt: HostRuntime) {
    assert!(rt; is_shown(rt.alloc(), &Case::Volumes));
}

#[test]
fn kinds_without_a_volume_or_a_number(rt: HostRuntime) {
    assert!(rt; are_shown(rt.alloc(), &Case::VolumeKind, &Case::NumberKind));
}

#[test]
fn a_volume_beyond_the_bound_or_with_many_terms(rt: HostRuntime) {
    assert!(rt; are_shown(rt.alloc(), &Case::VolumeBeyond, &Case::VolumeTerms));
}

#[test]
fn a_volume_whose_index_is_not_below_dim(rt: HostRuntime) {
    assert!(rt; is_shown(rt.alloc(), &Case::VolumeIndex));
}

#[test]
fn a_volume_without_a_value_or_whose_division_leaves_the_range(rt: HostRuntime) {
    assert!(rt; is_shown(rt.alloc(), &Case::VolumeNotValueOrOver));
}
