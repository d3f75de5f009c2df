ghost use Rattle.std.specs.Prelude.{◌≡◌, ◌<◌, ◌≤◌, length};
ghost use Rattle.amp_plan.specs.Plans.{keys_of, tensors_of};
ghost use Rattle.amp_terms.specs.Tables.{full_table};

use crate::{CheckEnd, check_crew, check_table};
use airy_index::Key;
use amp_plan::Plan;
use amp_terms::{Table, one_thread};
use frac128::Frac;
use sparse_tensor::{PutErr, Shape, Tensors};
use std::alloc::Global;
use std::thread::Threads;

/// The fraction num / den, or 0 where it is none.
fn fraction(num: i128, den: i128) -> Frac {
    Frac::new(num, den).unwrap_or(Frac::whole(0))
}

// ---- ends

/// An end that is wanted: the key by its genus and indices, pivots, and the fractions of two orders.
#[derive(Drop)]
enum Wanted<'a> {
    Solution,
    NotValue(u8, &'a [u8]),
    Over(u8, &'a [u8], u8),
    Orders(u8, &'a [u8], (u8, i128, i128), (u8, i128, i128)),
}

fn is_key(key: &Key, g: u8, idx: &[u8]) -> bool {
    key.g() == g && key.idx() == idx
}

/// Whether an order's pivot and sum are these.
fn is_order(pivot: u8, sum: Frac, wanted: &(u8, i128, i128)) -> bool {
    pivot == wanted.0 && sum.parts() == (wanted.1, wanted.2)
}

fn is_so(end: &CheckEnd, wanted: &Wanted<'_>) -> bool {
    match end {
        CheckEnd::Solution => matches!(wanted, Wanted::Solution),
        CheckEnd::NotValue { key } => match wanted {
            Wanted::NotValue(g, idx) => is_key(key, *g, *idx),
            _ => false,
        },
        CheckEnd::Over { key, pivot } => match wanted {
            Wanted::Over(g, idx, i) => is_key(key, *g, *idx) && pivot == i,
            _ => false,
        },
        CheckEnd::Orders {
            key,
            first,
            v1,
            second,
            v2,
        } => match wanted {
            Wanted::Orders(g, idx, one, other) => {
                is_key(key, *g, *idx) && is_order(*first, *v1, one) && is_order(*second, *v2, other)
            }
            _ => false,
        },
    }
}

// ---- checks

/// Whether the check by so many threads beside the calling one ends so.
fn crew_ends_so<R: Threads + Sync>(
    rt: &R,
    alloc: Global,
    plan: &Plan,
    table: &Table,
    crew: u8,
    wanted: &Wanted<'_>,
) -> bool
    requires outcomes { table.now ≡ full_table (tensors_of plan.now) plan.now.bound }
    requires len { length table.now ≡ length (keys_of plan.now) }
    requires crew { crew ≤ 16 }
{
    is_so(&check_crew(rt, alloc, plan, table, crew), wanted)
}

/// Whether the check ends so by the calling thread, and by each crew.
fn each_ends_so<R: Threads + Sync>(
    rt: &R,
    alloc: Global,
    plan: &Plan,
    table: &Table,
    wanted: &Wanted<'_>,
) -> bool
    requires outcomes { table.now ≡ full_table (tensors_of plan.now) plan.now.bound }
    requires len { length table.now ≡ length (keys_of plan.now) }
{
    is_so(&check_table(plan, table), wanted)
        && crew_ends_so(rt, alloc, plan, table, 0, wanted)
        && crew_ends_so(rt, alloc, plan, table, 1, wanted)
        && crew_ends_so(rt, alloc, plan, table, 2, wanted)
        && crew_ends_so(rt, alloc, plan, table, 16, wanted)
}

/// An entry: the letter of the tensor, the indices (of D the first alone), the numerator and the denominator.
type Entry = (u8, u8, u8, u8, i128, i128);

fn put(t: &mut Tensors, entry: &Entry) -> Result<(), PutErr> {
    let (name, i, j, k, num, den) = *entry;
    let v = fraction(num, den);
    match name {
        b'A' => t.put_a(i, j, k, v),
        b'B' => t.put_b(i, j, k, v),
        b'C' => t.put_c(i, j, k, v),
        _ => t.put_d(i, v),
    }
}

fn put_all(t: &mut Tensors, entries: &[Entry]) -> Result<(), PutErr> {
    for entry in entries {
        put(t, entry)?;
    }
    Ok(())
}

/// The tensors of a dim with these entries.
#[tactic(auto, unfolding(sparse_tensor::specs::Grades::IsSmallLaw))]
fn tensors_of(alloc: Global, dim: u8, entries: &[Entry]) -> Option<Tensors>
    requires some { 0 < dim }
    requires most { dim ≤ 72 }
{
    let mut tensors = Tensors::empty(alloc, dim, Shape::All, false).ok()?;
    put_all(&mut tensors, entries).ok()?;
    Some(tensors)
}

fn planned(alloc: Global, tensors: Tensors, bound: u8) -> Option<Plan> {
    Plan::make(alloc, tensors, bound).ok()
}

/// Whether the check of the table of these tensors up to a bound ends so.
fn ends_so<R: Threads + Sync>(
    rt: &R,
    alloc: Global,
    dim: u8,
    entries: &[Entry],
    bound: u8,
    wanted: &Wanted<'_>,
) -> bool
    requires some { 0 < dim }
    requires most { dim ≤ 72 }
{
    let Some(tensors) = tensors_of(alloc, dim, entries) else {
        return false;
    };
    let Some(plan) = planned(alloc, tensors, bound) else {
        return false;
    };
    let Ok(table) = one_thread(alloc, &plan) else {
        return false;
    };
    each_ends_so(rt, alloc, &plan, &table, wanted)
}

// ---- tables

/// The entries of Witten and Kontsevich below 3: they solve the constraints up to 3, and of the 117 keys up to 4 that of rank 101 has
/// two orders.
const WK: [Entry; 10] = [
    (b'A', 0, 0, 0, 1, 1),
    (b'B', 1, 0, 0, 1, 1),
    (b'B', 2, 0, 1, 1, 1),
    (b'B', 0, 1, 0, 3, 1),
    (b'B', 1, 1, 1, 3, 1),
    (b'B', 2, 1, 2, 3, 1),
    (b'B', 0, 2, 1, 5, 1),
    (b'B', 1, 2, 2, 5, 1),
    (b'C', 2, 0, 0, 1, 1),
    (b'D', 1, 0, 0, 1, 8),
];

#[test]
fn where_there_is_a_solution(rt: HostRuntime) {
    assert!(rt; ends_so(&rt, rt.alloc(), 3, WK.as_slice(), 3, &Wanted::Solution));
}

// A late key: each crew finds it in its last pieces.
#[test]
fn where_two_orders_differ(rt: HostRuntime) {
    let wanted = Wanted::Orders(1, &[0, 0, 2, 2], (0, 75, 2), (2, 125, 8));
    assert!(rt; ends_so(&rt, rt.alloc(), 3, WK.as_slice(), 4, &wanted));
}

/// B^1_00 = 2^64 and D^0 = 2^64.
const LARGE_PIVOT: [Entry; 2] = [(b'B', 1, 0, 0, 1 << 64, 1), (b'D', 0, 0, 0, 1 << 64, 1)];

#[test]
fn where_a_pivot_leaves_the_range(rt: HostRuntime) {
    let wanted = Wanted::Over(1, &[0, 1], 1);
    assert!(rt; ends_so(&rt, rt.alloc(), 2, LARGE_PIVOT.as_slice(), 2, &wanted));
}

/// A^0_00 = 2^126 and B^0_00 = 1.
const LARGE_VALUE: [Entry; 2] = [(b'A', 0, 0, 0, 1 << 126, 1), (b'B', 0, 0, 0, 1, 1)];

#[test]
fn where_a_value_leaves_the_range(rt: HostRuntime) {
    let wanted = Wanted::NotValue(0, &[0, 0, 0, 0]);
    assert!(rt; ends_so(&rt, rt.alloc(), 1, LARGE_VALUE.as_slice(), 3, &wanted));
}
