ghost use Rattle.std.specs.Prelude.{◌<◌, ◌≤◌};

use crate::{VerifyEnd, verify_values};
use airy_index::Key;
use amp_plan::Plan;
use frac128::Frac;
use sparse_tensor::{PutErr, Shape, Tensors};
use std::alloc::Global;
use std::test::Fail;

fn is_key(key: &Key, genus: u8, indices: &[u8]) -> bool {
    key.g() == genus && key.idx() == indices
}

/// Whether the sum of this key with this pivot is the first number, and its value the second.
fn differs(end: &VerifyEnd, genus: u8, indices: &[u8], at: u8, numbers: (Frac, Frac)) -> bool {
    match end {
        VerifyEnd::Differs {
            key,
            pivot,
            sum,
            given,
        } => is_key(key, genus, indices) && (*pivot, *sum, *given) == (at, numbers.0, numbers.1),
        _ => false,
    }
}

/// Whether the sum of this key with this pivot leaves the range.
fn is_over(end: &VerifyEnd, genus: u8, indices: &[u8], at: u8) -> bool {
    match end {
        VerifyEnd::Over { key, pivot } => is_key(key, genus, indices) && *pivot == at,
        _ => false,
    }
}

/// Tensors of dim 2 by few numbers: A at the index 0, where it isn't 0, an entry of B, and D at the index 0.
#[derive(Clone, Copy)]
struct Numbers {
    a: i64,
    b: (u8, u8, u8, Frac),
    d: Frac,
}

fn put_numbers(t: &mut Tensors, numbers: Numbers) -> Result<(), PutErr> {
    if numbers.a != 0 {
        t.put_a(0, 0, 0, Frac::whole(numbers.a))?;
    }
    let (i, j, k, v) = numbers.b;
    t.put_b(i, j, k, v)?;
    t.put_d(0, numbers.d)
}

#[tactic(auto, unfolding(sparse_tensor::specs::Grades::IsSmallLaw))]
fn tensors_of(alloc: Global, numbers: Numbers) -> Result<Tensors, Fail> {
    let mut t = Tensors::empty(alloc, 2, Shape::All, false)?;
    put_numbers(&mut t, numbers)?;
    Ok(t)
}

/// The values with these at F(0,3)[000], F(1,1)[0], F(0,4)[0000], F(1,2)[00] and F(1,2)[01], and 0 elsewhere. In order the keys up to 2
/// are F(0,3) at 000, 001, 011, 111, F(1,1) at 0, 1, F(0,4) at 0000, 0001, 0011, 0111, 1111 and F(1,2) at 00, 01, 11.
fn values_of(given: [Frac; 5]) -> [Frac; 14] {
    let mut values = [Frac::whole(0); 14];
    values[0] = given[0];
    values[4] = given[1];
    values[6] = given[2];
    values[11] = given[3];
    values[12] = given[4];
    values
}

/// How the verification of these values of the tensors' keys up to 2 ends, where they have 14.
fn end_of(alloc: Global, numbers: Numbers, given: [Frac; 5]) -> Result<Option<VerifyEnd>, Fail> {
    let Ok(plan) = Plan::make(alloc, tensors_of(alloc, numbers)?, 2) else {
        return Ok(None);
    };
    if plan.len() != 14 {
        return Ok(None);
    }
    Ok(Some(verify_values(&plan, values_of(given).as_slice())))
}

/// With A, B and D at the index 0 alone: F(0,3) = 1, F(1,1) = 1/8, F(0,4) = 3 * 2 and F(1,2) = 2/8.
fn at_one_index(alloc: Global, first: Frac) -> Result<Option<VerifyEnd>, Fail> {
    let numbers = Numbers {
        a: 1,
        b: (0, 0, 0, Frac::whole(2)),
        d: Frac::new(1, 8)?,
    };
    let given = [
        Frac::whole(1),
        first,
        Frac::whole(6),
        Frac::new(1, 4)?,
        Frac::whole(0),
    ];
    end_of(alloc, numbers, given)
}

fn is_a_solution(alloc: Global) -> Result<bool, Fail> {
    Ok(matches!(
        at_one_index(alloc, Frac::new(1, 8)?)?,
        Some(VerifyEnd::Solution)
    ))
}

fn is_no_solution(alloc: Global) -> Result<bool, Fail> {
    let quarter = Frac::new(1, 4)?;
    match at_one_index(alloc, quarter)? {
        Some(end) => Ok(differs(&end, 1, &[0], 0, (Frac::new(1, 8)?, quarter))),
        None => Ok(false),
    }
}

#[test]
fn values_of_a_solution(rt: HostRuntime) -> Result<(), Fail> {
    assert!(rt; is_a_solution(rt.alloc())? && is_no_solution(rt.alloc())?);
    Ok(())
}

/// B^0_10 = 1 and D^0 = 1 give F(1,2)[01] = 1 at the pivot 0, and 0 at the pivot 1: whether this value of it will do at neither.
fn will_not_do(alloc: Global, value: i64, pivot: u8, sum: i64) -> Result<bool, Fail> {
    let (zero, one) = (Frac::whole(0), Frac::whole(1));
    let numbers = Numbers {
        a: 0,
        b: (0, 1, 0, one),
        d: one,
    };
    let given = Frac::whole(value);
    match end_of(alloc, numbers, [zero, one, zero, zero, given])? {
        Some(end) => Ok(differs(&end, 1, &[0, 1], pivot, (Frac::whole(sum), given))),
        None => Ok(false),
    }
}

#[test]
fn where_no_value_will_do(rt: HostRuntime) -> Result<(), Fail> {
    assert!(rt; will_not_do(rt.alloc(), 1, 1, 0)? && will_not_do(rt.alloc(), 0, 0, 1)?);
    Ok(())
}

/// B^1_00 = 2^64 and D^0 = 2^64: at the pivot 1 the sum of F(1,2)[01] is 2^128.
fn leaves_the_range(alloc: Global) -> Result<bool, Fail> {
    let large = Frac::new(1 << 64, 1)?;
    let zero = Frac::whole(0);
    let numbers = Numbers {
        a: 0,
        b: (1, 0, 0, large),
        d: large,
    };
    match end_of(alloc, numbers, [zero, large, zero, zero, zero])? {
        Some(end) => Ok(is_over(&end, 1, &[0, 1], 1)),
        None => Ok(false),
    }
}

#[test]
fn where_a_sum_leaves_the_range(rt: HostRuntime) -> Result<(), Fail> {
    assert!(rt; leaves_the_range(rt.alloc())?);
    Ok(())
}
