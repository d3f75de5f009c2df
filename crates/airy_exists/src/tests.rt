ghost use Rattle.std.specs.Prelude.{◌≡◌, ◌<◌, ◌≤◌};
ghost use Rattle.amp_plan.specs.Plans.{tensors_of};
ghost use Rattle.amp_terms.specs.Tables.{full_table};

use crate::{Agreed, agreed};
use airy_relations::{Verdict, check};
use amp_plan::Plan;
use amp_terms::{Table, one_thread};
use frac128::Frac;
use sparse_tensor::{PutErr, Shape, Tensors};
use std::alloc::Global;
use std::test::Fail;

/// Puts an entry: the letter of the tensor, the indices (of D the first alone), the number.
fn put(t: &mut Tensors, entry: &(u8, u8, u8, u8, Frac)) -> Result<(), PutErr> {
    let (name, i, j, k, v) = *entry;
    match name {
        b'A' => t.put_a(i, j, k, v),
        b'B' => t.put_b(i, j, k, v),
        b'C' => t.put_c(i, j, k, v),
        _ => t.put_d(i, v),
    }
}

/// The tensors of a dim with these entries.
#[tactic(auto, unfolding(sparse_tensor::specs::Grades::IsSmallLaw))]
fn tensors_of(alloc: Global, dim: u8, entries: &[(u8, u8, u8, u8, Frac)]) -> Result<Tensors, Fail>
    requires { (0 < dim) × (dim ≤ 72) }
{
    let mut t = Tensors::empty(alloc, dim, Shape::All, false).map_err(|_| "tensors")?;
    for entry in entries {
        put(&mut t, entry).map_err(|_| "an entry")?;
    }
    Ok(t)
}

/// Whether the answer names this key, or is Solution where there is none.
fn names(answer: &Agreed, key: Option<(u8, &[u8])>) -> bool {
    match answer {
        Agreed::Solution => key.is_none(),
        Agreed::NotValue { key: found } => match key {
            Some((g, indices)) => found.g() == g && found.idx() == indices,
            None => false,
        },
    }
}

/// Whether the relations of the plan's tensors hold, and what is answered of its table names this key.
#[tactic(auto, unfolding(amp_plan::specs::Plans::tensors_of))]
fn answers(plan: &Plan, table: &Table, key: Option<(u8, &[u8])>) -> bool
    requires { table.now ≡ full_table (tensors_of plan.now) plan.now.bound }
{
    let t = plan.tensors();
    t.soundness_fact();
    match check(t, t.dim()) {
        Verdict::Closed => names(&agreed(plan, table), key),
        _ => false,
    }
}

/// The same of the tensors' table up to a bound.
fn ends_so(
    alloc: Global,
    tensors: Tensors,
    bound: u8,
    key: Option<(u8, &[u8])>,
) -> Result<bool, Fail> {
    let plan = Plan::make(alloc, tensors, bound).map_err(|_| "plan")?;
    let table = one_thread(alloc, &plan).map_err(|_| "table")?;
    Ok(answers(&plan, &table, key))
}

/// Two copies of a structure of one index, after a change of basis.
fn two_copies(alloc: Global) -> Result<Tensors, Fail> {
    let (one, two) = (Frac::whole(1), Frac::whole(2));
    let entries = [
        (b'A', 0, 0, 0, one),
        (b'A', 0, 0, 1, one),
        (b'A', 0, 1, 1, one),
        (b'A', 1, 0, 0, one),
        (b'A', 1, 0, 1, one),
        (b'A', 1, 1, 1, two),
        (b'B', 0, 0, 0, one),
        (b'B', 0, 1, 0, one),
        (b'B', 1, 0, 0, one),
        (b'B', 1, 1, 1, one),
        (b'C', 0, 0, 0, one),
        (b'C', 1, 0, 0, two),
        (b'C', 1, 0, 1, Frac::whole(-1)),
        (b'C', 1, 1, 1, one),
        (b'D', 0, 0, 0, Frac::new(1, 8).map_err(|_| "1/8")?),
        (b'D', 1, 0, 0, Frac::new(1, 4).map_err(|_| "1/4")?),
    ];
    tensors_of(alloc, 2, &entries)
}

#[test]
fn a_table_of_values_is_a_solution(rt: HostRuntime) -> Result<(), Fail> {
    let alloc = rt.alloc();
    assert!(rt; ends_so(alloc, two_copies(alloc)?, 2, None)?);
    Ok(())
}

// The key behind it has no Value either.
#[test]
fn the_first_key_without_a_value(rt: HostRuntime) -> Result<(), Fail> {
    let alloc = rt.alloc();
    let large = Frac::new(1 << 126, 1).map_err(|_| "2^126")?;
    let entries = [(b'A', 0, 0, 0, large), (b'B', 0, 0, 0, Frac::whole(1))];
    let t = tensors_of(alloc, 1, &entries)?;
    assert!(rt; ends_so(alloc, t, 3, Some((0, &[0, 0, 0, 0])))?);
    Ok(())
}

#[test]
fn the_last_key_alone_has_no_value(rt: HostRuntime) -> Result<(), Fail> {
    let alloc = rt.alloc();
    let large = Frac::new(1 << 126, 1).map_err(|_| "2^126")?;
    let entries = [(b'D', 0, 0, 0, large), (b'B', 0, 0, 0, Frac::whole(2))];
    let t = tensors_of(alloc, 1, &entries)?;
    assert!(rt; ends_so(alloc, t, 2, Some((1, &[0, 0])))?);
    Ok(())
}
