ghost use Rattle.std.specs.Prelude.{◌≡◌, ◌≤◌, IfSome};

use super::*;
use frac128::Frac;
use sparse_tensor::Tensors;
use std::alloc::Global;
use std::test::Fail;

/// The tensors that are drawn from 1.
fn drawn(alloc: Global, dim: u8) -> Option<Tensors>
    requires some { 1 ≤ dim }
    requires most { dim ≤ 8 }
{
    match bulk_tensors(alloc, 1, dim) {
        Ok(tensors) => Some(tensors),
        Err(_) => None,
    }
}

/// Whether these are the entries of one index.
fn has_one_index(t: &Tensors) -> bool {
    t.a(0, 0, 0) == Frac::whole(3)
        && t.b(0, 0, 0) == Frac::whole(2)
        && t.c(0, 0, 0) == Frac::whole(1)
        && t.d(0).parts() == (1, 4)
}

#[test]
fn one_index_from_1(rt: HostRuntime) -> Result<(), Fail> {
    let tensors = drawn(rt.alloc(), 1).ok_or("bulk")?;
    assert!(rt; has_one_index(&tensors));
    Ok(())
}

/// Whether these are the entries of two indices, behind the change of basis that takes the first from the second.
fn has_two_indices(t: &Tensors) -> bool {
    t.a(0, 0, 0) == Frac::whole(3)
        && t.a(0, 1, 0) == Frac::whole(-3)
        && t.a(0, 1, 1) == Frac::whole(3)
        && t.a(1, 1, 1) == Frac::whole(-1)
        && t.d(1).parts() == (5, 8)
}

#[test]
fn two_indices_from_1(rt: HostRuntime) -> Result<(), Fail> {
    let tensors = drawn(rt.alloc(), 2).ok_or("bulk")?;
    assert!(rt; has_two_indices(&tensors));
    Ok(())
}

/// Full tensors of two indices with the ones 1, and a large D.
fn with_large(alloc: Global, large: Frac) -> Option<FullTensors>
    ensures { IfSome result (λ t. t.dim ≡ 2) }
{
    let one = Frac::whole(1);
    let Ok(mut full) = FullTensors::zero(alloc, 2) else {
        return None;
    };
    full.set_diagonal(0, one, one, one, large);
    full.set_diagonal(1, one, one, one, large);
    Some(full)
}

/// Whether the change that adds the first index is refused, and the one that takes it away is made.
fn changes_one_way(full: &mut FullTensors) -> bool
    requires { full.old.dim ≡ 2 }
{
    full.change(0, Frac::whole(1)) == Err(BulkErr::Over { step: 1 })
        && full.change(0, Frac::whole(-1)) == Ok(())
}

/// Whether these are the entries behind that change.
fn is_changed(t: &Tensors, large: &Frac) -> bool {
    t.d(0) == *large && t.d(1) == Frac::whole(0) && t.b(1, 0, 0) == Frac::whole(-1)
}

/// Whether the tensors of two indices change so.
fn changes(alloc: Global, large: Frac) -> Option<bool> {
    let mut full = with_large(alloc, large)?;
    let changes = changes_one_way(&mut full);
    match full.tensors(alloc) {
        Ok(tensors) => Some(changes && is_changed(&tensors, &large)),
        Err(_) => None,
    }
}

#[test]
fn a_change_that_leaves_the_range(rt: HostRuntime) -> Result<(), Fail> {
    let large = Frac::new(1 << 126, 1)?;
    assert!(rt; changes(rt.alloc(), large).ok_or("tensors")?);
    Ok(())
}
