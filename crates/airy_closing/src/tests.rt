ghost use Rattle.std.specs.Prelude.{◌<◌, ◌≤◌};

use crate::{bracket, closing};
use airy_relations::{Rel, Verdict};
use frac128::Frac;
use sparse_tensor::{PutErr, Shape, Tensors};
use std::alloc::Global;
use std::test::Fail;

/// Puts an entry: the letter of the tensor, the indices (of D the first alone), the number.
fn put(t: &mut Tensors, entry: &(u8, u8, u8, u8, Frac)) -> Result<(), PutErr> {
    let (name, i, j, k, v) = *entry;
    match name {
        b'A' => t.put_a(i, j, k, v),
        b'B' => t.put_b(i, j, k, v),
        b'C' => t.put_c(i, j, k, v),
        _ => t.put_d(i, v),
    }
}

/// The tensors of a dim with these entries.
#[tactic(auto, unfolding(sparse_tensor::specs::Grades::IsSmallLaw))]
fn tensors_of(alloc: Global, dim: u8, entries: &[(u8, u8, u8, u8, Frac)]) -> Result<Tensors, Fail>
    requires { (0 < dim) × (dim ≤ 72) }
{
    let mut t = Tensors::empty(alloc, dim, Shape::All, false).map_err(|_| "tensors")?;
    for entry in entries {
        put(&mut t, entry).map_err(|_| "an entry")?;
    }
    Ok(t)
}

/// Whether the bracket at these indices is the number, or isn't obtained where none is given.
fn brackets_to(t: &Tensors, i: u8, j: u8, a: u8, wanted: Option<Frac>) -> bool {
    i < t.dim() && j < t.dim() && a < t.dim() && bracket(t, i, j, a) == wanted
}

/// Whether the brackets at i, j and a have these numbers.
fn all_bracket_to(t: &Tensors, rows: &[(u8, u8, u8, i64)]) -> bool {
    for (i, j, a, v) in rows {
        if !brackets_to(t, *i, *j, *a, Some(Frac::whole(*v))) {
            return false;
        }
    }
    true
}

/// Whether all brackets below dim are 0.
fn all_vanish(t: &Tensors) -> bool {
    for i in 0..t.dim() {
        for j in 0..t.dim() {
            for a in 0..t.dim() {
                if !brackets_to(t, i, j, a, Some(Frac::whole(0))) {
                    return false;
                }
            }
        }
    }
    true
}

#[test]
fn one_entry_of_b(rt: HostRuntime) -> Result<(), Fail> {
    let t = tensors_of(rt.alloc(), 2, &[(b'B', 1, 0, 0, Frac::whole(1))])?;
    let rows = [(0, 1, 0, -1), (1, 0, 0, 1), (0, 1, 1, 0)];
    assert!(rt; closing(&t) == Verdict::Closed && all_bracket_to(&t, &rows));
    Ok(())
}

#[test]
fn no_entries(rt: HostRuntime) -> Result<(), Fail> {
    let t = tensors_of(rt.alloc(), 32, &[])?;
    assert!(rt; closing(&t) == Verdict::Closed && all_vanish(&t));
    Ok(())
}

#[test]
fn one_entry_of_a(rt: HostRuntime) -> Result<(), Fail> {
    let t = tensors_of(rt.alloc(), 2, &[(b'A', 0, 1, 1, Frac::whole(1))])?;
    let wanted = Verdict::Differs {
        rel: Rel::AA,
        place: [0, 1, 1, 0],
        left: Frac::whole(1),
        right: Frac::whole(0),
    };
    assert!(rt; closing(&t) == wanted && all_vanish(&t));
    Ok(())
}

/// The products of the matrices with a single 1, by rows: `B^i_{ja}` is 1 where the matrix a is i times j.
fn matrix_units(alloc: Global) -> Result<Tensors, Fail> {
    let one = Frac::whole(1);
    let entries = [
        (b'B', 0, 0, 0, one),
        (b'B', 0, 1, 1, one),
        (b'B', 1, 2, 0, one),
        (b'B', 1, 3, 1, one),
        (b'B', 2, 0, 2, one),
        (b'B', 2, 1, 3, one),
        (b'B', 3, 2, 2, one),
        (b'B', 3, 3, 3, one),
    ];
    tensors_of(alloc, 4, &entries)
}

// The brackets are the commutators, in which every matrix stands.
#[test]
fn commutators_of_matrices(rt: HostRuntime) -> Result<(), Fail> {
    let t = matrix_units(rt.alloc())?;
    let rows = [
        (0, 1, 1, 1),
        (0, 2, 2, -1),
        (1, 2, 0, 1),
        (1, 2, 3, -1),
        (1, 3, 1, 1),
        (2, 3, 2, -1),
        (2, 1, 0, -1),
        (0, 3, 0, 0),
        (0, 3, 3, 0),
        (1, 2, 1, 0),
    ];
    assert!(rt; closing(&t) == Verdict::Closed && all_bracket_to(&t, &rows));
    Ok(())
}

/// Two copies of a structure of one index, after a change of basis.
fn two_copies(alloc: Global) -> Result<Tensors, Fail> {
    let (one, two) = (Frac::whole(1), Frac::whole(2));
    let entries = [
        (b'A', 0, 0, 0, one),
        (b'A', 0, 0, 1, one),
        (b'A', 0, 1, 1, one),
        (b'A', 1, 0, 0, one),
        (b'A', 1, 0, 1, one),
        (b'A', 1, 1, 1, two),
        (b'B', 0, 0, 0, one),
        (b'B', 0, 1, 0, one),
        (b'B', 1, 0, 0, one),
        (b'B', 1, 1, 1, one),
        (b'C', 0, 0, 0, one),
        (b'C', 1, 0, 0, two),
        (b'C', 1, 0, 1, Frac::whole(-1)),
        (b'C', 1, 1, 1, one),
        (b'D', 0, 0, 0, Frac::new(1, 8).map_err(|_| "1/8")?),
        (b'D', 1, 0, 0, Frac::new(1, 4).map_err(|_| "1/4")?),
    ];
    tensors_of(alloc, 2, &entries)
}

#[test]
fn operators_of_two_copies_commute(rt: HostRuntime) -> Result<(), Fail> {
    let t = two_copies(rt.alloc())?;
    assert!(rt; closing(&t) == Verdict::Closed && all_vanish(&t));
    Ok(())
}

// The matrices of the index 2 are 0, so no product stands in a relation: the bracket alone leaves the range.
#[test]
fn a_bracket_out_of_range(rt: HostRuntime) -> Result<(), Fail> {
    let large = Frac::new(1 << 126, 1).map_err(|_| "2^126")?;
    let entries = [(b'B', 0, 1, 2, large), (b'B', 1, 0, 2, large.neg())];
    let t = tensors_of(rt.alloc(), 3, &entries)?;
    assert!(rt;
        closing(&t) == Verdict::Closed
            && brackets_to(&t, 0, 1, 2, None)
            && brackets_to(&t, 1, 0, 2, None)
    );
    Ok(())
}

// Below 2 nothing differs.
#[test]
fn a_place_of_the_last_index(rt: HostRuntime) -> Result<(), Fail> {
    let t = tensors_of(rt.alloc(), 3, &[(b'A', 1, 0, 2, Frac::whole(5))])?;
    let wanted = Verdict::Differs {
        rel: Rel::AA,
        place: [0, 1, 2, 0],
        left: Frac::whole(0),
        right: Frac::whole(5),
    };
    assert!(rt; closing(&t) == wanted);
    Ok(())
}
