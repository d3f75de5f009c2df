ghost use Rattle.std.specs.Prelude.{◌<◌, ◌≤◌};

use crate::{Rel, Verdict, check};
use frac128::Frac;
use sparse_tensor::{Law, PutErr, Shape, Tensors};
use std::alloc::Global;
use std::test::Fail;

/// Tensors of two indices, of every shape and without entries.
#[tactic(auto, unfolding(sparse_tensor::specs::Grades::IsSmallLaw))]
fn two_indices(alloc: Global) -> Result<Tensors, Fail> {
    let t = Tensors::empty(alloc, 2, Shape::All, false).map_err(|_| "memory")?;
    Ok(t)
}

/// The verdict, where there are so many indices.
fn verdict(t: &Tensors, places: u8) -> Option<Verdict> {
    if places == 0 || places > t.dim() {
        return None;
    }
    Some(check(t, places))
}

fn fraction(num: i128, den: i128) -> Result<Frac, Fail> {
    let value = Frac::new(num, den).map_err(|_| "fraction")?;
    Ok(value)
}

#[test]
fn a_single_entry_of_a_fails(rt: HostRuntime) -> Result<(), Fail> {
    let mut t = two_indices(rt.alloc())?;
    t.put_a(0, 1, 1, Frac::whole(1)).map_err(|_| "A")?;
    let expected = Verdict::Differs {
        rel: Rel::AA,
        place: [0, 1, 1, 0],
        left: Frac::whole(1),
        right: Frac::whole(0),
    };
    assert_eq!(rt; verdict(&t, 2), Some(expected));
    assert_eq!(rt; verdict(&t, 1), Some(Verdict::Closed));
    Ok(())
}

#[test]
fn a_place_with_k_above_l_is_looked_at(rt: HostRuntime) -> Result<(), Fail> {
    let mut t = two_indices(rt.alloc())?;
    t.put_b(0, 1, 0, Frac::whole(2)).map_err(|_| "B")?;
    t.put_b(1, 1, 1, Frac::whole(1)).map_err(|_| "B")?;
    let expected = Verdict::Differs {
        rel: Rel::BB,
        place: [0, 1, 1, 0],
        left: Frac::whole(4),
        right: Frac::whole(2),
    };
    assert_eq!(rt; verdict(&t, 2), Some(expected));
    Ok(())
}

#[test]
fn a_product_out_of_range_is_named(rt: HostRuntime) -> Result<(), Fail> {
    let large = fraction(1 << 64, 1)?;
    let mut t = two_indices(rt.alloc())?;
    t.put_b(1, 0, 0, large).map_err(|_| "B")?;
    t.put_d(0, large).map_err(|_| "D")?;
    let expected = Verdict::Over {
        rel: Rel::D,
        place: [0, 1, 0, 0],
    };
    assert_eq!(rt; verdict(&t, 2), Some(expected));
    Ok(())
}

/// Two copies of a structure of one index, after a change of basis.
fn two_copies(alloc: Global) -> Result<Tensors, Fail> {
    let mut t = two_indices(alloc)?;
    for (i, j, k, v) in [
        (0, 0, 0, 1),
        (0, 0, 1, 1),
        (0, 1, 1, 1),
        (1, 0, 0, 1),
        (1, 0, 1, 1),
        (1, 1, 1, 2),
    ] {
        t.put_a(i, j, k, Frac::whole(v)).map_err(|_| "A")?;
    }
    for (i, j, k, v) in [(0, 0, 0, 1), (0, 1, 0, 1), (1, 0, 0, 1), (1, 1, 1, 1)] {
        t.put_b(i, j, k, Frac::whole(v)).map_err(|_| "B")?;
    }
    for (i, j, k, v) in [(0, 0, 0, 1), (1, 0, 0, 2), (1, 0, 1, -1), (1, 1, 1, 1)] {
        t.put_c(i, j, k, Frac::whole(v)).map_err(|_| "C")?;
    }
    t.put_d(0, fraction(1, 8)?).map_err(|_| "D")?;
    t.put_d(1, fraction(1, 4)?).map_err(|_| "D")?;
    Ok(t)
}

#[test]
fn two_copies_close(rt: HostRuntime) -> Result<(), Fail> {
    let t = two_copies(rt.alloc())?;
    assert_eq!(rt; verdict(&t, 2), Some(Verdict::Closed));
    Ok(())
}

/// The entries of intersection numbers with all indices below dim.
#[tactic(auto, unfolding(sparse_tensor::specs::Grades::IsSmallLaw))]
fn intersections(alloc: Global, dim: u8) -> Result<Tensors, Fail>
    requires some { 0 < dim }
    requires most { dim ≤ 72 }
{
    let law = Law { per_g: 3, per_n: 1 };
    let mut t = Tensors::empty(alloc, dim, Shape::Exact(law), false).map_err(|_| "memory")?;
    t.put_a(0, 0, 0, Frac::whole(1)).map_err(|_| "A")?;
    if dim > 1 {
        t.put_d(1, fraction(1, 8)?).map_err(|_| "D")?;
    }
    for i in 0..dim {
        for j in 0..dim {
            put_at(&mut t, dim, i, j).map_err(|_| "entry")?;
        }
    }
    Ok(t)
}

/// `B^i_{ja}` is 2j+1 where a is i+j-1, and `C^i_{jb}` is 1 where b is i-j-2.
fn put_at(t: &mut Tensors, dim: u8, i: u8, j: u8) -> Result<(), PutErr> {
    let sum = i as u16 + j as u16;
    if sum >= 1 && sum - 1 < dim as u16 {
        t.put_b(i, j, (sum - 1) as u8, Frac::whole(2 * j as i64 + 1))?;
    }
    if i as u16 >= 2 * j as u16 + 2 {
        t.put_c(i, j, i - j - 2, Frac::whole(1))?;
    }
    Ok(())
}

#[test]
fn intersection_numbers_close(rt: HostRuntime) -> Result<(), Fail> {
    let t = intersections(rt.alloc(), 7)?;
    assert_eq!(rt; verdict(&t, 3), Some(Verdict::Closed));
    Ok(())
}
