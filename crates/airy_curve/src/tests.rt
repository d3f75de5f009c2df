ghost use Rattle.std.specs.Prelude.{◌<◌, ◌≤◌, length};

use crate::{CurveErr, curve, curve_cut, top_of_curve};
use frac128::Frac;
use sparse_tensor::Tensors;
use std::alloc::Global;
use std::test::Fail;

fn fraction(num: i128, den: i128) -> Frac {
    match Frac::new(num, den) {
        Ok(value) => value,
        Err(_) => Frac::whole(0),
    }
}

fn is(value: Frac, num: i128, den: i128) -> bool {
    value.parts() == (num, den)
}

/// Two numbers of Weil and Petersson, up to the Euler number 2.
fn are_of_two_numbers(t: &Tensors) -> bool {
    t.dim() == 3
        && !t.letter()
        && is(t.a(0, 0, 0), 1, 1)
        && is(t.b(0, 0, 0), 2, 3)
        && is(t.b(0, 0, 1), 14, 45)
        && is(t.b(0, 1, 1), 2, 1)
        && is(t.b(0, 0, 2), 0, 1)
        && is(t.c(2, 0, 0), 1, 1)
        && is(t.d(0), 1, 12)
        && is(t.d(1), 1, 8)
}

#[test]
fn two_numbers(rt: HostRuntime) -> Result<(), Fail> {
    let tensors = curve(rt.alloc(), 2, &[fraction(-2, 3), fraction(2, 15)])?;
    assert!(rt; are_of_two_numbers(&tensors));
    Ok(())
}

/// Without numbers only `c_0` isn't 0.
fn are_of_no_number(t: &Tensors) -> bool {
    is(t.b(0, 2, 1), 5, 1)
        && is(t.b(0, 0, 0), 0, 1)
        && t.row_c(0).len() == 0
        && is(t.d(0), 0, 1)
        && is(t.d(1), 1, 8)
}

#[test]
fn the_empty_list(rt: HostRuntime) -> Result<(), Fail> {
    let tensors = curve(rt.alloc(), 2, &[])?;
    assert!(rt; are_of_no_number(&tensors));
    Ok(())
}

fn are_of_1(t: &Tensors) -> bool {
    t.dim() == 2 && is(t.b(0, 0, 0), -1, 1) && is(t.b(0, 1, 1), -3, 1) && is(t.d(0), -1, 8)
}

#[test]
fn the_number_1(rt: HostRuntime) -> Result<(), Fail> {
    let tensors = curve(rt.alloc(), 1, &[Frac::whole(1)])?;
    assert!(rt; are_of_1(&tensors));
    Ok(())
}

/// Of 24 numbers 1 and zeros behind them, `c_1` is -1, `c_25` is 1 and `c_26` is -1, and all others from `c_2` on are 0.
fn are_of_24_numbers(t: &Tensors) -> bool {
    is(t.c(0, 0, 0), 0, 1)
        && is(t.c(0, 11, 11), 0, 1)
        && is(t.c(0, 11, 12), 1, 1)
        && is(t.c(0, 12, 12), -1, 1)
        && is(t.d(0), -1, 8)
}

#[test]
fn as_many_numbers_as_there_may_be(rt: HostRuntime) -> Result<(), Fail> {
    let tensors = curve_cut(rt.alloc(), 13, 26, &[Frac::whole(1); 24])?;
    assert!(rt; are_of_24_numbers(&tensors));
    Ok(())
}

/// At the numbers `(-4)^l/(2l+1)!` they are the entries of Weil and Petersson without the letter.
fn are_of_wp(t: &Tensors) -> bool {
    is(t.c(1, 0, 0), 2, 3)
        && is(t.c(0, 0, 0), 14, 45)
        && is(t.c(0, 0, 1), 124, 945)
        && is(t.c(0, 1, 1), 254, 4725)
        && is(t.d(0), 1, 12)
}

#[test]
fn the_numbers_of_wp(rt: HostRuntime) -> Result<(), Fail> {
    let u = [
        fraction(-2, 3),
        fraction(2, 15),
        fraction(-4, 315),
        fraction(2, 2835),
    ];
    let tensors = curve_cut(rt.alloc(), 3, 4, &u)?;
    assert!(rt; are_of_wp(&tensors));
    Ok(())
}

fn names(alloc: Global, dim: u8, most: u8, u: &[Frac], k: u8) -> bool
    requires some { 0 < dim }
    requires within { dim ≤ 72 }
    requires exponents { 0 < most }
    requires most { most ≤ 72 }
    requires list { length u.now ≤ 24 }
{
    curve_cut(alloc, dim, most, u).err() == Some(CurveErr::Over { k })
}

/// `2^126`, of which the square leaves the range.
fn large() -> Frac {
    fraction(1 << 126, 1)
}

#[test]
fn a_product_for_c_2(rt: HostRuntime) {
    assert!(rt; curve(rt.alloc(), 2, &[large()]).err() == Some(CurveErr::Over { k: 2 }));
}

#[test]
fn a_sum_for_c_2(rt: HostRuntime) {
    let u = [fraction(1 << 63, 1), fraction(-(1 << 126), 1)];
    assert!(rt; names(rt.alloc(), 1, 2, &u, 2));
}

#[test]
fn a_product_of_b(rt: HostRuntime) {
    assert!(rt; names(rt.alloc(), 3, 1, &[fraction(1 << 125, 1)], 1));
    assert!(rt; names(rt.alloc(), 3, 2, &[Frac::whole(0), large()], 2));
}

#[test]
fn the_entry_of_d(rt: HostRuntime) {
    assert!(rt; names(rt.alloc(), 1, 1, &[fraction(1, 1 << 124)], 1));
}

#[test]
fn tops(rt: HostRuntime) {
    assert!(rt; top_of_curve(1) == 1 && top_of_curve(3) == 4 && top_of_curve(24) == 35);
}
