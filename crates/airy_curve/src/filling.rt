ghost use Rattle.std.specs.Prelude.{◌≡◌, ◌≤◌, ◌<◌, OnOk, [], cond, false, leb};
ghost use Rattle.sparse_tensor.specs.Entries.{is_given, is_taken};
ghost use Rattle.sparse_tensor.specs.Puts.{with_b, with_c, with_d};
ghost use Rattle.airy_curve.specs.Filling.{Fits, FitsD, FillsD, IsFilled, IsPlace, Tells, entry_b, entry_c, exponent_of};
ghost use Rattle.airy_curve.specs.Numbers.{held};
ghost use Rattle.airy_curve.specs.Steps.{place_refusal, entry_refusal};

use crate::making::{CurveErr, unless_wanting};
use crate::numbers::number_at;
use frac128::Frac;
use sparse_tensor::{NoMemory, Tensors};

/// upper - lower, where it is from 0 to most.
#[tactic(auto, unfolding(crate::specs::Filling::exponent_of))]
fn exponent(upper: u8, lower: u8, most: u8) -> Option<u8>
    ensures { result ≡ exponent_of upper lower most }
{
    if lower <= upper && upper - lower <= most {
        Some(upper - lower)
    } else {
        None
    }
}

/// Puts `B^i_{jk}`: `(2j + 1) c_e` where `e = k + 1 - i - j` is from 0 to most.
fn fill_b(
    tensors: &mut Tensors,
    numbers: &[Frac; 73],
    most: u8,
    i: u8,
    j: u8,
    k: u8,
) -> Result<(), CurveErr>
    requires place { IsPlace (held numbers.now) most tensors.old i j k }
    requires free { is_taken tensors.old.b i j k ≡ false }
    ensures put { OnOk result (tensors.new ≡ with_b tensors.old i j k (entry_b (held numbers.now) most i j k)) }
    ensures told { Tells result (place_refusal (held numbers.now) most i j k) }
{
    let Some(e) = exponent(k + 1, i + j, most) else {
        return Ok(());
    };
    let Some(value) = Frac::whole(2 * j as i64 + 1).mul(number_at(numbers, e)) else {
        return Err(CurveErr::Over { k: e });
    };
    unless_wanting(tensors.put_b(i, j, k, value))?;
    Ok(())
}

/// Puts `C^i_{jk}` where j is at most k: `c_e` where `e = j + k + 2 - i` is from 0 to most.
fn fill_c(
    tensors: &mut Tensors,
    numbers: &[Frac; 73],
    most: u8,
    i: u8,
    j: u8,
    k: u8,
) -> Result<(), NoMemory>
    requires place { IsPlace (held numbers.now) most tensors.old i j k }
    requires free { is_taken tensors.old.c i j k ≡ false }
    ensures { OnOk result (tensors.new ≡ cond (leb j k) (with_c tensors.old i j k (entry_c (held numbers.now) most i j k)) tensors.old) }
{
    if k < j {
        return Ok(());
    }
    let Some(e) = exponent(j + k + 2, i, most) else {
        return Ok(());
    };
    unless_wanting(tensors.put_c(i, j, k, number_at(numbers, e)))
}

/// Puts all entries of B and C, by i, j and k ascending: `(2j + 1) c_e` in B where `e = k + 1 - i - j` is from 0 to most, and `c_e`
/// in C where `e = j + k + 2 - i` is; most is at most 72, and the shape has room for each number that isn't 0. A product that leaves
/// the range stops it.
pub fn fill(tensors: &mut Tensors, numbers: &[Frac; 73], most: u8) -> Result<(), CurveErr>
    requires most { most ≤ 72 }
    requires fits { Fits tensors.old.shape (held numbers.now) most }
    requires no_b { tensors.old.b ≡ [] }
    requires no_c { tensors.old.c ≡ [] }
    ensures filled { OnOk result (IsFilled (held numbers.now) most tensors.old tensors.new) }
    ensures told { Tells result (entry_refusal (held numbers.now) tensors.old.dim most) }
{
    tensors.soundness_fact();
    let dim = tensors.dim();
    for i in 0..dim {
        for j in 0..dim {
            for k in 0..dim {
                tensors.soundness_fact();
                fill_b(tensors, numbers, most, i, j, k)?;
                fill_c(tensors, numbers, most, i, j, k)?;
            }
        }
    }
    Ok(())
}

/// Puts the entry of D at one index.
fn put_d(tensors: &mut Tensors, i: u8, value: Frac) -> Result<(), NoMemory>
    requires below { i < tensors.old.dim }
    requires fits { FitsD tensors.old.shape i value }
    requires free { is_given tensors.old.d i ≡ false }
    ensures { OnOk result (tensors.new ≡ with_d tensors.old i value) }
{
    unless_wanting(tensors.put_d(i, value))
}

/// Puts the entries of D: the first at 0, and the second at 1 where 1 is an index. The shape has room for each that isn't 0.
pub fn fill_d(tensors: &mut Tensors, first: Frac, second: Frac) -> Result<(), NoMemory>
    requires first { FitsD tensors.old.shape 0 first }
    requires second { FitsD tensors.old.shape 1 second }
    requires before { tensors.old.d ≡ [] }
    ensures filled { OnOk result (FillsD first second tensors.new) }
    ensures others { OnOk result (tensors.new ≡ record tensors.old { d = tensors.new.d }) }
{
    tensors.soundness_fact();
    put_d(tensors, 0, first)?;
    if tensors.dim() == 1 {
        return Ok(());
    }
    put_d(tensors, 1, second)
}
