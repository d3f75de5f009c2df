ghost use Rattle.std.specs.Prelude.{◌≡◌, ◌≤◌, ◌-◌, OnOk, []};
ghost use Rattle.airy_curve.specs.Filling as curves;
ghost use Rattle.airy_curve.specs.Numbers.{held};
ghost use Rattle.named_families.specs.Exact.{IsFilled, exact_shape, single};

use airy_curve::{CurveErr, eighth, fill, fill_d};
use frac128::Frac;
use sparse_tensor::{NoMemory, Tensors};
use std::alloc::AllocError;

/// The sequence whose only number is 1, at e.
fn single(e: u8) -> [Frac; 73]
    requires { e ≤ 72 }
    ensures { held result ≡ single e }
{
    let mut numbers = [Frac::whole(0); 73];
    numbers[e as usize] = Frac::whole(1);
    numbers
}

/// Puts all entries of B and C of the exact law with this shift: those with the exponent 1 - shift.
fn fill_places(tensors: &mut Tensors, shift: u8) -> Result<(), NoMemory>
    requires shift { shift ≤ 1 }
    requires shape { tensors.old.shape ≡ exact_shape shift }
    requires no_b { tensors.old.b ≡ [] }
    requires no_c { tensors.old.c ≡ [] }
    ensures { OnOk result (curves.IsFilled (single (1 - shift)) (1 - shift) tensors.old tensors.new) }
{
    tensors.soundness_fact();
    match fill(tensors, &single(1 - shift), 1 - shift) {
        Ok(()) => Ok(()),
        Err(CurveErr::NoMemory) => Err(AllocError),
        Err(CurveErr::Over { .. }) => unreachable!(),
    }
}

/// Puts all entries of B, C and D of the exact law with this shift.
pub(crate) fn fill_exact(tensors: &mut Tensors, shift: u8) -> Result<(), NoMemory>
    requires shift { shift ≤ 1 }
    requires shape { tensors.old.shape ≡ exact_shape shift }
    requires no_b { tensors.old.b ≡ [] }
    requires no_c { tensors.old.c ≡ [] }
    requires no_d { tensors.old.d ≡ [] }
    ensures { OnOk result (IsFilled shift tensors.old tensors.new) }
{
    fill_places(tensors, shift)?;
    if shift == 0 {
        fill_d(tensors, eighth(), Frac::whole(0))
    } else {
        fill_d(tensors, Frac::whole(0), eighth())
    }
}
