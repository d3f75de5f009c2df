ghost use Rattle.std.specs.Prelude.{◌≡◌, ◌≤◌, ◌<◌, ◌+◌, ◌*◌, ◌^◌, ◌%◌, ◌-◌, IfOk, IfErr, pos};
ghost use Rattle.airy_math.specs.Rational.{◌/ℚ◌};
ghost use Rattle.airy_math.specs.Tensors.{SameEntries};
ghost use Rattle.bulk_tensors.specs.Full.{listed, zero_lists};
ghost use Rattle.bulk_tensors.specs.Bulk.{diagonal, bulk_refusal, StandsForBulk, NamesStep};
ghost use Rattle.bulk_tensors.specs.Draws.{state};

use crate::draws::Draws;
use crate::full_tensors::{BulkErr, FullTensors};
use frac128::Frac;
use sparse_tensor::Tensors;
use std::alloc::Global;

/// n eighths. n is below 2^15.
fn eighths(n: u32) -> Frac
    requires { n < 2 ^ 15 }
    ensures { result ≡ pos n /ℚ 8 }
{
    match Frac::new(n as i128, 8) {
        Ok(value) => value,
        Err(_) => unreachable!(),
    }
}

/// Sets the entries of the diagonal tensors of the next draws, four for each index, in tensors that are 0.
fn set_diagonal(full: &mut FullTensors, dim: u8, draws: &mut Draws)
    requires some { 0 < dim }
    requires most { dim ≤ 8 }
    requires zero { full.old ≡ zero_lists dim }
    ensures entries { SameEntries (listed full.new) (diagonal draws.old.state dim) }
    ensures draws { draws.new.state ≡ state draws.old.state (4 * dim) }
{
    for i in 0..dim {
        let a = Frac::whole(1 + (draws.draw() % 3) as i64);
        let b = Frac::whole(1 + (draws.draw() % 3) as i64);
        let c = Frac::whole((draws.draw() % 2) as i64);
        let d = eighths(1 + draws.draw() % 7);
        full.set_diagonal(i, a, b, c, d);
    }
}

/// The tensors that the number SEED gives, with all indices below dim, of shape All and without a letter. Seed is below 2^31,
/// and dim is from 1 to 8.
///
/// A state begins at the seed; a draw sets it to `(1103515245 z + 12345) mod 2^31` and gives it divided by 65536. For each i
/// four draws in this order give `A^i_{ii} = 1 + draw mod 3`, `B^i_{ii} = 1 + draw mod 3`, `C^i_{ii} = draw mod 2` and
/// `D^i = (1 + draw mod 7)/8`; all other entries are 0. Then for each q from 1 to dim - 1 one draw gives
/// `t = draw mod 3 - 1`, and the change of basis (q - 1, q, t) is made, as `FullTensors::change` does. A and C are symmetric in
/// their last two indices before and behind each change.
///
/// It is refused with `Over` exactly where a product or a sum of a change leaves the range, which names the first such change
/// by its q; and with `NoMemory` for want of memory.
pub fn bulk_tensors(alloc: Global, seed: u32, dim: u8) -> Result<Tensors, BulkErr>
    requires seed { seed < 2 ^ 31 }
    requires some { 1 ≤ dim }
    requires most { dim ≤ 8 }
    ensures tensors { IfOk result (λ t. StandsForBulk seed dim t) }
    ensures over { IfErr result (λ e. NamesStep e (bulk_refusal seed dim)) }
{
    let mut draws = Draws { state: seed };
    let mut full = FullTensors::zero(alloc, dim)?;
    set_diagonal(&mut full, dim, &mut draws);
    for r in 0..dim - 1 {
        let t = Frac::whole((draws.draw() % 3) as i64 - 1);
        full.change(r, t)?;
    }
    Ok(full.tensors(alloc)?)
}
