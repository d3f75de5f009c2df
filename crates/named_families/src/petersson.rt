ghost use Rattle.std.specs.Prelude.{◌≡◌, ◌≤◌, ◌<◌, ◌+◌, ◌*◌, OnOk, IfOk, IfErr, None, suc, ℕ};
ghost use Rattle.airy_math.specs.Families as exact;
ghost use Rattle.airy_math.specs.Families.{top_wk};
ghost use Rattle.named_families.specs.Closing.{MeetsRelations};
ghost use Rattle.named_families.specs.Families.{StandsForLettered, Names, made_of};
ghost use Rattle.named_families.specs.Steps.{wp_refusal};

use crate::families::top_of;
use crate::numbers::numbers_up_to;
use airy_curve::{CurveErr, tensors_of};
use airy_math::Family;
use sparse_tensor::Tensors;
use std::alloc::Global;

/// Why the tensors of Weil and Petersson aren't made.
#[derive(Clone, Copy, Debug, PartialEq, Eq)]
pub enum MakeErr {
    /// A step for the number `c_k` or for an entry `(2j + 1) c_k` leaves the range.
    Over { k: u8 },
    /// Want of memory.
    NoMemory,
}

impl From<CurveErr> for MakeErr {
    ghost from_gives = { λ err e. e ≡ made_of err };

    #[tactic(auto, unfolding(crate::specs::Families::made_of))]
    fn from(err: CurveErr) -> MakeErr {
        match err {
            CurveErr::Over { k } => MakeErr::Over { k },
            CurveErr::NoMemory => MakeErr::NoMemory,
        }
    }
}

/// The tensors of Weil and Petersson with all indices below dim, and with the exponents e of the letter up to most; dim and
/// most are from 1 to 72. `A^0_{00} = 1`; `B^i_{jk} = (2j + 1) c_e` where `e = k + 1 - i - j` is from 0 to most;
/// `C^i_{jk} = c_e` where `e = j + k + 2 - i` is from 0 to most; `D^0 = 1/12` and `D^1 = 1/8`. Their shape is AtMost(3, 1),
/// and they carry the letter: its exponent is e, and 1 at `D^0`, and 0 else.
///
/// `c_0 = 1`, and for k from 1 on the sum of `u_l c_(k-l)` over l from 0 to k is 0, where `u_l = (-4)^l/(2l+1)!`; so `c_k`
/// is the coefficient of `x^(2k)` in `2x/sin(2x)`. They are made step by step in 128 bits: for k from 1 to most first `u_k`,
/// the product of `u_(k-1)` and `-2/(k(2k+1))`, and then `c_k`, the negative of a sum that begins at 0, and to which the
/// products of `u_l` and `c_(k-l)` are added for l from 1 to k; then the products of B by i, j and k ascending.
///
/// It is refused with `Over` where such a step leaves the range, and k is then that of the first `u_k` or `c_k`, or e of the
/// first product, that isn't obtained; and with `NoMemory` for want of memory.
///
/// They meet the five relations in all places below N, for every N with 2N + 1 at most dim and at most `most`.
pub fn wp_cut(alloc: Global, dim: u8, most: u8) -> Result<Tensors, MakeErr>
    requires some { 0 < dim }
    requires within { dim ≤ 72 }
    requires exponents { 0 < most }
    requires most { most ≤ 72 }
    ensures stands { IfOk result (λ t. StandsForLettered t (exact.wp_cut dim most)) }
    ensures closes { IfOk result (λ t. (N : ℕ) → 2 * N + 1 ≤ t.dim → 2 * N + 1 ≤ most → MeetsRelations t N) }
    ensures obtained { OnOk result (wp_refusal dim most ≡ None) }
    ensures over { IfErr result (λ e. Names e (wp_refusal dim most)) }
{
    let numbers = match numbers_up_to(most) {
        Ok(numbers) => numbers,
        Err(k) => return Err(MakeErr::Over { k }),
    };
    crate::wp_closes();
    Ok(tensors_of(alloc, dim, most, &numbers, true)?)
}

/// Those of Weil and Petersson that a table up to the bound needs: all indices and all exponents up to its top. The bound
/// is from 1 to 24. They meet the five relations in all places below N, for every N with 2N + 1 at most the top.
pub fn wp(alloc: Global, bound: u8) -> Result<Tensors, MakeErr>
    requires some { 0 < bound }
    requires most { bound ≤ 24 }
    ensures stands { IfOk result (λ t. StandsForLettered t (exact.wp_cut (suc (top_wk bound)) (top_wk bound))) }
    ensures closes { IfOk result (λ t. (N : ℕ) → 2 * N + 1 ≤ top_wk bound → MeetsRelations t N) }
    ensures obtained { OnOk result (wp_refusal (suc (top_wk bound)) (top_wk bound) ≡ None) }
    ensures over { IfErr result (λ e. Names e (wp_refusal (suc (top_wk bound)) (top_wk bound))) }
{
    let top = top_of(Family::Wp, bound);
    wp_cut(alloc, top + 1, top)
}
