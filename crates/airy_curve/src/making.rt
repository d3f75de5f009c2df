ghost use Rattle.std.specs.Prelude.{◌≡◌, ◌≤◌, ◌<◌, ◌+◌, ◌*◌, OnOk, IfOk, IfErr, None, length, pos, suc, true, ℕ};
ghost use Rattle.airy_math.specs.Families.{top_wk};
ghost use Rattle.airy_math.specs.Rational.{◌/ℚ◌};
ghost use Rattle.airy_math.specs.Curves as exact;
ghost use Rattle.airy_math.specs.Curves.{number_of, of_list};
ghost use Rattle.airy_curve.specs.Numbers.{held};
ghost use Rattle.airy_curve.specs.Steps.{tensors_refusal, curve_refusal};
ghost use Rattle.airy_curve.specs.Storing.{IsBegun, MeetsRelations, Names, StandsFor};
ghost use Rattle.airy_curve.specs.declared.making.CurveErr.TheVariants as curve_err;
ghost use Rattle.sparse_tensor.specs.Entries.{looked_up};
ghost use Rattle.sparse_tensor.specs.Grades.{IsSmallLaw, IsAtMost, keeps_a};
ghost use Rattle.airy_math.specs.Tensors.{SameEntries};

use crate::filling::{fill, fill_d};
use crate::numbers::{number_at, numbers_up_to, sequence_of};
use frac128::Frac;
use sparse_tensor::{Law, NoMemory, PutErr, Shape, Tensors};
use std::alloc::{AllocError, Global};

/// Why the tensors of a curve aren't made.
#[derive(Clone, Copy, Debug, PartialEq, Eq)]
pub enum CurveErr {
    /// A step for the number `c_k`, for an entry `(2j + 1) c_k` or, with k = 1, for `c_1/8` leaves the range.
    Over { k: u8 },
    /// Want of memory.
    NoMemory,
}

impl From<AllocError> for CurveErr {
    ghost from_gives = { λ _ e. e ≡ curve_err.NoMemory };

    fn from(_wanting: AllocError) -> CurveErr {
        CurveErr::NoMemory
    }
}

/// The answer of a put that only want of memory can refuse.
pub fn unless_wanting(answer: Result<(), PutErr>) -> Result<(), NoMemory>
    requires { IfErr answer (λ e. e ≡ PutErr.NoMemory) }
    ensures { OnOk result (answer ≡ Ok tt) }
{
    match answer {
        Ok(()) => Ok(()),
        Err(_) => Err(AllocError),
    }
}

/// One eighth.
pub fn eighth() -> Frac
    ensures { result ≡ pos 1 /ℚ 8 }
{
    match Frac::new(1, 8) {
        Ok(value) => value,
        Err(_) => unreachable!(),
    }
}

/// Tensors of the shape, with the entry `A^0_{00} = 1` alone. The dim is from 1 to 72, the two numbers of the shape's law are from
/// -99 to 99, a letter wants a shape that leaves room, and the entry keeps the grading.
pub fn with_corner(alloc: Global, dim: u8, shape: Shape, letter: bool) -> Result<Tensors, NoMemory>
    requires some { 0 < dim }
    requires most { dim ≤ 72 }
    requires law { IsSmallLaw shape }
    requires letter { letter ≡ true → IsAtMost shape }
    requires graded { keeps_a shape 0 0 0 ≡ true }
    ensures { IfOk result (IsBegun dim shape letter) }
{
    let mut tensors = Tensors::empty(alloc, dim, shape, letter)?;
    unless_wanting(tensors.put_a(0, 0, 0, Frac::whole(1)))?;
    Ok(tensors)
}

/// The tensors of the numbers `c_0` to `c_most` that an array begins with, with all indices below dim and all exponents up to
/// most, which are from 1 to 72. `A^0_{00} = 1`; `B^i_{jk} = (2j + 1) c_e` where `e = k + 1 - i - j` is from 0 to most;
/// `C^i_{jk} = c_e` where `e = j + k + 2 - i` is from 0 to most; `D^0 = c_1/8` and `D^1 = 1/8`. Their shape is AtMost(3, 1), with
/// the letter as it is asked for: its exponent is e, and 1 at `D^0`, and 0 else.
///
/// The products of B are made by i, j and k ascending, and then that of `c_1` and 1/8. It is refused with `Over` where one of
/// them leaves 128 bits, and k is then the exponent e of the first one, and 1 for the last; and with `NoMemory`.
pub fn tensors_of(
    alloc: Global,
    dim: u8,
    most: u8,
    numbers: &[Frac; 73],
    letter: bool,
) -> Result<Tensors, CurveErr>
    requires some { 0 < dim }
    requires within { dim ≤ 72 }
    requires exponents { 0 < most }
    requires most { most ≤ 72 }
    ensures entries { IfOk result (λ t. SameEntries (looked_up t) (exact.curve (held numbers.now) dim most)) }
    ensures letter { IfOk result (λ t. t.letter ≡ letter) }
    ensures obtained { OnOk result (tensors_refusal (held numbers.now) dim most ≡ None) }
    ensures over { IfErr result (λ e. Names e (tensors_refusal (held numbers.now) dim most)) }
{
    let shape = Shape::AtMost(Law { per_g: 3, per_n: 1 });
    let mut tensors = with_corner(alloc, dim, shape, letter)?;
    fill(&mut tensors, numbers, most)?;
    let Some(corner) = number_at(numbers, 1).mul(eighth()) else {
        return Err(CurveErr::Over { k: 1 });
    };
    fill_d(&mut tensors, corner, eighth())?;
    Ok(tensors)
}

/// The tensors of the curve with the numbers `u_1, u_2, ..` of a list, with all indices below dim and all exponents up to most;
/// dim and most are from 1 to 72, and the list has at most 24 numbers and goes on with 0. `A^0_{00} = 1`; `B^i_{jk} = (2j + 1) c_e`
/// where `e = k + 1 - i - j` is from 0 to most; `C^i_{jk} = c_e` where `e = j + k + 2 - i` is from 0 to most; `D^0 = c_1/8` and
/// `D^1 = 1/8`. Their shape is AtMost(3, 1), without a letter. They are the operators of Witten and Kontsevich after a shift of the
/// variables, in another basis; with `u_l = (-4)^l/(2l+1)!` those of Weil and Petersson, with 1 in the place of the letter.
///
/// `c_0 = 1`, and for k from 1 on the sum of `u_l c_(k-l)` over l from 0 to k is 0, where `u_0 = 1`. They are made step by step in
/// 128 bits: for k from 1 to most `c_k`, the negative of a sum that begins at 0, and to which the products of `u_l` and `c_(k-l)`
/// are added for l from 1 to k; then the products of B by i, j and k ascending; then the product of `c_1` and 1/8.
///
/// It is refused with `Over` where such a step leaves the range, and k is then that of the first `c_k`, or e of the first product
/// of B, or 1 for the last step; and with `NoMemory` for want of memory.
///
/// They meet the five relations in all places below N, for every N with 2N + 1 at most dim and at most `most`.
pub fn curve_cut(alloc: Global, dim: u8, most: u8, u: &[Frac]) -> Result<Tensors, CurveErr>
    requires some { 0 < dim }
    requires within { dim ≤ 72 }
    requires exponents { 0 < most }
    requires most { most ≤ 72 }
    requires list { length u.now ≤ 24 }
    ensures stands { IfOk result (λ t. StandsFor t (exact.curve (number_of (of_list u.now)) dim most)) }
    ensures closes { IfOk result (λ t. (N : ℕ) → 2 * N + 1 ≤ dim → 2 * N + 1 ≤ most → MeetsRelations t N) }
    ensures obtained { OnOk result (curve_refusal (of_list u.now) dim most ≡ None) }
    ensures over { IfErr result (λ e. Names e (curve_refusal (of_list u.now) dim most)) }
{
    let numbers = match numbers_up_to(&sequence_of(u), most) {
        Ok(numbers) => numbers,
        Err(k) => return Err(CurveErr::Over { k }),
    };
    crate::curve_closes();
    tensors_of(alloc, dim, most, &numbers, false)
}

/// The greatest index that a table of a curve up to the bound can need. The bound is from 1 to 24.
#[tactic(auto, unfolding(airy_math::specs::Families::top_wk))]
pub fn top_of_curve(bound: u8) -> u8
    requires some { 0 < bound }
    requires most { bound ≤ 24 }
    ensures { result ≡ top_wk bound }
{
    bound - 1 + (bound + 1) / 2
}

/// Those of a curve that a table up to the bound needs: all indices and all exponents up to its top. The bound is from 1 to 24.
/// What they leave out of the whole curve stands, up to the bound, only in terms with a factor that is 0
/// (`relation_law::curve_is_cut`). They meet the five relations in all places below N, for every N with 2N + 1 at most the top.
pub fn curve(alloc: Global, bound: u8, u: &[Frac]) -> Result<Tensors, CurveErr>
    requires some { 0 < bound }
    requires most { bound ≤ 24 }
    requires list { length u.now ≤ 24 }
    ensures stands { IfOk result (λ t. StandsFor t (exact.curve (number_of (of_list u.now)) (suc (top_wk bound)) (top_wk bound))) }
    ensures closes { IfOk result (λ t. (N : ℕ) → 2 * N + 1 ≤ top_wk bound → MeetsRelations t N) }
    ensures obtained { OnOk result (curve_refusal (of_list u.now) (suc (top_wk bound)) (top_wk bound) ≡ None) }
    ensures over { IfErr result (λ e. Names e (curve_refusal (of_list u.now) (suc (top_wk bound)) (top_wk bound))) }
{
    let top = top_of_curve(bound);
    curve_cut(alloc, top + 1, top, u)
}
