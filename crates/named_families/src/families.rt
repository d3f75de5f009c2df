ghost use Rattle.std.specs.Prelude.{◌≡◌, ◌≤◌, ◌<◌, ◌+◌, ◌-◌, ◌*◌, IfOk, ℕ};
ghost use Rattle.named_families.specs.Families.{StandsFor, top};
ghost use Rattle.named_families.specs.Closing.{MeetsRelations};
ghost use Rattle.airy_math.specs.Named as named;
ghost use Rattle.airy_math.specs.Families.{top_wk, top_bgw};

use crate::filling::fill_exact;
use airy_curve::{top_of_curve, with_corner};
use airy_math::Family;
use sparse_tensor::{Law, NoMemory, Shape, Tensors};
use std::alloc::Global;

/// The greatest index that a table of the family up to the bound can need. The bound is from 1 to 24.
#[tactic(auto, unfolding(crate::specs::Families::top, airy_math::specs::Families::top_bgw))]
pub fn top_of(family: Family, bound: u8) -> u8
    requires some { 0 < bound }
    requires most { bound ≤ 24 }
    ensures { result ≡ top family bound }
{
    match family {
        Family::Wk | Family::Wp => top_of_curve(bound),
        Family::Bgw => (bound + 1) / 2 - 1,
    }
}

/// The tensors of Witten and Kontsevich with all indices below dim, which is from 1 to 72: `A^0_{00} = 1`,
/// `B^i_{jk} = 2j + 1` where `i + j = k + 1`, `C^i_{jk} = 1` where `i = j + k + 2`, and `D^1 = 1/8`. Their shape is
/// Exact(3, 1), and they carry no letter. They meet the five relations in all places below N, for every N with 2N + 1 at most dim.
pub fn wk_cut(alloc: Global, dim: u8) -> Result<Tensors, NoMemory>
    requires some { 0 < dim }
    requires most { dim ≤ 72 }
    ensures stands { IfOk result (λ t. StandsFor t (named.wk (dim - 1))) }
    ensures closes { IfOk result (λ t. (N : ℕ) → 2 * N + 1 ≤ t.dim → MeetsRelations t N) }
{
    let shape = Shape::Exact(Law { per_g: 3, per_n: 1 });
    let mut tensors = with_corner(alloc, dim, shape, false)?;
    fill_exact(&mut tensors, 1)?;
    crate::wk_closes();
    Ok(tensors)
}

/// The tensors of Brezin, Gross and Witten with all indices below dim, which is from 1 to 72: A is 0,
/// `B^i_{jk} = 2j + 1` where `i + j = k`, `C^i_{jk} = 1` where `i = j + k + 1`, and `D^0 = 1/8`. Their shape is
/// Exact(1, 0), and they carry no letter. They meet the five relations as far as those of wk do.
pub fn bgw_cut(alloc: Global, dim: u8) -> Result<Tensors, NoMemory>
    requires some { 0 < dim }
    requires most { dim ≤ 72 }
    ensures stands { IfOk result (λ t. StandsFor t (named.bgw (dim - 1))) }
    ensures closes { IfOk result (λ t. (N : ℕ) → 2 * N + 1 ≤ t.dim → MeetsRelations t N) }
{
    let shape = Shape::Exact(Law { per_g: 1, per_n: 0 });
    let mut tensors = Tensors::empty(alloc, dim, shape, false)?;
    fill_exact(&mut tensors, 0)?;
    crate::bgw_closes();
    Ok(tensors)
}

/// Those of wk that a table up to the bound needs: all indices up to its top. The bound is from 1 to 24.
pub fn wk(alloc: Global, bound: u8) -> Result<Tensors, NoMemory>
    requires some { 0 < bound }
    requires most { bound ≤ 24 }
    ensures stands { IfOk result (λ t. StandsFor t (named.wk (top_wk bound))) }
    ensures closes { IfOk result (λ t. (N : ℕ) → 2 * N + 1 ≤ t.dim → MeetsRelations t N) }
{
    wk_cut(alloc, top_of(Family::Wk, bound) + 1)
}

/// Those of bgw that a table up to the bound needs: all indices up to its top. The bound is from 1 to 24.
pub fn bgw(alloc: Global, bound: u8) -> Result<Tensors, NoMemory>
    requires some { 0 < bound }
    requires most { bound ≤ 24 }
    ensures stands { IfOk result (λ t. StandsFor t (named.bgw (top_bgw bound))) }
    ensures closes { IfOk result (λ t. (N : ℕ) → 2 * N + 1 ≤ t.dim → MeetsRelations t N) }
{
    bgw_cut(alloc, top_of(Family::Bgw, bound) + 1)
}
