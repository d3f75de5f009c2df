ghost use Rattle.std.specs.Prelude.{◌≡◌, ◌≤ℤ◌, pos, negsuc};
ghost use Rattle.airy_math.specs.Shapes.{per_g, per_n};
ghost use Rattle.sparse_tensor.specs.Grades.{IsSmallLaw, keeps, keeps_a, keeps_b, keeps_c, keeps_d};

use airy_math::{Law, Shape};

/// The law of the shape, of 0 and 0 where it has none.
#[tactic(auto, unfolding(crate::specs::Grades::IsSmallLaw, airy_math::specs::Shapes::per_g, airy_math::specs::Shapes::per_n))]
fn law_of(shape: Shape) -> Law
    requires { IsSmallLaw shape }
    ensures genus { result.per_g ≡ per_g shape }
    ensures places { result.per_n ≡ per_n shape }
    ensures least_genus { negsuc 98 ≤ℤ result.per_g }
    ensures most_genus { result.per_g ≤ℤ pos 99 }
    ensures least_places { negsuc 98 ≤ℤ result.per_n }
    ensures most_places { result.per_n ≤ℤ pos 99 }
{
    match shape {
        Shape::All => Law { per_g: 0, per_n: 0 },
        Shape::Exact(law) => law,
        Shape::AtMost(law) => law,
    }
}

/// Whether x stands to y as the shape says.
fn keeps(shape: Shape, x: i32, y: i32) -> bool
    ensures { result ≡ keeps shape x y }
{
    match shape {
        Shape::All => true,
        Shape::Exact(_) => x == y,
        Shape::AtMost(_) => x <= y,
    }
}

/// Whether `A^i_{jk}` keeps the grading.
#[tactic(auto, unfolding(crate::specs::Grades::keeps_a))]
pub(crate) fn keeps_a(shape: Shape, i: u8, j: u8, k: u8) -> bool
    requires { IsSmallLaw shape }
    ensures { result ≡ keeps_a shape i j k }
{
    let law = law_of(shape);
    keeps(
        shape,
        i as i32 + j as i32 + k as i32,
        3 * law.per_n - law.per_g,
    )
}

/// Whether `B^i_{jk}` keeps the grading.
#[tactic(auto, unfolding(crate::specs::Grades::keeps_b))]
pub(crate) fn keeps_b(shape: Shape, i: u8, j: u8, k: u8) -> bool
    requires { IsSmallLaw shape }
    ensures { result ≡ keeps_b shape i j k }
{
    keeps(shape, i as i32 + j as i32 - k as i32, law_of(shape).per_n)
}

/// Whether `C^i_{jk}` keeps the grading.
#[tactic(auto, unfolding(crate::specs::Grades::keeps_c))]
pub(crate) fn keeps_c(shape: Shape, i: u8, j: u8, k: u8) -> bool
    requires { IsSmallLaw shape }
    ensures { result ≡ keeps_c shape i j k }
{
    let law = law_of(shape);
    keeps(
        shape,
        i as i32 - (j as i32 + k as i32),
        law.per_g - law.per_n,
    )
}

/// Whether `D^i` keeps the grading.
#[tactic(auto, unfolding(crate::specs::Grades::keeps_d))]
pub(crate) fn keeps_d(shape: Shape, i: u8) -> bool
    requires { IsSmallLaw shape }
    ensures { result ≡ keeps_d shape i }
{
    keeps(shape, i as i32, law_of(shape).per_n)
}
