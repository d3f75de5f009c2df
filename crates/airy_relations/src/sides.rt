ghost use Rattle.std.specs.Prelude.{◌≡◌, ◌<◌, Some};
ghost use Rattle.airy_math.specs.RationalLaws.{0ℚ};
ghost use Rattle.airy_math.specs.Sums.{each, below};
ghost use Rattle.sparse_tensor.specs.Entries.{looked_up};
ghost use Rattle.airy_relations.specs.Rows.{row_of, others};
ghost use Rattle.airy_relations.specs.Sides.{obtained_side, at_D, of_pair};
ghost use Rattle.airy_relations.specs.Steps.{added, added_all};
ghost use Rattle.airy_relations.specs.Threes.{entry, IsSumOfThree};

use crate::rows::{Line, Row, Values, least};
use crate::steps::{add_product, add_three, weight, zero};
use crate::verdict::Rel;
use frac128::Frac;
use sparse_tensor::{Part, Tensors};

/// The number of indices.
#[tactic(auto, unfolding(sparse_tensor::specs::Entries::looked_up))]
fn dim_of(t: &Tensors) -> u8
    ensures { result ≡ (looked_up t.now).dim }
{
    t.dim()
}

/// The row of `B^i_{ja}` by a ascending.
#[tactic(auto, using(crate::proofs::RowLemmas::row_b_is))]
fn row_of_b(t: &Tensors, i: u8, j: u8) -> Row<'_>
    ensures { result.rest.now ≡ row_of (λ a. (looked_up t.now).B i j a) 0 (looked_up t.now).dim }
{
    Row {
        rest: t.row_b(i, j),
    }
}

/// The line of `C^i_{la}` by a ascending.
#[tactic(auto, using(crate::proofs::RowLemmas::row_c_is))]
fn line_of_c(t: &Tensors, i: u8, l: u8) -> Line<'_>
    requires { l < (looked_up t.now).dim }
    ensures { others result.l result.rest.now ≡ row_of (λ a. (looked_up t.now).C i l a) 0 (looked_up t.now).dim }
{
    t.soundness_fact();
    Line {
        rest: t.row_c(i),
        l,
    }
}

/// The entry of a part.
#[tactic(auto, unfolding(crate::specs::Threes::entry))]
fn entry(t: &Tensors, part: Part, i: u8, j: u8, k: u8) -> Frac
    ensures { result ≡ entry (looked_up t.now) part i j k }
{
    match part {
        Part::A => t.a(i, j, k),
        Part::B => t.b(i, j, k),
        Part::C => t.c(i, j, k),
    }
}

/// The sum over a of three products: the values at a times `P^a_{kl}`, `Q^j_{al}` and `R^j_{ak}`, with the parts P, Q and R.
fn sum_three<X: Values + Drop, Y: Values + Drop, Z: Values + Drop>(
    t: &Tensors,
    mut first: X,
    mut second: Y,
    mut third: Z,
    parts: (Part, Part, Part),
    j: u8,
    k: u8,
    l: u8,
) -> Option<Frac>
    ensures { IsSumOfThree (looked_up t.now) (X.left first) (Y.left second) (Z.left third) parts j k l result }
{
    let (p, q, r) = parts;
    let mut total = zero();
    while let Some(a) = least(first.index(), second.index(), third.index()) {
        total.range_fact();
        let x = (first.take_at(a), entry(t, p, a, k, l));
        let y = (second.take_at(a), entry(t, q, j, a, l));
        let z = (third.take_at(a), entry(t, r, j, a, k));
        total = add_three(total, x, y, z)?;
    }
    total.range_fact();
    Some(total)
}

/// The sum over a of `B^i_{ja} D^a`.
fn sum_bd(t: &Tensors, i: u8, j: u8) -> Option<Frac>
    ensures { result ≡ added_all (Some 0ℚ) (each (below (looked_up t.now).dim) (at_D (looked_up t.now) i j)) }
{
    let mut row = row_of_b(t, i, j);
    let mut total = zero();
    for a in 0..dim_of(t) {
        total = add_product(total, row.take_at(a), t.d(a))?;
    }
    Some(total)
}

/// The total and the product of w and `A^j_{ab}`, where w is the entry at a and b, or one half of it where a is b.
#[tactic(auto, using(crate::proofs::StepLemmas::added_pair))]
fn add_pair(total: Frac, t: &Tensors, j: u8, entry: (u8, u8, Frac)) -> Option<Frac>
    ensures { result ≡ added (Some total) (of_pair (looked_up t.now) j entry) }
{
    let (a, b, v) = entry;
    let w = weight(a, b, v)?;
    add_product(total, w, t.a(j, a, b))
}

/// That sum, and the sum over the entries of `row_c(i)` of w `A^j_{ab}`: one half of the sum of `C^i_{ab} A^j_{ab}` over
/// all a and b.
fn side_d(t: &Tensors, i: u8, j: u8) -> Option<Frac>
    ensures { result ≡ obtained_side (looked_up t.now) Rel.D i j 0 0 }
{
    let mut total = sum_bd(t, i, j)?;
    let row = t.row_c(i);
    for entry in row {
        total = add_pair(total, t, j, *entry)?;
    }
    Some(total)
}

/// A side of a relation, where its ordered sum is obtained.
pub(crate) fn side(t: &Tensors, rel: Rel, i: u8, j: u8, k: u8, l: u8) -> Option<Frac>
    requires k_below { k < (looked_up t.now).dim }
    requires l_below { l < (looked_up t.now).dim }
    ensures { result ≡ obtained_side (looked_up t.now) rel i j k l }
{
    match rel {
        Rel::AA => {
            let entry = t.a(i, j, k);
            entry.range_fact();
            Some(entry)
        }
        Rel::BA => {
            let first = row_of_b(t, i, j);
            let second = row_of_b(t, i, k);
            let third = row_of_b(t, i, l);
            let parts = (Part::A, Part::A, Part::A);
            sum_three(t, first, second, third, parts, j, k, l)
        }
        Rel::BB => {
            let first = row_of_b(t, i, j);
            let second = row_of_b(t, i, k);
            let third = line_of_c(t, i, l);
            let parts = (Part::B, Part::B, Part::A);
            sum_three(t, first, second, third, parts, j, k, l)
        }
        Rel::BC => {
            let first = row_of_b(t, i, j);
            let second = line_of_c(t, i, k);
            let third = line_of_c(t, i, l);
            let parts = (Part::C, Part::B, Part::B);
            sum_three(t, first, second, third, parts, j, k, l)
        }
        Rel::D => side_d(t, i, j),
    }
}
