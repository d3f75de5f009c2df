ghost use Rattle.std.specs.Prelude.{◌≡◌, ◌<◌, length};

use crate::pivot::Seen;
use crate::{Outcome, Table, names_ranks, one_thread, pivot_value, write_value};
use airy_index::{Law, Shape};
use amp_plan::Plan;
use frac128::Frac;
use sparse_tensor::{PutErr, Tensors};
use std::alloc::Global;
use std::test::Fail;

/// The tensors of Witten and Kontsevich with all indices up to 4: `A^0_00 = 1`, `B^i_jk = 2j + 1` where `i + j = k + 1`,
/// `C^i_jk = 1` where `i = j + k + 2`, `D^1 = 1/8`.
#[tactic(auto, unfolding(sparse_tensor::specs::Grades::IsSmallLaw))]
fn wk_4(alloc: Global) -> Result<Tensors, Fail> {
    let shape = Shape::Exact(Law { per_g: 3, per_n: 1 });
    let mut t = Tensors::empty(alloc, 5, shape, false)?;
    put_wk(&mut t)?;
    Ok(t)
}

fn put_wk(t: &mut Tensors) -> Result<(), PutErr> {
    t.put_a(0, 0, 0, Frac::whole(1))?;
    t.put_d(1, fraction(1, 8))?;
    for i in 0..5u8 {
        for j in 0..5u8 {
            put_b_and_c(t, i, j)?;
        }
    }
    Ok(())
}

/// The entries of B and C that have i and j as their first, or their last, two indices.
fn put_b_and_c(t: &mut Tensors, i: u8, j: u8) -> Result<(), PutErr>
    requires i { i < 5 }
    requires j { j < 5 }
{
    if i + j >= 1 && i + j <= 5 {
        t.put_b(i, j, i + j - 1, Frac::whole(2 * i64::from(j) + 1))?;
    }
    if i <= j && i + j <= 2 {
        t.put_c(i + j + 2, i, j, Frac::whole(1))?;
    }
    Ok(())
}

/// Tensors with one index, all keys covered.
#[tactic(auto, unfolding(sparse_tensor::specs::Grades::IsSmallLaw))]
fn with_one_index(alloc: Global, a: Frac, b: Frac, c: Frac, d: Frac) -> Result<Tensors, Fail> {
    let mut t = Tensors::empty(alloc, 1, Shape::All, false)?;
    put_one_index(&mut t, a, b, c, d)?;
    Ok(t)
}

fn put_one_index(t: &mut Tensors, a: Frac, b: Frac, c: Frac, d: Frac) -> Result<(), PutErr> {
    t.put_a(0, 0, 0, a)?;
    t.put_b(0, 0, 0, b)?;
    t.put_c(0, 0, 0, c)?;
    t.put_d(0, d)
}

/// The fraction num / den, or 0 where it is none.
fn fraction(num: i128, den: i128) -> Frac {
    Frac::new(num, den).unwrap_or(Frac::whole(0))
}

fn planned(alloc: Global, tensors: Tensors, bound: u8) -> Result<Plan, Fail> {
    match Plan::make(alloc, tensors, bound) {
        Ok(plan) => Ok(plan),
        Err(_) => Err("plan".into()),
    }
}

/// The table of the plan of these tensors.
fn filled(alloc: Global, tensors: Tensors, bound: u8) -> Result<Table, Fail> {
    let plan = planned(alloc, tensors, bound)?;
    Ok(one_thread(alloc, &plan)?)
}

/// Whether a rank has the Value num / den.
fn has_value(table: &Table, rank: u32, num: i128, den: i128) -> bool
    requires { rank < length table.now }
{
    match Frac::new(num, den) {
        Ok(value) => table.outcome(rank) == Some(Outcome::Value(value)),
        Err(_) => false,
    }
}

/// Whether the table has these Values and no others.
fn has_values(table: &Table, values: &[(i128, i128)]) -> bool {
    if table.len() as usize != values.len() {
        return false;
    }
    for rank in 0..table.len() {
        let (num, den) = values[rank as usize];
        if !has_value(table, rank, num, den) {
            return false;
        }
    }
    true
}

/// Whether the table has the Values of Witten and Kontsevich up to 3, and a Value at every rank.
fn is_wk_up_to_3(table: &Table) -> bool {
    let values = [
        (1, 1),
        (1, 8),
        (3, 1),
        (5, 8),
        (3, 8),
        (15, 1),
        (18, 1),
        (35, 8),
        (15, 4),
        (9, 4),
        (105, 128),
    ];
    has_values(table, &values) && table.first_not_value() == None
}

#[test]
fn the_values_of_wk_up_to_3(rt: HostRuntime) -> Result<(), Fail> {
    let table = filled(rt.alloc(), wk_4(rt.alloc())?, 3)?;
    assert!(rt; is_wk_up_to_3(&table));
    Ok(())
}

/// The outcomes of a table, and `Over` at a rank that was never filled.
#[derive(Drop)]
struct Shown<'a> {
    table: &'a Table,
}

impl Seen for Shown<'_> {
    ghost use Rattle.std.specs.Prelude.{List, Option, length, ◌<◌};
    ghost use Rattle.amp_terms.specs.declared.Outcome.{Outcome};
    ghost use Rattle.amp_terms.specs.Tables.{shown_in};

    ghost Base = { List (Option Outcome) };

    ghost made_over = { λ s. s.table.now };

    ghost has = { λ s r. r < length s.table.now };

    ghost shown = { λ s. shown_in s.table.now };

    #[tactic(auto, unfolding(crate::specs::Tables::shown_in))]
    fn at(&mut self, rank: u32) -> Outcome {
        self.table.outcome(rank).unwrap_or(Outcome::Over)
    }
}

/// The outcome of the pivot sum of the key of a rank, with the pivot at a place of its list, over a table of that plan.
fn value_at(plan: &Plan, table: &Table, rank: u32, place: usize) -> Option<Outcome> {
    if rank >= plan.len() || table.len() != plan.len() {
        return None;
    }
    plan.planned_fact();
    let key = plan.key(rank);
    if place >= key.idx().len() {
        return None;
    }
    let pivot = key.idx()[place];
    names_ranks(plan, &key, pivot);
    Some(pivot_value(plan, &key, pivot, &mut Shown { table }))
}

/// Whether both pivots of the key of rank 3 give 5/8.
fn both_pivots_give_it(plan: &Plan, table: &Table) -> bool {
    let value = Some(Outcome::Value(fraction(5, 8)));
    value_at(plan, table, 3, 0) == value && value_at(plan, table, 3, 1) == value
}

#[test]
fn both_pivots_of_a_key_give_its_value(rt: HostRuntime) -> Result<(), Fail> {
    let plan = planned(rt.alloc(), wk_4(rt.alloc())?, 2)?;
    let table = one_thread(rt.alloc(), &plan)?;
    assert!(rt; both_pivots_give_it(&plan, &table));
    Ok(())
}

#[test]
fn the_values_where_all_keys_are_covered(rt: HostRuntime) -> Result<(), Fail> {
    let one = Frac::whole(1);
    let tensors = with_one_index(rt.alloc(), one, one, one, fraction(1, 8))?;
    let table = filled(rt.alloc(), tensors, 3)?;
    let values = [(1, 1), (1, 8), (3, 1), (5, 8), (15, 1), (23, 8), (41, 128)];
    assert!(rt; has_values(&table, &values));
    Ok(())
}

/// Whether the step beyond the range at rank 2 blocks rank 4, and leaves the Value 0 at rank 5.
fn is_blocked_by_2(table: &Table) -> bool {
    table.len() == 7
        && table.first_not_value() == Some(2)
        && table.outcome(2) == Some(Outcome::Over)
        && table.outcome(4) == Some(Outcome::Blocked { first: 2 })
        && has_value(table, 5, 0, 1)
}

#[test]
fn a_step_beyond_the_range_blocks_what_rests_on_it(rt: HostRuntime) -> Result<(), Fail> {
    let zero = Frac::whole(0);
    let tensors = with_one_index(
        rt.alloc(),
        fraction(1 << 126, 1),
        Frac::whole(1),
        zero,
        zero,
    )?;
    let table = filled(rt.alloc(), tensors, 3)?;
    assert!(rt; is_blocked_by_2(&table));
    Ok(())
}

/// Whether the table has two ranks with these outcomes.
fn has_outcomes(table: &Table, first: Option<Outcome>, second: Option<Outcome>) -> bool {
    table.len() == 2 && table.outcome(0) == first && table.outcome(1) == second
}

/// Whether a table of two ranks is empty, and then has what is set.
fn has_what_is_set(table: &mut Table) -> bool
    requires { length table.old ≡ 2 }
{
    if !has_outcomes(table, None, None) {
        return false;
    }
    table.set(1, Outcome::Over);
    has_outcomes(table, None, Some(Outcome::Over)) && table.first_not_value() == Some(0)
}

#[test]
fn a_table_has_what_is_set(rt: HostRuntime) -> Result<(), Fail> {
    let mut table = Table::empty(rt.alloc(), 2)?;
    assert!(rt; has_what_is_set(&mut table));
    Ok(())
}

/// Whether the text of a value with its power is this one.
fn is_written(value: Frac, power: u16, wanted: &[u8]) -> bool {
    let mut text = [0u8; 96];
    let end = write_value(value, power, &mut text);
    &text[..end] == wanted
}

#[test]
fn a_value_is_written_with_its_power(rt: HostRuntime) {
    assert!(rt; is_written(fraction(1, 4), 2, b"1/4 p^2".as_slice()));
    assert!(rt; is_written(Frac::whole(-3), 1, b"-3 p".as_slice()));
    assert!(rt; is_written(Frac::whole(0), 0, b"0".as_slice()));
}
