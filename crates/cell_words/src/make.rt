// How a board begins.
ghost use Rattle.std.specs.Prelude.{◌≡◌, ◌+◌, ◌*◌, ◌<◌, ◌≤◌, length, replicate, IfOk, IfErr, vec_len, vec_capacity, None, cond, nat_eq, []};
ghost use Rattle.cell_words.specs.Layout.{cells};
ghost use Rattle.cell_words.specs.Deals.{IsBlank, AreAll};
ghost use Rattle.cell_words.specs.Resuming.{carried_in, CanResume, AreResumed, AreBegun};
ghost use Rattle.cell_words.specs.Seats.{plan_of, seats_of, carried_of, EachPlaced};
ghost use Rattle.cell_words.specs.Starts.{starts};

use crate::closed::{BoardErr, ResumeErr};
use crate::countdown::{CountSeat, Countdown};
use crate::resume::{carried_ranks, resumed_words, start_ranks};
use crate::view::Base;
use amp_plan::Plan;
use amp_terms::Table;
use std::alloc::{AllocError, Global};

/// The receipts of a seat at the start: the first has the carried ranks.
fn first_receipts(
    alloc: Global,
    table: &Table,
    number: u8,
    room: u32,
) -> Result<Vec<u32>, AllocError>
    requires { length table.now ≤ room }
    ensures ranks { IfOk result (λ v. v.items ≡ cond (nat_eq number 0) (carried_in table.now) []) }
    ensures room { IfOk result (λ v. room ≤ vec_capacity v) }
{
    if number == 0 {
        return carried_ranks(alloc, table, room);
    }
    Vec::with_capacity(alloc, room as usize)
}

/// Seats without tokens, with room for all receipts.
fn blank_seats(
    alloc: Global,
    table: &Table,
    seats: u8,
    room: u32,
) -> Result<Vec<CountSeat>, AllocError>
    requires { length table.now ≤ room }
    ensures len { IfOk result (λ v. vec_len v ≡ seats) }
    ensures blank { IfOk result (λ v. EachPlaced (IsBlank room (carried_in table.now)) seats v.items) }
{
    let mut all = Vec::with_capacity(alloc, seats as usize)?;
    for number in 0..seats {
        let done = first_receipts(alloc, table, number, room)?;
        all.push(CountSeat {
            place: None,
            number,
            held: None,
            done,
        })?;
    }
    Ok(all)
}

/// As many empty lists.
fn empty_lists(alloc: Global, count: u8) -> Result<Vec<Vec<u32>>, AllocError>
    ensures { IfOk result (λ v. vec_len v ≡ count) }
{
    let mut all = Vec::with_capacity(alloc, count as usize)?;
    for _ in 0..count {
        all.push(Vec::new(alloc))?;
    }
    Ok(all)
}

/// All that a board is made of but its table of words.
struct Room {
    words: Vec<u64>,
    seats: Vec<CountSeat>,
    carried: Vec<u32>,
    blank: Table,
    receipts: Vec<Vec<u32>>,
    ready: Vec<u32>,
}

/// The parts of a board, or want of memory.
fn make_room(alloc: Global, plan: &Plan, table: &Table, seats: u8) -> Result<Room, AllocError>
    requires { CanResume plan.now table.now }
    ensures some { IfOk result (λ p. 0 < vec_len p.words) }
    ensures long { IfOk result (λ p. 5 * cells plan.now ≤ vec_len p.words) }
    ensures words { IfOk result (λ p. AreResumed plan.now table.now (cells plan.now) p.words.items) }
    ensures len { IfOk result (λ p. vec_len p.seats ≡ seats) }
    ensures seats { IfOk result (λ p. EachPlaced (IsBlank (cells plan.now) (carried_in table.now)) seats p.seats.items) }
    ensures carried { IfOk result (λ p. p.carried.items ≡ carried_in table.now) }
    ensures blank { IfOk result (λ p. p.blank ≡ replicate (cells plan.now) None) }
    ensures receipts { IfOk result (λ p. vec_len p.receipts ≡ seats) }
    ensures ready { IfOk result (λ p. p.ready.items ≡ starts plan.now (carried_in table.now)) }
{
    Ok(Room {
        words: resumed_words(alloc, plan, table)?,
        seats: blank_seats(alloc, table, seats, plan.len())?,
        carried: carried_ranks(alloc, table, plan.len())?,
        blank: Table::empty(alloc, plan.len())?,
        receipts: empty_lists(alloc, seats)?,
        ready: start_ranks(alloc, plan, table)?,
    })
}

/// A board that begins with the outcomes of the table, and its seats. For want of memory the plan comes back.
fn opened(
    alloc: Global,
    plan: Plan,
    table: &Table,
    seats: u8,
) -> Result<(Countdown, Vec<CountSeat>), Plan>
    requires seats { (1 ≤ seats) × (seats ≤ 32) }
    requires can { CanResume plan table.now }
    ensures plan { IfOk result (λ t. plan_of t.0 ≡ plan) }
    ensures board_seats { IfOk result (λ t. seats_of t.0 ≡ seats) }
    ensures carried { IfOk result (λ t. carried_of t.0 ≡ carried_in table.now) }
    ensures len { IfOk result (λ t. vec_len t.1 ≡ seats) }
    ensures seats { IfOk result (λ t. AreBegun t.0 (carried_in table.now) seats t.1.items) }
    ensures all { IfOk result (λ t. AreAll t.0 t.1.items) }
    ensures back { IfErr result (λ p. p ≡ plan) }
{
    let Ok(room) = make_room(alloc, &plan, table, seats) else {
        return Err(plan);
    };
    let Room {
        words,
        seats: mut crew,
        carried,
        blank,
        receipts,
        ready,
    } = room;
    plan.needs_fact();
    plan.limits_fact();
    let base = Base {
        plan,
        seats: u64::from(seats),
        carried,
    };
    match atomic_table::Table::of_words(alloc, words.as_slice(), &base) {
        Ok((table, place)) => {
            let board = Countdown {
                table,
                base,
                blank,
                receipts,
                ready,
            };
            board.deal(place, crew.as_mut_slice());
            Ok((board, crew))
        }
        Err(_) => {
            let Base {
                plan,
                seats: _,
                carried: _,
            } = base;
            Err(plan)
        }
    }
}

impl Countdown {
    ghost use Rattle.cell_words.specs.Resuming.{AreNew, AreBegun, CanResume, carried_in};

    /// A board of the plan with nothing claimed or filled, and its seats, numbered from 0 in order.
    pub fn make(
        alloc: Global,
        plan: Plan,
        seats: u8,
    ) -> Result<(Countdown, Vec<CountSeat>), BoardErr>
        requires seats { (1 ≤ seats) × (seats ≤ 32) }
        ensures plan { IfOk result (λ t. plan_of t.0 ≡ plan) }
        ensures board_seats { IfOk result (λ t. seats_of t.0 ≡ seats) }
        ensures carried { IfOk result (λ t. carried_of t.0 ≡ []) }
        ensures len { IfOk result (λ t. vec_len t.1 ≡ seats) }
        ensures seats { IfOk result (λ t. AreNew t.0 seats t.1.items) }
        ensures all { IfOk result (λ t. AreAll t.0 t.1.items) }
        ensures back { IfErr result (λ e. e.plan ≡ plan) }
    {
        let Ok(nothing) = Table::empty(alloc, 0) else {
            return Err(BoardErr { plan });
        };
        match opened(alloc, plan, &nothing, seats) {
            Ok(made) => Ok(made),
            Err(plan) => Err(BoardErr { plan }),
        }
    }

    /// A board of the plan on which just the ranks that have an outcome in the table are filled, and its seats, numbered from
    /// 0 in order. Each seat knows the carried ranks, and they are the first receipts of seat number 0.
    pub fn resume(
        alloc: Global,
        plan: Plan,
        table: Table,
        seats: u8,
    ) -> Result<(Countdown, Vec<CountSeat>), ResumeErr>
        requires seats { (1 ≤ seats) × (seats ≤ 32) }
        requires can { CanResume plan table }
        ensures plan { IfOk result (λ t. plan_of t.0 ≡ plan) }
        ensures board_seats { IfOk result (λ t. seats_of t.0 ≡ seats) }
        ensures carried { IfOk result (λ t. carried_of t.0 ≡ carried_in table) }
        ensures len { IfOk result (λ t. vec_len t.1 ≡ seats) }
        ensures seats { IfOk result (λ t. AreBegun t.0 (carried_in table) seats t.1.items) }
        ensures all { IfOk result (λ t. AreAll t.0 t.1.items) }
        ensures plan_back { IfErr result (λ e. e.plan ≡ plan) }
        ensures table_back { IfErr result (λ e. e.table ≡ table) }
    {
        match opened(alloc, plan, &table, seats) {
            Ok(made) => Ok(made),
            Err(plan) => Err(ResumeErr { plan, table }),
        }
    }
}
