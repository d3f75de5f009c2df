ghost use Rattle.std.specs.Prelude.{◌≡◌, ◌<◌, ◌≤◌, ◌-◌, Some, None, IfSome, IsTrue, All, cond, vec_len};
ghost use Rattle.cell_words.specs.Layout.{cells};
ghost use Rattle.cell_words.specs.Resuming.{CanResume};
ghost use Rattle.cell_words.specs.LevelSeats.{IsAsker, IsFiller, IsUnseen, plan_of as level_plan};
ghost use Rattle.cell_words.specs.Seats.{IsSeatOf, EachPlaced, plan_of, seats_of, held_of, number_of};

use crate::{
    Cells, Claim, Closed, CountSeat, Countdown, FillSeat, Frontier, LevelSeat, Look, level_sweep,
};
use airy_index::{Law, Shape};
use amp_plan::Plan;
use amp_terms::{Outcome, Table, one_thread};
use frac128::Frac;
use sparse_tensor::{PutErr, Tensors};
use std::alloc::Global;
use std::thread::{Threads, join};

/// The fraction num / den, or 0 where it is none.
fn fraction(num: i128, den: i128) -> Frac {
    Frac::new(num, den).unwrap_or(Frac::whole(0))
}

/// The entries of B of Witten and Kontsevich with all indices up to 2.
fn put_wk_2_b(t: &mut Tensors) -> Result<(), PutErr> {
    for (i, j, v) in [
        (0u8, 1u8, 3i64),
        (0, 2, 5),
        (1, 0, 1),
        (1, 1, 3),
        (1, 2, 5),
        (2, 0, 1),
        (2, 1, 3),
    ] {
        t.put_b(i, j, i + j - 1, Frac::whole(v))?;
    }
    Ok(())
}

/// All their entries.
fn put_wk_2(t: &mut Tensors) -> Result<(), PutErr> {
    put_wk_2_b(t)?;
    t.put_a(0, 0, 0, Frac::whole(1))?;
    t.put_c(2, 0, 0, Frac::whole(1))?;
    t.put_d(1, fraction(1, 8))
}

/// Their tensors.
#[tactic(auto, unfolding(sparse_tensor::specs::Grades::IsSmallLaw))]
fn wk_2(alloc: Global) -> Option<Tensors> {
    let shape = Shape::Exact(Law { per_g: 3, per_n: 1 });
    let mut t = Tensors::empty(alloc, 3, shape, false).ok()?;
    put_wk_2(&mut t).ok()?;
    Some(t)
}

/// The plan of Witten and Kontsevich up to 2: 0,3 [0 0 0], 1,1 [1], 0,4 [0 0 0 1], 1,2 [0 2] and 1,2 [1 1].
fn five_cells(alloc: Global) -> Option<Plan>
    ensures { IfSome result (λ p. cells p ≡ 5) }
{
    let plan = Plan::make(alloc, wk_2(alloc)?, 2).ok()?;
    if plan.len() != 5 {
        return None;
    }
    Some(plan)
}

/// A plan without cells: no key of Euler number 1 has a sum of indices that is its number of indices.
#[tactic(auto, unfolding(sparse_tensor::specs::Grades::IsSmallLaw))]
fn no_cells(alloc: Global) -> Option<Plan> {
    let shape = Shape::Exact(Law { per_g: 0, per_n: 1 });
    let t = Tensors::empty(alloc, 1, shape, false).ok()?;
    Plan::make(alloc, t, 1).ok()
}

/// The last two seats of a board, which hold no rank.
fn last_two(board: &Countdown, mut seats: Vec<CountSeat>, many: u8) -> (CountSeat, CountSeat)
    requires many { (2 ≤ many) × (vec_len seats ≡ many) }
    requires each { EachPlaced (λ k s. IsSeatOf board.now s × (held_of s ≡ None) × (number_of s ≡ k)) many seats.items }
    ensures first { IsSeatOf board.now result.0 × (held_of result.0 ≡ None) × (number_of result.0 ≡ many - 2) }
    ensures second { IsSeatOf board.now result.1 × (held_of result.1 ≡ None) × (number_of result.1 ≡ many - 1) }
{
    let Some(second) = seats.pop() else {
        unreachable!()
    };
    let Some(first) = seats.pop() else {
        unreachable!()
    };
    (first, second)
}

/// A board of five cells with so many seats, and the last two of them.
fn last_seats(alloc: Global, many: u8) -> Option<(Countdown, CountSeat, CountSeat)>
    requires { (2 ≤ many) × (many ≤ 32) }
    ensures five { IfSome result (λ t. cells (plan_of t.0) ≡ 5) }
    ensures many { IfSome result (λ t. seats_of t.0 ≡ many) }
    ensures first { IfSome result (λ t. IsSeatOf t.0 t.1 × (held_of t.1 ≡ None) × (number_of t.1 ≡ many - 2)) }
    ensures second { IfSome result (λ t. IsSeatOf t.0 t.2 × (held_of t.2 ≡ None) × (number_of t.2 ≡ many - 1)) }
{
    let plan = five_cells(alloc)?;
    let Ok((board, seats)) = Countdown::make(alloc, plan, many) else {
        return None;
    };
    let (first, second) = last_two(&board, seats, many);
    Some((board, first, second))
}

/// The end of a board with these two seats.
fn close_two(alloc: Global, board: Countdown, first: CountSeat, second: CountSeat) -> Option<Closed>
    requires two { seats_of board ≡ 2 }
    requires first { IsSeatOf board first × (held_of first ≡ None) × (number_of first ≡ 0) }
    requires second { IsSeatOf board second × (held_of second ≡ None) × (number_of second ≡ 1) }
    ensures plan { IfSome result (λ c. c.plan ≡ plan_of board) }
    ensures many { IfSome result (λ c. vec_len c.receipts ≡ 2) }
    ensures resumes { IfSome result (λ c. CanResume (plan_of board) c.table) }
{
    let Ok(mut seats) = Vec::with_capacity(alloc, 2) else {
        return None;
    };
    let Ok(()) = seats.push(first) else {
        unreachable!()
    };
    let Ok(()) = seats.push(second) else {
        unreachable!()
    };
    Some(board.close(seats))
}

/// Claims a rank. Whether that was granted.
fn takes(board: &Countdown, seat: &mut CountSeat, rank: u32) -> bool
    requires seat { IsSeatOf board.now seat.old }
    requires free { held_of seat.old ≡ None }
    requires rank { rank < cells (plan_of board.now) }
    ensures seat { IsSeatOf board.now seat.new }
    ensures held { held_of seat.new ≡ cond result (Some rank) None }
    ensures number { number_of seat.new ≡ number_of seat.old }
{
    matches!(board.claim(seat, rank), Claim::Mine)
}

/// Claims a rank and fills it where that was granted. The sum of 1000 + t over the ranks t that this made ready.
fn fills(board: &Countdown, seat: &mut CountSeat, rank: u32) -> Option<u64>
    requires seat { IsSeatOf board.now seat.old }
    requires free { held_of seat.old ≡ None }
    requires rank { rank < cells (plan_of board.now) }
    ensures seat { IsSeatOf board.now seat.new }
    ensures free { held_of seat.new ≡ None }
    ensures number { number_of seat.new ≡ number_of seat.old }
{
    if !takes(board, seat, rank) {
        return None;
    }
    let mut told = 0u64;
    board.fill(seat, rank, |t: u32| {
        told = told.wrapping_add(1000 + u64::from(t));
    });
    Some(told)
}

/// Whether a look finds this outcome.
fn finds(board: &Countdown, seat: &mut CountSeat, rank: u32, outcome: Outcome) -> bool
    requires seat { IsSeatOf board.now seat.old }
    requires rank { rank < cells (plan_of board.now) }
    ensures seat { IsSeatOf board.now seat.new }
    ensures free { held_of seat.new ≡ held_of seat.old }
    ensures number { number_of seat.new ≡ number_of seat.old }
{
    match board.look(seat, rank) {
        Look::Filled(found) => found == outcome,
        Look::Empty { word: _ } => false,
    }
}

/// Whether claims and a look answer by the word that they find.
fn answer_by_words(board: &Countdown, s0: &mut CountSeat, s1: &mut CountSeat) -> bool
    requires five { cells (plan_of board.now) ≡ 5 }
    requires first { IsSeatOf board.now s0.old × (held_of s0.old ≡ None) }
    requires second { IsSeatOf board.now s1.old × (held_of s1.old ≡ None) }
{
    let Claim::Needs { left } = board.claim(s0, 2) else {
        return false;
    };
    left == 1
        && board.ready_at_start() == [0u32, 1].as_slice()
        && takes(board, s0, 0)
        && matches!(board.claim(s1, 0), Claim::Taken)
        && matches!(board.look(s1, 2), Look::Empty { word: 1 })
}

fn claims_by_word(alloc: Global) -> Option<bool> {
    let (board, mut s0, mut s1) = last_seats(alloc, 2)?;
    Some(answer_by_words(&board, &mut s0, &mut s1))
}

#[test]
fn a_claim_by_its_word(rt: HostRuntime) {
    assert!(rt; claims_by_word(rt.alloc()) == Some(true));
}

/// Whether the first seat's fill makes ready what the second then fills.
fn fills_what_is_ready(board: &Countdown, s0: &mut CountSeat, s1: &mut CountSeat) -> bool
    requires five { cells (plan_of board.now) ≡ 5 }
    requires first { IsSeatOf board.now s0.old × (held_of s0.old ≡ None) }
    requires second { IsSeatOf board.now s1.old × (held_of s1.old ≡ None) }
    ensures first { IsSeatOf board.now s0.new × (held_of s0.new ≡ None) × (number_of s0.new ≡ number_of s0.old) }
    ensures second { IsTrue result → IsSeatOf board.now s1.new × (held_of s1.new ≡ None) × (number_of s1.new ≡ number_of s1.old) }
{
    if fills(board, s0, 0) != Some(1002) {
        return false;
    }
    let Claim::Done = board.claim(s1, 0) else {
        return false;
    };
    finds(board, s1, 0, Outcome::Value(Frac::whole(1))) && fills(board, s1, 2) == Some(0)
}

/// Whether the first receipt is of rank 0 and the second of rank 2, and just these ranks have outcomes.
fn has_both(closed: &Closed) -> bool
    requires { vec_len closed.now.receipts ≡ 2 }
{
    let mut same = closed.receipts[0].as_slice() == [0u32].as_slice()
        && closed.receipts[1].as_slice() == [2u32].as_slice();
    for rank in 0..closed.table.len() {
        same = same && closed.table.outcome(rank).is_some() == (rank == 0 || rank == 2);
    }
    same
}

/// What is left of a board of five cells on which the ranks 0 and 2 were filled.
fn half_filled(alloc: Global) -> Option<Closed>
    ensures five { IfSome result (λ c. cells c.plan ≡ 5) }
    ensures many { IfSome result (λ c. vec_len c.receipts ≡ 2) }
    ensures resumes { IfSome result (λ c. CanResume c.plan c.table) }
{
    let (board, mut s0, mut s1) = last_seats(alloc, 2)?;
    if !fills_what_is_ready(&board, &mut s0, &mut s1) {
        return None;
    }
    close_two(alloc, board, s0, s1)
}

fn fills_two(alloc: Global) -> Option<bool> {
    Some(has_both(&half_filled(alloc)?))
}

#[test]
fn a_fill_makes_ready(rt: HostRuntime) {
    assert!(rt; fills_two(rt.alloc()) == Some(true));
}

/// The board that goes on from there, with its two seats.
fn resumed(alloc: Global) -> Option<(Countdown, CountSeat, CountSeat)>
    ensures five { IfSome result (λ t. cells (plan_of t.0) ≡ 5) }
    ensures two { IfSome result (λ t. seats_of t.0 ≡ 2) }
    ensures first { IfSome result (λ t. IsSeatOf t.0 t.1 × (held_of t.1 ≡ None) × (number_of t.1 ≡ 0)) }
    ensures second { IfSome result (λ t. IsSeatOf t.0 t.2 × (held_of t.2 ≡ None) × (number_of t.2 ≡ 1)) }
{
    let Closed {
        plan,
        table,
        receipts: _,
    } = half_filled(alloc)?;
    let Ok((board, seats)) = Countdown::resume(alloc, plan, table, 2) else {
        return None;
    };
    let (first, second) = last_two(&board, seats, 2);
    Some((board, first, second))
}

/// Whether a seat finds the outcomes of the carried ranks, and rank 1 empty.
fn finds_carried(board: &Countdown, seat: &mut CountSeat) -> bool
    requires five { cells (plan_of board.now) ≡ 5 }
    requires seat { IsSeatOf board.now seat.old }
{
    finds(board, seat, 0, Outcome::Value(Frac::whole(1)))
        && finds(board, seat, 2, Outcome::Value(Frac::whole(3)))
        && matches!(board.look(seat, 1), Look::Empty { word: 0 })
}

/// Whether rank 1 alone is ready, the carried ranks are the receipts of the first seat, and both seats find them.
fn begins_with_carried(board: &Countdown, s0: &mut CountSeat, s1: &mut CountSeat) -> bool
    requires five { cells (plan_of board.now) ≡ 5 }
    requires first { IsSeatOf board.now s0.old }
    requires second { IsSeatOf board.now s1.old }
{
    board.ready_at_start() == [1u32].as_slice()
        && s0.done() == [0u32, 2].as_slice()
        && s1.done().len() == 0
        && finds_carried(board, s0)
        && finds_carried(board, s1)
}

fn begins_where_it_was_closed(alloc: Global) -> Option<bool> {
    let (board, mut s0, mut s1) = resumed(alloc)?;
    Some(begins_with_carried(&board, &mut s0, &mut s1))
}

/// Whether the first seat fills rank 1, which makes ready what the second and then the first fill.
fn fills_the_rest(board: &Countdown, s0: &mut CountSeat, s1: &mut CountSeat) -> bool
    requires five { cells (plan_of board.now) ≡ 5 }
    requires first { IsSeatOf board.now s0.old × (held_of s0.old ≡ None) }
    requires second { IsSeatOf board.now s1.old × (held_of s1.old ≡ None) }
    ensures first { IsSeatOf board.now s0.new × (held_of s0.new ≡ None) × (number_of s0.new ≡ number_of s0.old) }
    ensures second { IsSeatOf board.now s1.new × (held_of s1.new ≡ None) × (number_of s1.new ≡ number_of s1.old) }
{
    fills(board, s0, 1) == Some(2007)
        && fills(board, s1, 3) == Some(0)
        && fills(board, s0, 4) == Some(0)
}

/// Whether the carried ranks stand at the front of receipt 0, and each rank has the outcome of one thread.
fn has_all(alloc: Global, closed: &Closed) -> bool
    requires { vec_len closed.now.receipts ≡ 2 }
{
    closed.receipts[0].as_slice() == [0u32, 2, 1, 4].as_slice()
        && closed.receipts[1].as_slice() == [3u32].as_slice()
        && is_full(&closed.table)
        && agrees_with_one(alloc, closed)
}

fn ends_with_all(alloc: Global) -> Option<bool> {
    let (board, mut s0, mut s1) = resumed(alloc)?;
    if !fills_the_rest(&board, &mut s0, &mut s1) {
        return None;
    }
    Some(has_all(alloc, &close_two(alloc, board, s0, s1)?))
}

#[test]
fn a_board_that_goes_on(rt: HostRuntime) {
    assert!(rt; begins_where_it_was_closed(rt.alloc()) == Some(true));
    assert!(rt; ends_with_all(rt.alloc()) == Some(true));
}

/// Whether a look finds this outcome.
fn shows(board: &Frontier, seat: &mut LevelSeat, rank: u32, outcome: Outcome) -> bool
    requires seat { IsAsker board.now seat.old }
    requires rank { rank < cells (level_plan board.now) }
    ensures seat { IsAsker board.now seat.new }
{
    match board.look(seat, rank) {
        Look::Filled(found) => found == outcome,
        Look::Empty { word: _ } => false,
    }
}

/// Whether a seat finds the outcomes of the first and the last rank.
fn shows_both(board: &Frontier, seat: &mut LevelSeat) -> bool
    requires five { cells (level_plan board.now) ≡ 5 }
    requires seat { IsAsker board.now seat.old }
{
    shows(board, seat, 0, Outcome::Value(Frac::whole(1)))
        && shows(board, seat, 4, Outcome::Value(fraction(3, 8)))
}

/// Whether it finds nothing before a sweep, and these outcomes behind it.
fn finds_levels(board: &Frontier, filler: &mut FillSeat, seat: &mut LevelSeat) -> bool
    requires five { cells (level_plan board.now) ≡ 5 }
    requires filler { IsFiller board.now filler.old }
    requires seat { IsAsker board.now seat.old }
{
    let Look::Empty { word: 0 } = board.look(seat, 0) else {
        return false;
    };
    level_sweep(board, filler);
    shows_both(board, seat)
}

/// Whether the last of some seats does.
fn last_finds_levels(board: &Frontier, mut filler: FillSeat, mut seats: Vec<LevelSeat>) -> bool
    requires five { cells (level_plan board.now) ≡ 5 }
    requires filler { IsFiller board.now filler }
    requires seats { All (λ s. IsAsker board.now s × IsUnseen s) seats.items }
{
    let Some(mut seat) = seats.pop() else {
        return false;
    };
    finds_levels(board, &mut filler, &mut seat)
}

fn publishes_levels(alloc: Global) -> Option<bool> {
    let plan = five_cells(alloc)?;
    let Ok((board, filler, seats)) = Frontier::make(alloc, plan, 1) else {
        return None;
    };
    Some(last_finds_levels(&board, filler, seats))
}

#[test]
fn levels_by_the_count(rt: HostRuntime) {
    assert!(rt; publishes_levels(rt.alloc()) == Some(true));
}

/// Whether so many receipts were left, all empty.
fn are_empty(closed: &Closed, seats: u8) -> bool {
    let mut empty = closed.receipts.len() == usize::from(seats);
    for receipt in closed.receipts.iter() {
        empty = empty && receipt.len() == 0;
    }
    empty
}

/// How many ranks of a table have an outcome.
fn filled_in(table: &Table) -> u32 {
    let mut filled = 0u32;
    for rank in 0..table.len() {
        if table.outcome(rank).is_some() {
            filled = filled.wrapping_add(1);
        }
    }
    filled
}

fn is_full(table: &Table) -> bool {
    filled_in(table) == table.len()
}

/// Whether nothing is left of so many cells and so many seats.
fn is_bare(closed: &Closed, cells: u32, seats: u8) -> bool {
    closed.table.len() == cells && filled_in(&closed.table) == 0 && are_empty(closed, seats)
}

/// What is left of a board of a plan with so many seats, closed at once.
fn closed_at_once(alloc: Global, plan: Option<Plan>, seats: u8) -> Option<Closed>
    requires { (1 ≤ seats) × (seats ≤ 32) }
{
    let (board, crew) = Countdown::make(alloc, plan?, seats).ok()?;
    Some(board.close(crew))
}

/// Whether that is nothing of so many cells.
fn closes_bare(alloc: Global, plan: Option<Plan>, cells: u32, seats: u8) -> bool
    requires { (1 ≤ seats) × (seats ≤ 32) }
{
    match closed_at_once(alloc, plan, seats) {
        Some(closed) => is_bare(&closed, cells, seats),
        None => false,
    }
}

/// Whether that is so with one seat and with 32.
fn close_bare(alloc: Global) -> bool {
    closes_bare(alloc, no_cells(alloc), 0, 1)
        && closes_bare(alloc, no_cells(alloc), 0, 32)
        && closes_bare(alloc, five_cells(alloc), 5, 1)
        && closes_bare(alloc, five_cells(alloc), 5, 32)
}

#[test]
fn boards_that_nobody_filled(rt: HostRuntime) {
    assert!(rt; close_bare(rt.alloc()));
}

/// Claims and fills every rank that it finds at 0, for many rounds.
fn work(board: &Countdown, mut seat: CountSeat) -> CountSeat
    requires seat { IsSeatOf board.now seat }
    requires free { held_of seat ≡ None }
    ensures seat { IsSeatOf board.now result }
    ensures free { held_of result ≡ None }
    ensures number { number_of result ≡ number_of seat }
{
    for _ in 0..1000u32 {
        for rank in 0..board.plan().len() {
            fills(board, &mut seat, rank);
        }
    }
    seat
}

/// Whether an outcome is wanting, or this one.
fn is_none_or(outcome: Option<Outcome>, right: Option<Outcome>) -> bool {
    outcome.is_none() || outcome == right
}

/// Whether each outcome of a table is that of another, which is as long.
fn agrees(table: &Table, right: &Table) -> bool {
    if table.len() != right.len() {
        return false;
    }
    for rank in 0..right.len() {
        if !is_none_or(table.outcome(rank), right.outcome(rank)) {
            return false;
        }
    }
    true
}

/// Whether each outcome that a board left is that of one thread.
fn agrees_with_one(alloc: Global, closed: &Closed) -> bool {
    match one_thread(alloc, &closed.plan) {
        Ok(right) => agrees(&closed.table, &right),
        Err(_) => false,
    }
}

fn work_at_once<R: Threads>(rt: &R, alloc: Global) -> Option<bool> {
    let (board, s0, s1) = last_seats(alloc, 2)?;
    let (s0, s1) = join(rt, || work(&board, s0), || work(&board, s1));
    Some(agrees_with_one(alloc, &close_two(alloc, board, s0, s1)?))
}

#[test]
fn two_threads_agree_with_one(rt: HostRuntime) {
    assert!(rt; work_at_once(&rt, rt.alloc()) == Some(true));
}

/// Fills the rank that the seat holds.
fn finish(board: &Countdown, mut seat: CountSeat, rank: u32) -> CountSeat
    requires seat { IsSeatOf board.now seat }
    requires held { held_of seat ≡ Some rank }
    ensures seat { IsSeatOf board.now result }
    ensures free { held_of result ≡ None }
    ensures number { number_of result ≡ number_of seat }
{
    board.fill(&mut seat, rank, |_: u32| {});
    seat
}

/// Whether each of two seats finds what the other filled.
fn find_each_other(board: &Countdown, s0: &mut CountSeat, s1: &mut CountSeat) -> bool
    requires five { cells (plan_of board.now) ≡ 5 }
    requires first { IsSeatOf board.now s0.old }
    requires second { IsSeatOf board.now s1.old }
{
    finds(board, s0, 1, Outcome::Value(fraction(1, 8)))
        && finds(board, s1, 0, Outcome::Value(Frac::whole(1)))
}

/// Whether two seats take a rank each, which they then fill on two threads, and find each other's.
fn fill_on_threads<R: Threads>(rt: &R, alloc: Global) -> Option<bool> {
    let (board, mut s0, mut s1) = last_seats(alloc, 2)?;
    if !takes(&board, &mut s0, 0) || !takes(&board, &mut s1, 1) {
        return None;
    }
    let (mut s0, mut s1) = join(rt, || finish(&board, s0, 0), || finish(&board, s1, 1));
    Some(find_each_other(&board, &mut s0, &mut s1))
}

#[test]
fn seats_on_other_threads(rt: HostRuntime) {
    assert!(rt; fill_on_threads(&rt, rt.alloc()) == Some(true));
}

/// Whether the last of 32 seats fills a rank, and the one before it finds that.
fn last_fills(board: &Countdown, other: &mut CountSeat, last: &mut CountSeat) -> bool
    requires five { cells (plan_of board.now) ≡ 5 }
    requires other { IsSeatOf board.now other.old }
    requires last { IsSeatOf board.now last.old × (held_of last.old ≡ None) }
{
    last.number() == 31
        && fills(board, last, 0) == Some(1002)
        && last.done() == [0u32].as_slice()
        && other.done().len() == 0
        && finds(board, other, 0, Outcome::Value(Frac::whole(1)))
}

fn the_last_fills(alloc: Global) -> Option<bool> {
    let (board, mut other, mut last) = last_seats(alloc, 32)?;
    Some(last_fills(&board, &mut other, &mut last))
}

#[test]
fn the_last_of_many_seats(rt: HostRuntime) {
    assert!(rt; the_last_fills(rt.alloc()) == Some(true));
}
