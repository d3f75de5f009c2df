ghost use Rattle.std.specs.Prelude.{◌≡◌, ◌≤◌, ◌<◌, IfSome, Some, None, cond, length, vec_len};
ghost use Rattle.cell_words.specs.Layout.{cells};
ghost use Rattle.cell_words.specs.LevelSeats.{IsAsker, IsFiller};
ghost use Rattle.cell_words.specs.Seats.{plan_of, number_of, held_of, IsSeatOf};
ghost use Rattle.cell_words.specs.Deals.{AreAll};
ghost use Rattle.cell_words.specs.Resuming.{CanResume};
ghost use Rattle.fill_crew.specs.Crews.{IsIdle, IsBack, EachAt, PairsAt};

use crate::sweeps::fill_board;
use crate::{
    Gate, OpenGate, StopAfter, StopAt, StopWorker, fill_all, fill_beside, level_beside, sweep,
};
use airy_index::{Law, Shape};
use amp_plan::Plan;
use amp_terms::{Table, one_thread};
use cell_words::{Cells, Claim, Closed, CountSeat, Countdown, FillSeat, Frontier, LevelSeat, Look};
use frac128::Frac;
use sparse_tensor::{PutErr, Tensors};
use std::alloc::Global;
use std::sync::atomic::{AtomicU64, Ordering};
use std::thread;
use std::thread::Threads;

/// The fraction num / den, or 0 where it is none.
fn fraction(num: i128, den: i128) -> Frac {
    Frac::new(num, den).unwrap_or(Frac::whole(0))
}

/// The tensors of Witten and Kontsevich with so many indices: `A^0_00 = 1`, `B^i_jk = 2j + 1` where `i + j = k + 1`,
/// `C^i_jk = 1` where `i = j + k + 2`, `D^1 = 1/8`.
#[tactic(auto, unfolding(sparse_tensor::specs::Grades::IsSmallLaw))]
fn wk(alloc: Global, dim: u8) -> Option<Tensors>
    requires some { 0 < dim }
    requires most { dim ≤ 72 }
{
    let shape = Shape::Exact(Law { per_g: 3, per_n: 1 });
    let mut t = Tensors::empty(alloc, dim, shape, false).ok()?;
    put_wk(&mut t, dim).ok()?;
    Some(t)
}

fn put_wk(t: &mut Tensors, dim: u8) -> Result<(), PutErr>
    requires { dim ≤ 72 }
{
    t.put_a(0, 0, 0, Frac::whole(1))?;
    t.put_d(1, fraction(1, 8))?;
    for i in 0..dim {
        for j in 0..dim {
            put_with(t, i, j, dim)?;
        }
    }
    Ok(())
}

/// The entries of B whose first two indices are i and j, and those of C whose last two are.
fn put_with(t: &mut Tensors, i: u8, j: u8, dim: u8) -> Result<(), PutErr>
    requires i { i < 72 }
    requires j { j < 72 }
{
    if i + j >= 1 && i + j <= dim {
        t.put_b(i, j, i + j - 1, Frac::whole(2 * i64::from(j) + 1))?;
    }
    if i <= j && i + j + 2 < dim {
        t.put_c(i + j + 2, i, j, Frac::whole(1))?;
    }
    Ok(())
}

/// Two copies of a structure of one dimension after a change of basis.
#[tactic(auto, unfolding(sparse_tensor::specs::Grades::IsSmallLaw))]
fn two_copies(alloc: Global) -> Option<Tensors> {
    let mut t = Tensors::empty(alloc, 2, Shape::All, false).ok()?;
    put_copies(&mut t).ok()?;
    Some(t)
}

fn put_copies(t: &mut Tensors) -> Result<(), PutErr> {
    put_copies_of_a(t)?;
    put_copies_of_b(t)?;
    put_copies_of_c(t)?;
    t.put_d(0, fraction(1, 8))?;
    t.put_d(1, fraction(1, 4))
}

fn put_copies_of_a(t: &mut Tensors) -> Result<(), PutErr> {
    for (i, j, k, v) in [
        (0u8, 0u8, 0u8, 1i64),
        (0, 0, 1, 1),
        (0, 1, 1, 1),
        (1, 0, 0, 1),
        (1, 0, 1, 1),
        (1, 1, 1, 2),
    ] {
        t.put_a(i, j, k, Frac::whole(v))?;
    }
    Ok(())
}

fn put_copies_of_b(t: &mut Tensors) -> Result<(), PutErr> {
    for (i, j, k, v) in [
        (0u8, 0u8, 0u8, 1i64),
        (0, 1, 0, 1),
        (1, 0, 0, 1),
        (1, 1, 1, 1),
    ] {
        t.put_b(i, j, k, Frac::whole(v))?;
    }
    Ok(())
}

fn put_copies_of_c(t: &mut Tensors) -> Result<(), PutErr> {
    for (i, j, k, v) in [
        (0u8, 0u8, 0u8, 1i64),
        (1, 0, 0, 2),
        (1, 0, 1, -1),
        (1, 1, 1, 1),
    ] {
        t.put_c(i, j, k, Frac::whole(v))?;
    }
    Ok(())
}

/// The plan of these tensors, where it has so many keys.
fn planned(alloc: Global, tensors: Tensors, bound: u8, keys: u32) -> Option<Plan>
    ensures { IfSome result (λ p. cells p ≡ keys) }
{
    let plan = Plan::make(alloc, tensors, bound).ok()?;
    if plan.len() != keys {
        return None;
    }
    Some(plan)
}

/// A board of these tensors' plan, which has so many keys, and its two seats.
fn board_of_two(
    alloc: Global,
    tensors: Tensors,
    bound: u8,
    keys: u32,
) -> Option<(Countdown, Vec<CountSeat>)>
    ensures all { IfSome result (λ t. AreAll t.0 t.1.items) }
    ensures two { IfSome result (λ t. vec_len t.1 ≡ 2) }
{
    Countdown::make(alloc, planned(alloc, tensors, bound, keys)?, 2).ok()
}

/// Waits for so many turns at most until the flag is raised.
fn wait_for(flag: &AtomicU64) -> bool {
    for _ in 0..200_000_000u32 {
        if flag.load(Ordering::SeqCst) != 0 {
            return true;
        }
    }
    false
}

fn is_raised(flag: &AtomicU64) -> bool {
    flag.load(Ordering::SeqCst) == 1
}

/// Two that meet: each raises its flag and waits for the other's.
#[derive(Drop)]
struct Pair {
    first: AtomicU64,
    second: AtomicU64,
    late: AtomicU64,
}

impl Pair {
    fn new() -> Pair {
        Pair {
            first: AtomicU64::new(0),
            second: AtomicU64::new(0),
            late: AtomicU64::new(0),
        }
    }

    fn meet(&self, is_first: bool) {
        let (own, other) = if is_first {
            (&self.first, &self.second)
        } else {
            (&self.second, &self.first)
        };
        own.store(1, Ordering::SeqCst);
        if !wait_for(other) {
            self.late.store(1, Ordering::SeqCst);
        }
    }

    /// Whether both came, and neither waited in vain.
    fn met(&self) -> bool {
        is_raised(&self.first) && is_raised(&self.second) && !is_raised(&self.late)
    }
}

/// Holds each of two workers at its first cell until the other was asked, too.
impl Gate for Pair {
    fn before(&self, worker: u8, _done: u32, _rank: u32) -> bool {
        self.meet(worker == 0);
        true
    }
}

/// Whether a crew of two runs beside one call, and the gate asked both workers, each while it held the other.
fn asks_two_at_once<R: Threads + Sync>(
    rt: &R,
    alloc: Global,
    board: &Countdown,
    seats: Vec<CountSeat>,
    gate: &Pair,
) -> bool
    requires seats { EachAt (IsIdle board.now) seats.items }
    requires two { vec_len seats ≡ 2 }
{
    let mut calls = 0u32;
    let (seats, ()) = fill_beside(
        rt,
        alloc,
        board,
        seats,
        gate,
        &mut || {
            calls = calls.wrapping_add(1);
        },
    );
    calls == 1 && seats.len() == 2 && gate.met()
}

fn two_work_at_once<R: Threads + Sync>(rt: &R, alloc: Global) -> Option<bool> {
    let (board, seats) = board_of_two(alloc, wk(alloc, 3)?, 1, 2)?;
    Some(asks_two_at_once(rt, alloc, &board, seats, &Pair::new()))
}

#[test]
fn two_workers_at_once(rt: HostRuntime) {
    assert!(rt; two_work_at_once(&rt, rt.alloc()) == Some(true));
}

/// Holds worker 0 at its first cell until worker 1 was asked with three cells filled.
#[derive(Drop)]
struct Held {
    taken: AtomicU64,
    late: AtomicU64,
}

impl Gate for Held {
    fn before(&self, worker: u8, done: u32, _rank: u32) -> bool {
        if worker == 1 && done == 3 {
            self.taken.store(1, Ordering::SeqCst);
        }
        if worker == 0 && done == 0 && !wait_for(&self.taken) {
            self.late.store(1, Ordering::SeqCst);
        }
        true
    }
}

/// Whether worker 1 fills at least four cells while the gate holds worker 0.
fn takes_four<R: Threads + Sync>(
    rt: &R,
    alloc: Global,
    board: &Countdown,
    seats: Vec<CountSeat>,
    gate: &Held,
) -> bool
    requires seats { EachAt (IsIdle board.now) seats.items }
    requires two { vec_len seats ≡ 2 }
{
    let (seats, ()) = fill_beside(rt, alloc, board, seats, gate, &mut || {});
    seats[1].done().len() >= 4 && is_raised(&gate.taken) && !is_raised(&gate.late)
}

fn takes_anothers<R: Threads + Sync>(rt: &R, alloc: Global) -> Option<bool> {
    let (board, seats) = board_of_two(alloc, two_copies(alloc)?, 1, 6)?;
    let gate = Held {
        taken: AtomicU64::new(0),
        late: AtomicU64::new(0),
    };
    Some(takes_four(rt, alloc, &board, seats, &gate))
}

#[test]
fn one_takes_anothers(rt: HostRuntime) {
    assert!(rt; takes_anothers(&rt, rt.alloc()) == Some(true));
}

/// How often a rank stands in a receipt.
fn times_in(receipt: &[u32], rank: u32) -> usize {
    let mut times = 0usize;
    for filled in receipt {
        if *filled == rank {
            times = times.wrapping_add(1);
        }
    }
    times
}

/// Whether a rank stands once in all receipts.
fn stands_once(closed: &Closed, rank: u32) -> bool {
    let mut times = 0usize;
    for receipt in closed.receipts.iter() {
        times = times.wrapping_add(times_in(receipt.as_slice(), rank));
    }
    times == 1
}

/// How many ranks stand in all receipts.
fn filled_in(closed: &Closed) -> usize {
    let mut filled = 0usize;
    for receipt in closed.receipts.iter() {
        filled = filled.wrapping_add(receipt.len());
    }
    filled
}

/// Whether the table of a closed board is this one, each rank stands once in the receipts, and nothing else does.
fn is_filled_as(closed: &Closed, one: &Table) -> bool {
    let len = closed.plan.len();
    if closed.table.len() != len || one.len() != len || filled_in(closed) != len as usize {
        return false;
    }
    for rank in 0..len {
        if closed.table.outcome(rank) != one.outcome(rank) || !stands_once(closed, rank) {
            return false;
        }
    }
    true
}

/// Whether a closed board is as one thread fills it.
fn is_filled(alloc: Global, closed: &Closed) -> Option<bool> {
    Some(is_filled_as(closed, &one_thread(alloc, &closed.plan).ok()?))
}

/// Whether a crew with a gate fills the two copies up to 3 as one thread does.
fn fills<R: Threads + Sync, G: Gate + Sync>(
    rt: &R,
    alloc: Global,
    crew: u8,
    gate: &G,
) -> Option<bool>
    requires { crew ≤ 16 }
{
    let plan = planned(alloc, two_copies(alloc)?, 3, 26)?;
    is_filled(alloc, &fill_all(rt, alloc, plan, crew, gate).ok()?)
}

fn fills_all<R: Threads + Sync, G: Gate + Sync>(rt: &R, alloc: Global, crew: u8, gate: &G) -> bool
    requires { crew ≤ 16 }
{
    fills(rt, alloc, crew, gate) == Some(true)
}

/// The same with each gate that lets every worker fill so many cells.
fn stop_after<R: Threads + Sync>(rt: &R, alloc: Global, crew: u8) -> bool
    requires { crew ≤ 16 }
{
    for cells in [0u32, 1, 7] {
        if !fills_all(rt, alloc, crew, &StopAfter { cells }) {
            return false;
        }
    }
    true
}

/// The same with each gate that stops workers at a rank.
fn stop_at<R: Threads + Sync>(rt: &R, alloc: Global, crew: u8) -> bool
    requires { crew ≤ 16 }
{
    for rank in [0u32, 5] {
        if !fills_all(rt, alloc, crew, &StopAt { rank }) {
            return false;
        }
    }
    true
}

/// The same with every gate.
fn every_gate<R: Threads + Sync>(rt: &R, alloc: Global, crew: u8) -> bool
    requires { crew ≤ 16 }
{
    fills_all(rt, alloc, crew, &OpenGate)
        && fills_all(rt, alloc, crew, &StopWorker { worker: 0 })
        && stop_after(rt, alloc, crew)
        && stop_at(rt, alloc, crew)
}

#[test]
fn every_crew_and_gate(rt: HostRuntime) {
    for crew in [0u8, 1, 2, 4, 16] {
        assert!(rt; every_gate(&rt, rt.alloc(), crew));
    }
}

/// The two copies' board up to 3, closed when one worker has filled so many cells.
fn stopped<R: Threads + Sync>(rt: &R, alloc: Global, cells: u32) -> Option<Closed>
    ensures { IfSome result (λ c. CanResume c.plan c.table) }
{
    let plan = planned(alloc, two_copies(alloc)?, 3, 26)?;
    let Ok((board, seats)) = Countdown::make(alloc, plan, 1) else {
        return None;
    };
    let gate = StopAfter { cells };
    let (seats, ()) = fill_beside(rt, alloc, &board, seats, &gate, &mut || {});
    Some(board.close(seats))
}

/// A board that goes on from there with so many workers, swept and closed.
fn go_on<R: Threads + Sync>(rt: &R, alloc: Global, closed: Closed, crew: u8) -> Option<Closed>
    requires can { CanResume closed.plan closed.table }
    requires few { crew ≤ 16 }
{
    let Closed {
        plan,
        table,
        receipts: _,
    } = closed;
    let Ok((board, seats)) = Countdown::resume(alloc, plan, table, crew + 1) else {
        return None;
    };
    Some(fill_board(rt, alloc, board, seats, &OpenGate))
}

/// The ranks that have an outcome, ascending.
fn filled_ranks(alloc: Global, table: &Table) -> Option<Vec<u32>> {
    let mut ranks = Vec::new(alloc);
    for rank in 0..table.len() {
        if table.outcome(rank).is_some() {
            ranks.push(rank).ok()?;
        }
    }
    Some(ranks)
}

/// Whether the first receipts are these, and the whole is as one thread fills it.
fn is_carried_on(alloc: Global, closed: &Closed, carried: &[u32]) -> Option<bool> {
    let first = closed.receipts.first()?;
    Some(first.starts_with(carried) && is_filled(alloc, closed)?)
}

/// Whether a board that one worker left with so many cells is filled by a crew behind what was carried.
fn resumes<R: Threads + Sync>(rt: &R, alloc: Global, cells: u32, crew: u8) -> Option<bool>
    requires { crew ≤ 16 }
{
    let closed = stopped(rt, alloc, cells)?;
    let carried = filled_ranks(alloc, &closed.table)?;
    let many = carried.len() == cells as usize;
    let closed = go_on(rt, alloc, closed, crew)?;
    Some(many && is_carried_on(alloc, &closed, carried.as_slice())?)
}

fn resumes_at_each<R: Threads + Sync>(rt: &R, alloc: Global, crew: u8) -> bool
    requires { crew ≤ 16 }
{
    for cells in [0u32, 1, 7, 26] {
        if resumes(rt, alloc, cells, crew) != Some(true) {
            return false;
        }
    }
    true
}

#[test]
fn boards_that_go_on(rt: HostRuntime) {
    for crew in [0u8, 1, 4] {
        assert!(rt; resumes_at_each(&rt, rt.alloc(), crew));
    }
}

/// Claims a rank. Whether that was granted.
fn takes(board: &Countdown, seat: &mut CountSeat, rank: u32) -> bool
    requires seat { IsIdle board.now seat.old }
    requires rank { rank < cells (plan_of board.now) }
    ensures seat { IsSeatOf board.now seat.new }
    ensures held { held_of seat.new ≡ cond result (Some rank) None }
    ensures number { number_of seat.new ≡ number_of seat.old }
{
    matches!(board.claim(seat, rank), Claim::Mine)
}

/// Claims a rank and fills it where that was granted.
fn fill_if_free(board: &Countdown, seat: &mut CountSeat, rank: u32)
    requires seat { IsIdle board.now seat.old }
    requires rank { rank < cells (plan_of board.now) }
    ensures seat { IsIdle board.now seat.new }
    ensures number { number_of seat.new ≡ number_of seat.old }
{
    if takes(board, seat, rank) {
        board.fill(seat, rank, |_: u32| {});
    }
}

/// A caller's pass over all ranks, in plan order or in its reverse.
fn pass(board: &Countdown, seat: &mut CountSeat, is_first: bool)
    requires { IsIdle board.now seat.old }
    ensures { IsBack board.now seat.old seat.new }
{
    let len = board.plan().len();
    for k in 0..len {
        let rank = if is_first { k } else { len - 1 - k };
        fill_if_free(board, seat, rank);
    }
}

/// The passes of the callers, each in a thread of its own: the first in plan order, the other in its reverse.
fn pass_at_once<R: Threads + Sync>(rt: &R, board: &Countdown, seats: &mut [CountSeat], start: &Pair)
    requires { EachAt (IsIdle board.now) seats.old }
    ensures len { length seats.new ≡ length seats.old }
    ensures back { PairsAt (IsBack board.now) seats.old seats.new }
{
    thread::for_each_mut(
        rt,
        seats,
        2,
        &|at, seat| {
            start.meet(at == 0);
            pass(board, seat, at == 0)
        },
    );
}

/// The passes, and a sweep behind them.
fn pass_and_sweep<R: Threads + Sync>(
    rt: &R,
    board: &Countdown,
    seats: &mut [CountSeat],
    start: &Pair,
)
    requires seats { AreAll board.now seats.old }
    ensures all { AreAll board.now seats.new }
    ensures len { length seats.new ≡ length seats.old }
{
    pass_at_once(rt, board, seats, start);
    sweep(board, seats);
}

/// Closes a board behind that.
fn close_passed<R: Threads + Sync>(
    rt: &R,
    board: Countdown,
    mut seats: Vec<CountSeat>,
    start: &Pair,
) -> Closed
    requires { AreAll board seats.items }
{
    pass_and_sweep(rt, &board, seats.as_mut_slice(), start);
    board.close(seats)
}

/// Whether two callers who begin together leave the table of one thread, and receipts with each rank once.
fn fill_in_opposite_orders<R: Threads + Sync>(rt: &R, alloc: Global) -> Option<bool> {
    let (board, seats) = board_of_two(alloc, wk(alloc, 9)?, 6, 76)?;
    let start = Pair::new();
    let filled = is_filled(alloc, &close_passed(rt, board, seats, &start))?;
    Some(filled && start.met())
}

#[test]
fn two_callers_in_opposite_orders(rt: HostRuntime) {
    for _ in 0..16u8 {
        assert!(rt; fill_in_opposite_orders(&rt, rt.alloc()) == Some(true));
    }
}

/// Looks at a cell until it is filled, for so many turns at most.
fn sees<B: Cells>(board: &B, seat: &mut B::Seat, rank: u32) -> bool
    requires seat { B.IsSeat board.now seat.old }
    requires rank { rank < cells (B.plan_of board.now) }
{
    for _ in 0..200_000_000u32 {
        if let Look::Filled(_) = board.look(seat, rank) {
            return true;
        }
    }
    false
}

/// Whether a look beside a crew of one finds rank 0 filled, and the crew publishes both levels.
fn sees_a_level<R: Threads + Sync>(
    rt: &R,
    alloc: Global,
    board: &Frontier,
    filler: FillSeat,
    seat: &mut LevelSeat,
) -> bool
    requires filler { IsFiller board.now filler }
    requires seat { IsAsker board.now seat.old }
    requires some { 0 < cells board.now.plan }
{
    let (filler, seen) = level_beside(
        rt,
        alloc,
        board,
        filler,
        1,
        &mut ||
            requires { IsAsker board.now seat.now × (0 < cells board.now.plan) }
        { sees(board, seat, 0) },
    );
    seen && filler.published() == 2
}

fn a_level_is_seen<R: Threads + Sync>(rt: &R, alloc: Global) -> Option<bool> {
    let plan = planned(alloc, wk(alloc, 3)?, 2, 5)?;
    let Ok((board, filler, mut seats)) = Frontier::make(alloc, plan, 1) else {
        return None;
    };
    let Some(mut seat) = seats.pop() else {
        return None;
    };
    Some(sees_a_level(rt, alloc, &board, filler, &mut seat))
}

#[test]
fn a_level_is_seen_while_others_are_filled(rt: HostRuntime) {
    assert!(rt; a_level_is_seen(&rt, rt.alloc()) == Some(true));
}
