ghost use Rattle.std.specs.Prelude.{◌≡◌, ◌≤◌, ◌<◌, length, true};
ghost use Rattle.airy_math.specs.Keys.{euler};
ghost use Rattle.cell_words.specs.Layout.{cells};
ghost use Rattle.cell_words.specs.Seats.{plan_of, IsSeatOf};
ghost use Rattle.fill_crew.specs.Crews.{IsIdle, EachAt};

use crate::{Bell, Told, ask_wait, fill_round};
use airy_index::{Key, Shape};
use amp_plan::Plan;
use amp_terms::{Table, one_thread};
use cell_words::{Cells, Claim, CountSeat, Countdown};
use frac128::Frac;
use named_families::wk;
use sparse_tensor::Tensors;
use std::alloc::Global;
use std::sync::Wait;
use std::sync::atomic::{AtomicU64, Ordering};
use std::thread;
use std::thread::Threads;

// ---- the bell

/// Whether the count goes from 2^64-1 to 0, and then to 1.
fn wraps<R: Wait>(rt: &R) -> bool {
    let bell = Bell::rung_before(u64::MAX);
    let before = bell.count(rt);
    bell.ring(rt);
    let at_0 = bell.wait_past(rt, u64::MAX);
    bell.ring(rt);
    before == u64::MAX && at_0 == 0 && bell.count(rt) == 1 && bell.wait_past(rt, 0) == 1
}

#[test]
fn the_count_wraps(rt: HostRuntime) {
    assert!(rt; Bell::new().count(&rt) == 0 && wraps(&rt));
}

// ---- plans and keys

/// The plan of Witten and Kontsevich up to a bound.
fn wk_plan(alloc: Global, bound: u8) -> Option<Plan>
    requires { (1 ≤ bound) × (bound ≤ 24) }
{
    Plan::make(alloc, wk(alloc, bound).ok()?, bound).ok()
}

fn key(g: u8, idx: &[u8]) -> Key
    requires { (0 < length idx.now) × (length idx.now ≤ 26) × (0 < euler g (length idx.now)) }
{
    let Ok(key) = Key::of(g, idx) else {
        unreachable!()
    };
    key
}

/// Whether a value without the letter was told, and which.
fn is_value(told: &Told, value: Option<Frac>) -> bool {
    let Told::Value(got, power) = told else {
        return false;
    };
    *power == 0 && value == Some(*got)
}

// ---- an ask before the fills

/// What two callers share: the bell of the board's fills, one that is rung before the ask, and how many of them did right.
#[derive(Drop)]
struct Meeting {
    filled: Bell,
    begun: Bell,
    right: AtomicU64,
}

/// Asks for the key of rank 2, when it has said so.
fn asks_early<R: Wait>(rt: &R, meeting: &Meeting, board: &Countdown, seat: &mut CountSeat) -> bool
    requires { IsIdle board.now seat.old }
{
    meeting.begun.ring(rt);
    let told = ask_wait(rt, &meeting.filled, board, seat, &rank_2());
    is_value(&told, Some(Frac::whole(3))) && seat.done().is_empty()
}

/// The key 0,4 [0 0 0 1].
#[tactic(auto, unfolding(airy_math::specs::Keys::euler))]
fn rank_2() -> Key {
    key(0, &[1, 0, 0, 0])
}

/// Fills ranks 0 and 2 and rings, a while after the other has begun.
fn fills_late<R: Wait>(rt: &R, meeting: &Meeting, board: &Countdown, seat: &mut CountSeat) -> bool
    requires seat { IsIdle board.now seat.old }
    requires cells { 2 < cells (plan_of board.now) }
{
    meeting.begun.wait_past(rt, 0);
    for _ in 0..10_000u32 {
        thread::yield_now();
    }
    let both = fills(board, seat, 0) && fills(board, seat, 2);
    meeting.filled.ring(rt);
    both
}

/// Claims a rank and fills it.
fn fills(board: &Countdown, seat: &mut CountSeat, rank: u32) -> bool
    requires seat { IsIdle board.now seat.old }
    requires rank { rank < cells (plan_of board.now) }
    ensures { result ≡ true → IsIdle board.now seat.new }
{
    let Claim::Mine = board.claim(seat, rank) else {
        return false;
    };
    board.fill(seat, rank, |_| {});
    true
}

fn takes_part<R: Wait>(
    rt: &R,
    meeting: &Meeting,
    board: &Countdown,
    at: usize,
    seat: &mut CountSeat,
)
    requires seat { IsIdle board.now seat.old }
    requires cells { 2 < cells (plan_of board.now) }
{
    let right = if at == 0 {
        asks_early(rt, meeting, board, seat)
    } else {
        fills_late(rt, meeting, board, seat)
    };
    if right {
        meeting.right.fetch_add(1, Ordering::SeqCst);
    }
}

fn meet<R: Threads + Wait + Sync>(rt: &R, board: &Countdown, seats: &mut [CountSeat]) -> bool
    requires seats { EachAt (IsIdle board.now) seats.old }
    requires cells { 2 < cells (plan_of board.now) }
{
    let meeting = Meeting {
        filled: Bell::new(),
        begun: Bell::new(),
        right: AtomicU64::new(0),
    };
    thread::for_each_mut(
        rt,
        seats,
        2,
        &|at, seat| { takes_part(rt, &meeting, board, at, seat) },
    );
    meeting.right.load(Ordering::SeqCst) == 2
}

fn ask_before_fills<R: Threads + Wait + Sync>(rt: &R, alloc: Global) -> Option<bool> {
    let plan = wk_plan(alloc, 2)?;
    if plan.len() != 5 {
        return None;
    }
    let (board, mut seats) = Countdown::make(alloc, plan, 2).ok()?;
    Some(meet(rt, &board, seats.as_mut_slice()))
}

#[test]
fn an_ask_waits_for_its_fill(rt: HostRuntime) {
    assert!(rt; ask_before_fills(&rt, rt.alloc()) == Some(true));
}

// ---- the answers

/// Which of the answers it is.
fn kind(told: &Told) -> &'static str {
    match told {
        Told::Value(_, _) => "a value",
        Told::Zero => "zero",
        Told::Over => "over",
        Told::Blocked(first) if first.g() == 0 && first.idx() == [0, 0, 0, 0].as_slice() =>
            "rests on 0,4",
        Told::Blocked(_) => "rests on another",
        Told::Beyond => "beyond",
        Told::BadIndex => "no such index",
    }
}

/// A key, and which answer it has.
type Row = (u8, &'static [u8], &'static str);

/// Whether each row's key has the row's answer.
fn are_told<R: Wait>(
    rt: &R,
    bell: &Bell,
    board: &Countdown,
    seat: &mut CountSeat,
    rows: &[Row],
) -> bool
    requires { IsSeatOf board.now seat.old }
{
    let mut right = true;
    for (g, idx, want) in rows {
        match Key::of(*g, idx) {
            Ok(key) => right &= kind(&ask_wait(rt, bell, board, seat, &key)) == *want,
            Err(_) => right = false,
        }
    }
    right
}

/// Fills all cells and asks, by one seat.
fn fills_and_asks<R: Wait>(
    rt: &R,
    board: &Countdown,
    seat: &mut CountSeat,
    rows: &[Row],
    right: &AtomicU64,
)
    requires { IsIdle board.now seat.old }
{
    let bell = Bell::new();
    fill_round(rt, &bell, board, seat);
    if are_told(rt, &bell, board, seat, rows) {
        right.fetch_add(1, Ordering::SeqCst);
    }
}

fn is_answered<R: Threads + Wait + Sync>(
    rt: &R,
    board: &Countdown,
    seats: &mut [CountSeat],
    rows: &[Row],
) -> bool
    requires { EachAt (IsIdle board.now) seats.old }
{
    let right = AtomicU64::new(0);
    thread::for_each_mut(
        rt,
        seats,
        1,
        &|_, seat| { fills_and_asks(rt, board, seat, rows, &right) },
    );
    right.load(Ordering::SeqCst) == 1
}

fn answers<R: Threads + Wait + Sync>(
    rt: &R,
    alloc: Global,
    plan: Option<Plan>,
    rows: &[Row],
) -> Option<bool> {
    let (board, mut seats) = Countdown::make(alloc, plan?, 1).ok()?;
    Some(is_answered(rt, &board, seats.as_mut_slice(), rows))
}

/// One index, `A = 2^126` and `B = 1`.
#[tactic(auto, unfolding(sparse_tensor::specs::Grades::IsSmallLaw))]
fn large(alloc: Global) -> Option<Tensors> {
    let mut t = Tensors::empty(alloc, 1, Shape::All, false).ok()?;
    t.put_a(0, 0, 0, Frac::new(1 << 126, 1).ok()?).ok()?;
    t.put_b(0, 0, 0, Frac::whole(1)).ok()?;
    Some(t)
}

fn large_plan(alloc: Global) -> Option<Plan> {
    Plan::make(alloc, large(alloc)?, 3).ok()
}

const OF_WK: [Row; 4] = [
    (0, &[1, 0, 0, 0], "a value"),
    (1, &[5], "zero"),
    (3, &[7], "beyond"),
    (0, &[0, 0, 0, 0], "zero"),
];

const OF_LARGE: [Row; 4] = [
    (0, &[0, 0, 0], "a value"),
    (0, &[0, 0, 0, 0], "over"),
    (0, &[0, 0, 0, 0, 0], "rests on 0,4"),
    (0, &[0, 0, 1], "no such index"),
];

#[test]
fn each_answer_is_told(rt: HostRuntime) {
    let of_wk = answers(&rt, rt.alloc(), wk_plan(rt.alloc(), 3), &OF_WK);
    let of_large = answers(&rt, rt.alloc(), large_plan(rt.alloc()), &OF_LARGE);
    assert!(rt; of_wk == Some(true) && of_large == Some(true));
}

// ---- many workers and callers

/// Whether each key of the plan is told as the table of one thread has it, from the last to the first or the other way.
fn asks_all<R: Wait>(
    rt: &R,
    bell: &Bell,
    board: &Countdown,
    table: &Table,
    backwards: bool,
    seat: &mut CountSeat,
) -> bool
    requires seat { IsSeatOf board.now seat.old }
    requires table { length table.now ≡ cells (plan_of board.now) }
{
    let plan = board.plan();
    let mut right = true;
    for at in 0..plan.len() {
        let rank = if backwards { plan.len() - 1 - at } else { at };
        let told = ask_wait(rt, bell, board, seat, &plan.key(rank));
        right &= is_value(&told, table.value(rank));
    }
    right
}

/// What a round's threads share: the bell, the table of one thread, and how many answered wrong.
#[derive(Drop)]
struct Round<'a> {
    bell: Bell,
    table: &'a Table,
    wrong: AtomicU64,
}

/// Of 16 seats the first 8 fill, and the others ask.
fn works_or_asks<R: Wait>(
    rt: &R,
    round: &Round<'_>,
    board: &Countdown,
    at: usize,
    seat: &mut CountSeat,
)
    requires seat { IsIdle board.now seat.old }
    requires table { length round.now.table.now ≡ cells (plan_of board.now) }
{
    if at < 8 {
        fill_round(rt, &round.bell, board, seat);
    } else if !asks_all(rt, &round.bell, board, round.table, at % 2 == 1, seat) {
        round.wrong.fetch_add(1, Ordering::SeqCst);
    }
}

/// The number of receipts.
fn receipts(seats: &[CountSeat]) -> usize {
    let mut many = 0usize;
    for seat in seats {
        many = many.wrapping_add(seat.done().len());
    }
    many
}

/// A round of all seats at once. Whether all answers were right, and each rank was filled once.
fn is_right<R: Threads + Wait + Sync>(
    rt: &R,
    board: &Countdown,
    table: &Table,
    seats: &mut [CountSeat],
) -> bool
    requires seats { EachAt (IsIdle board.now) seats.old }
    requires table { length table.now ≡ cells (plan_of board.now) }
{
    let round = Round {
        bell: Bell::new(),
        table,
        wrong: AtomicU64::new(0),
    };
    thread::for_each_mut(
        rt,
        seats,
        16,
        &|at, seat| { works_or_asks(rt, &round, board, at, seat) },
    );
    round.wrong.load(Ordering::SeqCst) == 0 && receipts(seats) == table.len() as usize
}

fn one_round<R: Threads + Wait + Sync>(rt: &R, alloc: Global) -> Option<bool> {
    let plan = wk_plan(alloc, 6)?;
    let table = one_thread(alloc, &plan).ok()?;
    let (board, mut seats) = Countdown::make(alloc, plan, 16).ok()?;
    Some(is_right(rt, &board, &table, seats.as_mut_slice()))
}

/// How many of so many rounds were right.
fn right_rounds<R: Threads + Wait + Sync>(rt: &R, alloc: Global, many: u32) -> u32 {
    let mut right = 0u32;
    for _ in 0..many {
        if one_round(rt, alloc) == Some(true) {
            right = right.wrapping_add(1);
        }
    }
    right
}

#[test]
fn a_thousand_rounds(rt: HostRuntime) {
    assert!(rt; right_rounds(&rt, rt.alloc(), 1_000) == 1_000);
}
