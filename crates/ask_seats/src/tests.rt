ghost use Rattle.std.specs.Prelude.{ℕ, ◌≤◌, ◌<◌, false, length};
ghost use Rattle.airy_math.specs.Keys.{euler};
ghost use Rattle.cell_words.specs.LevelSeats.{IsAsker, IsFiller};
ghost use Rattle.ask_seats.specs.Asks.{FinishesOnce, Rises};

use crate::{Answer, Asker, Line, session};
use airy_index::{Key, Law, Shape};
use airy_io::{Failed, MemSink, Sink};
use amp_plan::Plan;
use amp_terms::{Table, one_thread};
use cell_words::{Cells, FillSeat, Frontier, LevelSeat, level_alone};
use fill_crew::{Gate, OpenGate, StopAfter, StopAt, StopWorker};
use frac128::Frac;
use sparse_tensor::{PutErr, Tensors};
use std::alloc::Global;
use std::sync::atomic::{AtomicU64, Ordering};
use std::thread::Threads;

/// The fraction num / den, or 0 where it is none.
fn fraction(num: i128, den: i128) -> Frac {
    Frac::new(num, den).unwrap_or(Frac::whole(0))
}

/// The tensors of Witten and Kontsevich with so many indices.
#[tactic(auto, unfolding(sparse_tensor::specs::Grades::IsSmallLaw))]
fn wk(alloc: Global, dim: u8) -> Option<Tensors>
    requires some { 0 < dim }
    requires most { dim ≤ 72 }
{
    let shape = Shape::Exact(Law { per_g: 3, per_n: 1 });
    let mut t = Tensors::empty(alloc, dim, shape, false).ok()?;
    put_wk(&mut t, dim).ok()?;
    Some(t)
}

fn put_wk(t: &mut Tensors, dim: u8) -> Result<(), PutErr>
    requires { dim ≤ 72 }
{
    t.put_a(0, 0, 0, Frac::whole(1))?;
    t.put_d(1, fraction(1, 8))?;
    for i in 0..dim {
        for j in 0..dim {
            put_with(t, i, j, dim)?;
        }
    }
    Ok(())
}

/// The entries of B whose first two indices are i and j, and those of C whose last two are.
fn put_with(t: &mut Tensors, i: u8, j: u8, dim: u8) -> Result<(), PutErr>
    requires i { i < 72 }
    requires j { j < 72 }
{
    if i + j >= 1 && i + j <= dim {
        t.put_b(i, j, i + j - 1, Frac::whole(2 * i64::from(j) + 1))?;
    }
    if i <= j && i + j + 2 < dim {
        t.put_c(i + j + 2, i, j, Frac::whole(1))?;
    }
    Ok(())
}

/// Their plan up to a bound.
fn wk_plan(alloc: Global, bound: u8) -> Option<Plan>
    requires { (1 ≤ bound) × (bound ≤ 3) }
{
    Plan::make(alloc, wk(alloc, bound + (bound + 1) / 2)?, bound).ok()
}

fn key(g: u8, idx: &[u8]) -> Key
    requires { (0 < length idx.now) × (length idx.now ≤ 26) × (0 < euler g (length idx.now)) }
{
    let Ok(key) = Key::of(g, idx) else {
        unreachable!()
    };
    key
}

/// A sink with room that fails at one call.
fn sink_of(alloc: Global, fail_at: u32) -> Option<MemSink> {
    let space = vec![in alloc; 0u8; 200].ok()?;
    let fail_at = vec![in alloc; fail_at].ok()?;
    Some(MemSink {
        space,
        taken: 0,
        fail_at,
        calls: 0,
        faults: 0,
    })
}

const NEVER: u32 = 1_000;

/// Whether a session writes this text into a sink that fails at one call, and ends well exactly where that call didn't come.
fn writes_into<R: Threads + Sync, G: Gate + Sync>(
    rt: &R,
    alloc: Global,
    plan: Plan,
    crew: u8,
    lines: &[Line],
    gate: &G,
    out: &mut MemSink,
    text: &[u8],
) -> bool
    requires crew { crew ≤ 16 }
    requires finish { FinishesOnce false lines.now }
    requires rises { Rises plan.bound lines.now }
{
    let ok = session(rt, alloc, plan, crew, lines, gate, out).is_ok();
    ok == (out.faults == 0) && &out.space[..out.taken] == text
}

fn writes<R: Threads + Sync, G: Gate + Sync>(
    rt: &R,
    alloc: Global,
    plan: Option<Plan>,
    crew: u8,
    lines: &[Line],
    gate: &G,
    fail_at: u32,
    text: &[u8],
) -> bool
    requires crew { crew ≤ 16 }
    requires finish { FinishesOnce false lines.now }
    requires rises { (X : ℕ) → Rises X lines.now }
{
    let Some(plan) = plan else {
        return false;
    };
    let Some(mut out) = sink_of(alloc, fail_at) else {
        return false;
    };
    writes_into(rt, alloc, plan, crew, lines, gate, &mut out, text)
}

/// An ask for the key 0,3 [0 0 0], `finish`, and another ask.
#[tactic(auto, unfolding(crate::specs::Asks::FinishesOnce, crate::specs::Asks::Rises, airy_math::specs::Keys::euler))]
fn around_finish(g: u8, idx: &[u8]) -> [Line; 3]
    requires { (0 < length idx.now) × (length idx.now ≤ 26) × (0 < euler g (length idx.now)) }
    ensures finish { FinishesOnce false result }
    ensures rises { (X : ℕ) → Rises X result }
{
    [
        Line::Ask(key(0, &[0, 0, 0])),
        Line::Finish,
        Line::Ask(key(g, idx)),
    ]
}

/// Whether nothing is filled before `finish` without workers, and by one whose gate lets it fill nothing.
#[tactic(auto, unfolding(airy_math::specs::Keys::euler))]
fn wait_for_finish<R: Threads + Sync>(rt: &R, alloc: Global) -> bool {
    let lines = around_finish(0, &[0, 0, 0]);
    let text = b"not yet\n1\n";
    let shut = StopAfter { cells: 0 };
    writes(
        rt,
        alloc,
        wk_plan(alloc, 1),
        0,
        &lines,
        &OpenGate,
        NEVER,
        text,
    ) && writes(rt, alloc, wk_plan(alloc, 1), 1, &lines, &shut, NEVER, text)
}

#[test]
fn alone_nothing_is_filled_before_finish(rt: HostRuntime) {
    assert!(rt; wait_for_finish(&rt, rt.alloc()));
}

/// `finish`, and then keys of the plan up to 3, of which only the first is planned.
#[tactic(auto, unfolding(crate::specs::Asks::FinishesOnce, crate::specs::Asks::Rises, airy_math::specs::Keys::euler))]
fn behind_finish() -> [Line; 5]
    ensures finish { FinishesOnce false result }
    ensures rises { (X : ℕ) → Rises X result }
{
    [
        Line::Finish,
        Line::Ask(key(0, &[1, 0, 0, 0])),
        Line::Ask(key(1, &[5])),
        Line::Ask(key(3, &[7])),
        Line::Ask(key(0, &[0, 0, 0, 0])),
    ]
}

const BEHIND_FINISH: &[u8] = b"3\nzero\nbeyond\nzero\n";

/// Whether so many workers, stopped after some cells, leave these replies.
fn writes_all<R: Threads + Sync>(rt: &R, alloc: Global, crew: u8) -> bool
    requires { crew ≤ 16 }
{
    let lines = behind_finish();
    for cells in [0u32, 1, 7] {
        let gate = StopAfter { cells };
        if !writes(
            rt,
            alloc,
            wk_plan(alloc, 3),
            crew,
            &lines,
            &gate,
            NEVER,
            BEHIND_FINISH,
        ) {
            return false;
        }
    }
    true
}

#[test]
fn every_crew_and_gate(rt: HostRuntime) {
    for crew in [0u8, 1, 2, 16] {
        assert!(rt; writes_all(&rt, rt.alloc(), crew));
    }
}

/// Whether a sink that fails at each call has a prefix of these replies.
fn cut_at_each_call<R: Threads + Sync>(rt: &R, alloc: Global) -> bool {
    let lines = behind_finish();
    for (call, text) in [
        (0u32, b"".as_slice()),
        (1, b"3\n".as_slice()),
        (2, b"3\nzero\n".as_slice()),
        (3, b"3\nzero\nbeyond\n".as_slice()),
        (4, BEHIND_FINISH),
    ] {
        if !writes(
            rt,
            alloc,
            wk_plan(alloc, 3),
            2,
            &lines,
            &OpenGate,
            call,
            text,
        ) {
            return false;
        }
    }
    true
}

#[test]
fn a_sink_that_fails_at_each_call(rt: HostRuntime) {
    assert!(rt; cut_at_each_call(&rt, rt.alloc()));
}

/// One index, `A = 2^126` and `B = 1`.
#[tactic(auto, unfolding(sparse_tensor::specs::Grades::IsSmallLaw))]
fn large(alloc: Global) -> Option<Tensors> {
    let mut t = Tensors::empty(alloc, 1, Shape::All, false).ok()?;
    t.put_a(0, 0, 0, fraction(1 << 126, 1)).ok()?;
    t.put_b(0, 0, 0, Frac::whole(1)).ok()?;
    Some(t)
}

fn large_plan(alloc: Global) -> Option<Plan> {
    Plan::make(alloc, large(alloc)?, 3).ok()
}

/// `finish`, and then keys of one index.
#[tactic(auto, unfolding(crate::specs::Asks::FinishesOnce, crate::specs::Asks::Rises, airy_math::specs::Keys::euler))]
fn behind_large_sums() -> [Line; 6]
    ensures finish { FinishesOnce false result }
    ensures rises { (X : ℕ) → Rises X result }
{
    [
        Line::Finish,
        Line::Ask(key(0, &[0, 0, 0])),
        Line::Ask(key(0, &[0, 0, 0, 0])),
        Line::Ask(key(0, &[0, 0, 0, 0, 0])),
        Line::Ask(key(1, &[0, 0, 0])),
        Line::Ask(key(0, &[0, 0, 1])),
    ]
}

const LARGE_SUMS: &[u8] =
    b"85070591730234615865843651857942052864\nover\nrests on 0,4 [0 0 0 0]\n0\nno such index\n";

fn writes_large_sums<R: Threads + Sync>(rt: &R, alloc: Global) -> bool {
    let lines = behind_large_sums();
    writes(
        rt,
        alloc,
        large_plan(alloc),
        2,
        &lines,
        &OpenGate,
        NEVER,
        LARGE_SUMS,
    )
}

#[test]
fn a_sum_that_leaves_the_range(rt: HostRuntime) {
    assert!(rt; writes_large_sums(&rt, rt.alloc()));
}

/// Whether a session that begins at this bound writes this text.
fn grows<R: Threads + Sync, G: Gate + Sync>(
    rt: &R,
    alloc: Global,
    plan: Option<Plan>,
    bound: u8,
    crew: u8,
    lines: &[Line],
    gate: &G,
    text: &[u8],
) -> bool
    requires crew { crew ≤ 16 }
    requires finish { FinishesOnce false lines.now }
    requires rises { Rises bound lines.now }
{
    let Some(plan) = plan else {
        return false;
    };
    let Some(mut out) = sink_of(alloc, NEVER) else {
        return false;
    };
    plan.bound() == bound && writes_into(rt, alloc, plan, crew, lines, gate, &mut out, text)
}

/// The plan of Witten and Kontsevich up to 1, over the indices that one up to 6 wants.
fn first_plan(alloc: Global) -> Option<Plan> {
    Plan::make(alloc, wk(alloc, 9)?, 1).ok()
}

/// A key of the second level is beyond the first, then not filled, then filled; a settled key stays so.
#[tactic(auto, unfolding(crate::specs::Asks::FinishesOnce, crate::specs::Asks::Rises, airy_math::specs::Keys::euler))]
fn around_growth() -> [Line; 7]
    ensures finish { FinishesOnce false result }
    ensures rises { Rises 1 result }
{
    [
        Line::Finish,
        Line::Ask(key(0, &[0, 0, 0, 1])),
        Line::Grow(2),
        Line::Ask(key(0, &[0, 0, 0])),
        Line::Ask(key(0, &[0, 0, 0, 1])),
        Line::Finish,
        Line::Ask(key(0, &[0, 0, 0, 1])),
    ]
}

#[test]
fn settled_keys_stay_so(rt: HostRuntime) {
    let text = b"beyond\ngrown to 2\n1\nnot yet\n3\n";
    assert!(rt;
        grows(
            &rt,
            rt.alloc(),
            first_plan(rt.alloc()),
            1,
            0,
            &around_growth(),
            &OpenGate,
            text
        )
    );
}

/// Five growths, with a `finish` in each part, and the last key with one or two indices of each level.
#[tactic(auto, unfolding(crate::specs::Asks::FinishesOnce, crate::specs::Asks::Rises, airy_math::specs::Keys::euler))]
fn five_growths() -> [Line; 17]
    ensures finish { FinishesOnce false result }
    ensures rises { Rises 1 result }
{
    [
        Line::Finish,
        Line::Ask(key(1, &[1])),
        Line::Grow(2),
        Line::Finish,
        Line::Ask(key(1, &[1, 1])),
        Line::Grow(3),
        Line::Finish,
        Line::Ask(key(2, &[4])),
        Line::Grow(4),
        Line::Finish,
        Line::Ask(key(2, &[0, 5])),
        Line::Grow(5),
        Line::Finish,
        Line::Ask(key(3, &[7])),
        Line::Grow(6),
        Line::Finish,
        Line::Ask(key(3, &[0, 8])),
    ]
}

const FIVE_GROWTHS: &[u8] =
    b"1/8\ngrown to 2\n3/8\ngrown to 3\n105/128\ngrown to 4\n1155/128\ngrown to 5\n25025/1024\ngrown to 6\n425425/1024\n";

fn grows_five<R: Threads + Sync, G: Gate + Sync>(rt: &R, alloc: Global, crew: u8, gate: &G) -> bool
    requires { crew ≤ 16 }
{
    let lines = five_growths();
    grows(
        rt,
        alloc,
        first_plan(alloc),
        1,
        crew,
        &lines,
        gate,
        FIVE_GROWTHS,
    )
}

/// Whether the replies are the same where each worker of each part stops after so many cells.
fn grows_when_stopped<R: Threads + Sync>(rt: &R, alloc: Global, crew: u8) -> bool
    requires { crew ≤ 16 }
{
    for cells in [0u32, 1, 7] {
        if !grows_five(rt, alloc, crew, &StopAfter { cells }) {
            return false;
        }
    }
    true
}

/// Whether they are so under every gate.
fn grows_under_gates<R: Threads + Sync>(rt: &R, alloc: Global, crew: u8) -> bool
    requires { crew ≤ 16 }
{
    grows_five(rt, alloc, crew, &OpenGate)
        && grows_five(rt, alloc, crew, &StopAt { rank: 0 })
        && grows_five(rt, alloc, crew, &StopAt { rank: 5 })
        && grows_five(rt, alloc, crew, &StopWorker { worker: 0 })
        && grows_when_stopped(rt, alloc, crew)
}

#[test]
fn growths_beside_every_crew_and_gate(rt: HostRuntime) {
    for crew in [0u8, 1, 8] {
        assert!(rt; grows_under_gates(&rt, rt.alloc(), crew));
    }
}

/// Whether two tables have the same outcomes.
fn is_same_table(one: &Table, other: &Table) -> bool {
    if one.len() != other.len() {
        return false;
    }
    for rank in 0..one.len() {
        if one.outcome(rank) != other.outcome(rank) {
            return false;
        }
    }
    true
}

/// Whether a session of the first of these lines ends with the table of one thread up to a bound.
fn ends_as_one_thread<R: Threads + Sync>(
    rt: &R,
    alloc: Global,
    lines: &[Line],
    end: usize,
    bound: u8,
) -> Option<bool>
    requires finish { FinishesOnce false lines.now }
    requires rises { Rises 1 lines.now }
    requires end { end ≤ length lines.now }
{
    let plan = first_plan(alloc)?;
    if plan.bound() != 1 {
        return None;
    }
    let mut out = sink_of(alloc, NEVER)?;
    let closed = session(rt, alloc, plan, 2, &lines[..end], &OpenGate, &mut out).ok()?;
    let one = one_thread(alloc, &closed.plan).ok()?;
    Some(closed.plan.bound() == bound && is_same_table(&closed.table, &one))
}

/// Whether each part of the five growths ends with the whole table up to its bound.
fn each_part_is_whole<R: Threads + Sync>(rt: &R, alloc: Global) -> bool {
    let lines = five_growths();
    ends_as_one_thread(rt, alloc, &lines, 2, 1) == Some(true)
        && ends_as_one_thread(rt, alloc, &lines, 5, 2) == Some(true)
        && ends_as_one_thread(rt, alloc, &lines, 8, 3) == Some(true)
        && ends_as_one_thread(rt, alloc, &lines, 11, 4) == Some(true)
        && ends_as_one_thread(rt, alloc, &lines, 14, 5) == Some(true)
        && ends_as_one_thread(rt, alloc, &lines, 17, 6) == Some(true)
}

#[test]
fn each_grown_table_is_that_of_one_thread(rt: HostRuntime) {
    assert!(rt; each_part_is_whole(&rt, rt.alloc()));
}

/// A growth that is refused, and asks at the old bound.
#[tactic(auto, unfolding(crate::specs::Asks::FinishesOnce, crate::specs::Asks::Rises, airy_math::specs::Keys::euler))]
fn refused_growth(bound: u8) -> [Line; 5]
    requires { (2 < bound) × (bound ≤ 24) }
    ensures finish { FinishesOnce false result }
    ensures low { Rises 1 result }
    ensures rises { Rises 2 result }
{
    [
        Line::Grow(bound),
        Line::Ask(key(1, &[0])),
        Line::Finish,
        Line::Ask(key(1, &[0])),
        Line::Ask(key(0, &[0, 0, 0, 0, 0])),
    ]
}

/// Thirty-two indices and no entries, up to 2: up to 3 there are too many keys.
#[tactic(auto, unfolding(sparse_tensor::specs::Grades::IsSmallLaw))]
fn wide_plan(alloc: Global) -> Option<Plan> {
    let t = Tensors::empty(alloc, 32, Shape::All, false).ok()?;
    Plan::make(alloc, t, 2).ok()
}

#[test]
fn growth_refused_by_cells(rt: HostRuntime) {
    let text = b"not grown: cells at level 3\nnot yet\n0\nbeyond\n";
    assert!(rt;
        grows(
            &rt,
            rt.alloc(),
            wide_plan(rt.alloc()),
            2,
            0,
            &refused_growth(3),
            &OpenGate,
            text
        )
    );
}

/// Each entry of B and of C is 1.
fn put_all(t: &mut Tensors) -> Result<(), PutErr> {
    for place in 0..1000u32 {
        let (i, j, k) = (
            (place / 100) as u8,
            (place / 10 % 10) as u8,
            (place % 10) as u8,
        );
        t.put_b(i, j, k, Frac::whole(1))?;
        if j <= k {
            t.put_c(i, j, k, Frac::whole(1))?;
        }
    }
    Ok(())
}

/// Ten indices with all entries of B and C, up to 1: up to 6 there are too many needs.
#[tactic(auto, unfolding(sparse_tensor::specs::Grades::IsSmallLaw))]
fn dense_plan(alloc: Global) -> Option<Plan> {
    let mut t = Tensors::empty(alloc, 10, Shape::All, false).ok()?;
    put_all(&mut t).ok()?;
    Plan::make(alloc, t, 1).ok()
}

#[test]
fn growth_refused_by_needs(rt: HostRuntime) {
    let text = b"not grown: needs at 1,5 [4 4 4 7 7]\nnot yet\n0\nbeyond\n";
    assert!(rt;
        grows(
            &rt,
            rt.alloc(),
            dense_plan(rt.alloc()),
            1,
            0,
            &refused_growth(6),
            &OpenGate,
            text
        )
    );
}

/// A plan without cells: one index, and a shape that covers no key.
#[tactic(auto, unfolding(sparse_tensor::specs::Grades::IsSmallLaw))]
fn bare_plan(alloc: Global) -> Option<Plan> {
    let shape = Shape::Exact(Law { per_g: 0, per_n: 1 });
    let t = Tensors::empty(alloc, 1, shape, false).ok()?;
    let plan = Plan::make(alloc, t, 2).ok()?;
    if plan.len() > 0 {
        return None;
    }
    Some(plan)
}

/// Whether each reply over it is `zero`, without workers and with two.
#[tactic(auto, unfolding(airy_math::specs::Keys::euler))]
fn writes_zeros<R: Threads + Sync>(rt: &R, alloc: Global) -> bool {
    let lines = around_finish(1, &[0]);
    let text = b"zero\nzero\n";
    writes(
        rt,
        alloc,
        bare_plan(alloc),
        0,
        &lines,
        &OpenGate,
        NEVER,
        text,
    ) && writes(
        rt,
        alloc,
        bare_plan(alloc),
        2,
        &lines,
        &OpenGate,
        NEVER,
        text,
    )
}

#[test]
fn a_plan_without_cells(rt: HostRuntime) {
    assert!(rt; writes_zeros(&rt, rt.alloc()));
}

/// Waits for so many turns at most until the flag is raised.
fn wait_for(flag: &AtomicU64) -> bool {
    for _ in 0..200_000_000u32 {
        if flag.load(Ordering::SeqCst) != 0 {
            return true;
        }
    }
    false
}

/// What a gate and a sink wait for.
#[derive(Drop)]
struct Flags {
    begun: AtomicU64,
    filled: AtomicU64,
    late: AtomicU64,
}

/// Holds the first cell until the sink's first write has begun.
#[derive(Drop)]
struct HeldGate<'a> {
    flags: &'a Flags,
}

impl Gate for HeldGate<'_> {
    fn before(&self, _worker: u8, done: u32, _rank: u32) -> bool {
        if done == 4 {
            self.flags.filled.store(1, Ordering::SeqCst);
        }
        if done == 0 && !wait_for(&self.flags.begun) {
            self.flags.late.store(1, Ordering::SeqCst);
        }
        true
    }
}

/// Holds its first write until the gate was asked with four cells filled.
#[derive(Drop)]
struct HeldSink<'a> {
    flags: &'a Flags,
    inner: MemSink,
}

impl Sink for HeldSink<'_> {
    ghost use Rattle.std.specs.Prelude.{Some, take};

    ghost state = { λ s. record { taken = Some (take s.inner.taken s.inner.space.items); faults = s.inner.faults } };

    fn write(&mut self, from: &[u8]) -> Result<usize, Failed> {
        self.flags.begun.store(1, Ordering::SeqCst);
        if !wait_for(&self.flags.filled) {
            self.flags.late.store(1, Ordering::SeqCst);
        }
        self.inner.write(from)
    }
}

/// How many lines are `not yet`.
fn unfilled_in(text: &[u8]) -> u32 {
    let mut count = 0u32;
    for byte in text {
        if *byte == b'n' {
            count = count.wrapping_add(1);
        }
    }
    count
}

/// A key, and then all keys of the plan up to 2.
#[tactic(auto, unfolding(crate::specs::Asks::FinishesOnce, crate::specs::Asks::Rises, airy_math::specs::Keys::euler))]
fn all_planned() -> [Line; 6]
    ensures finish { FinishesOnce false result }
    ensures rises { (X : ℕ) → Rises X result }
{
    [
        Line::Ask(key(0, &[0, 0, 0])),
        Line::Ask(key(0, &[0, 0, 0])),
        Line::Ask(key(1, &[1])),
        Line::Ask(key(0, &[0, 0, 0, 1])),
        Line::Ask(key(1, &[0, 2])),
        Line::Ask(key(1, &[1, 1])),
    ]
}

/// Whether the first reply is `not yet`, and one of the others at most.
fn is_while_filled(text: &[u8]) -> bool {
    let unfilled = unfilled_in(text);
    text.starts_with(b"not yet\n") && (unfilled == 1 || unfilled == 2)
}

/// Whether a session with one worker answers while the gate and the sink hold each other.
fn answers_while_filled<R: Threads + Sync>(
    rt: &R,
    alloc: Global,
    flags: &Flags,
    plan: Plan,
    out: &mut HeldSink<'_>,
) -> bool {
    let gate = HeldGate { flags };
    session(rt, alloc, plan, 1, &all_planned(), &gate, out).is_ok()
        && flags.late.load(Ordering::SeqCst) == 0
        && is_while_filled(&out.inner.space[..out.inner.taken])
}

fn is_asked_while_filled<R: Threads + Sync>(rt: &R, alloc: Global, flags: &Flags) -> Option<bool> {
    let plan = wk_plan(alloc, 2)?;
    let mut out = HeldSink {
        flags,
        inner: sink_of(alloc, NEVER)?,
    };
    Some(answers_while_filled(rt, alloc, flags, plan, &mut out))
}

#[test]
fn asked_while_filled(rt: HostRuntime) {
    let flags = Flags {
        begun: AtomicU64::new(0),
        filled: AtomicU64::new(0),
        late: AtomicU64::new(0),
    };
    assert!(rt; is_asked_while_filled(&rt, rt.alloc(), &flags) == Some(true));
}

/// Whether an answer has this line.
fn is_line(answer: &Answer, text: &[u8]) -> bool {
    answer.line().bytes() == text
}

/// Whether an asker is told a key of the first level, and not yet one of the second.
#[tactic(auto, unfolding(airy_math::specs::Keys::euler))]
fn is_told_the_first(asker: &mut Asker<'_, Frontier>) -> bool
    requires { IsAsker asker.old.board.now asker.old.seat }
{
    is_line(&asker.ask(&key(0, &[0, 0, 0])), b"1\n")
        && matches!(asker.ask(&key(1, &[1, 1])), Answer::NotYet { word: 1 })
}

/// Whether a key of the first level is answered behind that level's publication alone.
#[tactic(auto, unfolding(airy_math::specs::Keys::euler))]
fn answers_by_level(board: &Frontier, filler: &mut FillSeat, seat: LevelSeat) -> bool
    requires filler { IsFiller board.now filler.old }
    requires seat { IsAsker board.now seat }
{
    let mut asker = Asker::of(board, seat);
    let waits = matches!(asker.ask(&key(0, &[0, 0, 0])), Answer::NotYet { word: 0 });
    if filler.published() < board.plan().bound() {
        level_alone(board, filler);
    }
    let told = is_told_the_first(&mut asker);
    let _seat = asker.into_seat();
    waits && told
}

fn publishes_between_asks(alloc: Global) -> Option<bool> {
    let plan = wk_plan(alloc, 2)?;
    let Ok((board, mut filler, mut seats)) = Frontier::make(alloc, plan, 1) else {
        return None;
    };
    let Some(seat) = seats.pop() else {
        unreachable!()
    };
    Some(answers_by_level(&board, &mut filler, seat))
}

#[test]
fn a_level_published_between_two_asks(rt: HostRuntime) {
    assert!(rt; publishes_between_asks(rt.alloc()) == Some(true));
}
