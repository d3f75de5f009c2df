// Workers that take ranks from deques, each with a seat.
ghost use Rattle.std.specs.Prelude.{◌≡◌, ℕ, ◌+◌, ◌<◌, ◌≤◌, length, map, slice_index_or, vec_len, vec_capacity, IfOk};
ghost use Rattle.std.specs.Thread.{IsSync};
ghost use Rattle.cell_words.specs.Layout.{cells};
ghost use Rattle.cell_words.specs.Seats.{plan_of};
ghost use Rattle.cell_words.specs.declared.countdown.CountSeat.{CountSeat as Seat};
ghost use Rattle.fill_crew.specs.Crews.{IsIdle, HasWorked, EachAt, PairsAt};
ghost use Rattle.fill_crew.specs.declared.crew.Member.{Member};

use crate::Gate;
use crate::deques::{Deque, Limit, Thief, find_in_time, give};
use cell_words::{Cells, Claim, CountSeat, Countdown};
use std::alloc::{AllocError, Global};
use std::marker::Brand;
use std::thread;
use std::thread::Threads;

/// One worker.
#[derive(Drop)]
struct Member<L: Limit> {
    number: u8,
    seat: CountSeat,
    ready: Deque<L>,
    // The place of its deque among all.
    at: usize,
}

/// A worker's run. What it makes ready goes to its own deque. It takes so many ranks at most.
fn work<L: Limit, G: Gate>(
    board: &Countdown,
    member: &mut Member<L>,
    thieves: &[Thief<L>],
    gate: &G,
    most: u32,
)
    requires seat { IsIdle board.now member.old.seat }
    requires limit { L.limit ≡ cells (plan_of board.now) }
    ensures back { HasWorked board.now member.old.seat member.new.seat }
{
    let mut done = 0u32;
    for _ in 0..most {
        let Some(rank) = find_in_time(&mut member.ready, member.at, thieves) else {
            return;
        };
        if !gate.before(member.number, done, rank) {
            return;
        }
        if let Claim::Mine = board.claim(&mut member.seat, rank) {
            let ready = &mut member.ready;
            board.fill(
                &mut member.seat,
                rank,
                |t: u32|
                    requires { t < L.limit }
                { give(ready, t) },
            );
            done += 1;
        }
    }
}

/// All workers, each in a thread of its own.
fn run<L: Limit + Send + Sync, R: Threads + Sync, G: Gate + Sync>(
    rt: &R,
    board: &Countdown,
    members: &mut [Member<L>],
    thieves: &[Thief<L>],
    gate: &G,
    most: u32,
)
    requires seats { EachAt (λ m. IsIdle board.now m.seat) members.old }
    requires limit { L.limit ≡ cells (plan_of board.now) }
    ensures len { length members.new ≡ length members.old }
    ensures back { PairsAt (λ m n. HasWorked board.now m.seat n.seat) members.old members.new }
{
    let threads = members.len();
    if threads == 0 {
        return;
    }
    thread::for_each_mut(
        rt,
        members,
        threads,
        &|_, member| { work(board, member, thieves, gate, most) },
    );
}

/// The crew's run next to a call of `beside`.
fn run_beside<L: Limit + Send + Sync, R: Threads + Sync, G: Gate + Sync, T, J: FnMut() -> T>(
    rt: &R,
    board: &Countdown,
    members: &mut [Member<L>],
    thieves: &[Thief<L>],
    gate: &G,
    beside: &mut J,
) -> T
    requires seats { EachAt (λ m. IsIdle board.now m.seat) members.old }
    requires limit { L.limit ≡ cells (plan_of board.now) }
    requires beside { J.pre beside.old }
    ensures len { length members.new ≡ length members.old }
    ensures back { PairsAt (λ m n. HasWorked board.now m.seat n.seat) members.old members.new }
    ensures beside { J.step beside.old result beside.new }
{
    let most = board.plan().len();
    let (_, answer) = thread::join_mut(
        rt,
        &mut ||
            requires { IsSync R.row × EachAt (λ m. IsIdle board.now m.seat) members.now × (L.limit ≡ cells (plan_of board.now)) }
            ensures len { length members.exit.now ≡ length members.entry.now }
            ensures back { PairsAt (λ m n. HasWorked board.entry.now m.seat n.seat) members.entry.now members.exit.now }
        { run(rt, board, members, thieves, gate, most) },
        beside,
    );
    answer
}

/// Room for a crew.
#[derive(Drop)]
struct Team<L: Limit> {
    deques: Vec<Deque<L>>,
    thieves: Vec<Thief<L>>,
    members: Vec<Member<L>>,
    back: Vec<CountSeat>,
}

impl<L: Limit> Team<L> {
    fn make(alloc: Global, crew: &Vec<CountSeat>) -> Result<Team<L>, AllocError>
        ensures deques { IfOk result (λ t. vec_len t.deques ≡ vec_len crew.now) }
        ensures members { IfOk result (λ t. (vec_len t.members ≡ 0) × (vec_len crew.now ≤ vec_capacity t.members)) }
        ensures back { IfOk result (λ t. (vec_len t.back ≡ 0) × (vec_capacity t.back ≡ vec_capacity crew.now)) }
    {
        let mut deques = Vec::with_capacity(alloc, crew.len())?;
        let mut thieves = Vec::with_capacity(alloc, crew.len())?;
        for _ in 0..crew.len() {
            let deque = Deque::<L>::lifo_as(alloc, 64)?;
            thieves.push(deque.stealer()?)?;
            deques.push(deque)?;
        }
        let members = Vec::with_capacity(alloc, crew.len())?;
        let back = Vec::with_capacity(alloc, crew.capacity())?;
        Ok(Team {
            deques,
            thieves,
            members,
            back,
        })
    }
}

/// Gives the ranks that are ready to the deques in turn, from the last on, which is the first worker's.
fn push_starts<L: Limit>(board: &Countdown, deques: &mut Vec<Deque<L>>)
    requires some { 0 < vec_len deques.old }
    requires limit { L.limit ≡ cells (plan_of board.now) }
    ensures { vec_len deques.new ≡ vec_len deques.old }
{
    let starts = board.ready_at_start();
    let mut at = deques.len();
    for i in 0..starts.len() {
        if at == 0 {
            at = deques.len();
        }
        at -= 1;
        give(&mut deques[at], starts[i]);
    }
}

/// Gives each seat a deque, the last first. There is room for all.
fn seated<L: Limit>(
    crew: Vec<CountSeat>,
    mut deques: Vec<Deque<L>>,
    mut members: Vec<Member<L>>,
) -> Vec<Member<L>>
    requires deques { vec_len deques ≡ vec_len crew }
    requires room { (vec_len members ≡ 0) × (vec_len crew ≤ vec_capacity members) }
    requires few { vec_len crew ≤ 16 }
    ensures { map (λ m. m.seat) result.items ≡ crew.items }
{
    let mut number = 0u8;
    for seat in crew {
        let Some(ready) = deques.pop() else {
            unreachable!()
        };
        let member = Member {
            number,
            seat,
            ready,
            at: deques.len(),
        };
        let Ok(()) = members.push(member) else {
            unreachable!()
        };
        number += 1;
    }
    members
}

/// The seats, in their order. There is room for all.
fn unseated<L: Limit>(members: Vec<Member<L>>, mut back: Vec<CountSeat>) -> Vec<CountSeat>
    requires { (vec_len members ≤ vec_capacity back) × (vec_len back ≡ 0) }
    ensures seats { result.items ≡ map (λ m. m.seat) members.items }
    ensures room { vec_capacity back ≤ vec_capacity result }
{
    for member in members {
        let Ok(()) = back.push(member.seat) else {
            unreachable!()
        };
    }
    back
}

fn crew_beside<L: Limit + Send + Sync, R: Threads + Sync, G: Gate + Sync, T, J: FnMut() -> T>(
    rt: &R,
    alloc: Global,
    board: &Countdown,
    crew: Vec<CountSeat>,
    gate: &G,
    beside: &mut J,
) -> (Vec<CountSeat>, T)
    requires seats { EachAt (IsIdle board.now) crew.items }
    requires few { vec_len crew ≤ 16 }
    requires limit { L.limit ≡ cells (plan_of board.now) }
    requires beside { J.pre beside.old }
    ensures len { vec_len result.0 ≡ vec_len crew }
    ensures room { vec_capacity crew ≤ vec_capacity result.0 }
    ensures back { PairsAt (HasWorked board.now) crew.items result.0.items }
    ensures beside { J.step beside.old result.1 beside.new }
{
    if crew.is_empty() {
        return (crew, beside());
    }
    let Ok(team) = Team::<L>::make(alloc, &crew) else {
        return (crew, beside());
    };
    let Team {
        mut deques,
        thieves,
        members,
        back,
    } = team;
    push_starts(board, &mut deques);
    let mut members = seated(crew, deques, members);
    let answer = run_beside(
        rt,
        board,
        members.as_mut_slice(),
        thieves.as_slice(),
        gate,
        beside,
    );
    (unseated(members, back), answer)
}

/// Fills cells by one worker for each seat, next to a call of `beside`. Without seats it only calls `beside`.
pub fn fill_beside<R: Threads + Sync, G: Gate + Sync, T, J: FnMut() -> T>(
    rt: &R,
    alloc: Global,
    board: &Countdown,
    crew: Vec<CountSeat>,
    gate: &G,
    beside: &mut J,
) -> (Vec<CountSeat>, T)
    requires seats { EachAt (IsIdle board.now) crew.items }
    requires few { vec_len crew ≤ 16 }
    requires beside { J.pre beside.old }
    ensures len { vec_len result.0 ≡ vec_len crew }
    ensures room { vec_capacity crew ≤ vec_capacity result.0 }
    ensures back { PairsAt (HasWorked board.now) crew.items result.0.items }
    ensures beside { J.step beside.old result.1 beside.new }
{
    crew_beside::<Brand, R, G, T, J>(rt, alloc, board, crew, gate, beside)
}
