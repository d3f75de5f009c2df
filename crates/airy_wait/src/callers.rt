// Callers who ask while workers fill.
ghost use Rattle.std.specs.Prelude.{◌≡◌, ◌+◌, ◌*◌, ◌<◌, ◌≤◌, List, length, vec_len, slice_get, IfOk, Some};
ghost use Rattle.std.specs.Thread.{IsSync};
ghost use Rattle.cell_words.specs.Seats.{plan_of};
ghost use Rattle.fill_crew.specs.Crews.{IsIdle, EachAt};
ghost use Rattle.airy_wait.specs.Asked.{keys_asked, IsJob};
ghost use Rattle.airy_wait.specs.Turns.{plan_replies, told_to, AreTold, AreTurns, IsFresh};
ghost use Rattle.airy_wait.specs.Waits.{told_reply};
ghost use Rattle.ask_seats.specs.Replies.{Reply};

use crate::words::{Job, read_ask};
use crate::{Bell, Told, ask_wait, fill_round};
use cell_words::{CountSeat, Countdown};
use std::alloc::{AllocError, Global};
use std::sync::Wait;
use std::thread;
use std::thread::Threads;

/// A caller: its seat, and what it was told, in the order of its asks.
#[derive(Drop)]
pub(crate) struct Caller {
    pub(crate) seat: CountSeat,
    pub(crate) told: Vec<Told>,
}

/// Takes the last seats for callers, each with room for so many replies.
pub(crate) fn callers_made(
    alloc: Global,
    board: &Countdown,
    seats: &mut Vec<CountSeat>,
    job: Job<'_>,
) -> Result<Vec<Caller>, AllocError>
    requires job { IsJob job }
    requires seats { EachAt (IsIdle board.now) seats.old.items }
    requires many { job.callers ≤ vec_len seats.old }
    ensures seats { EachAt (IsIdle board.now) seats.new.items }
    ensures many { IfOk result (λ v. vec_len v ≡ job.entry.callers) }
    ensures fresh { IfOk result (λ v. EachAt (IsFresh board.now (length job.entry.asks.now)) v.items) }
{
    let mut callers = Vec::with_capacity(alloc, job.callers as usize)?;
    for _ in 0..job.callers {
        let Some(seat) = seats.pop() else {
            unreachable!()
        };
        let told = Vec::with_capacity(alloc, job.asks.len())?;
        callers.push(Caller { seat, told })?;
    }
    Ok(callers)
}

/// Makes the asks of one caller: that of its place, and every one that is as many behind the last as there are callers.
fn ask_in_turn<R: Wait>(
    rt: &R,
    bell: &Bell,
    board: &Countdown,
    caller: &mut Caller,
    place: usize,
    job: Job<'_>,
)
    requires job { IsJob job }
    requires place { place < job.callers }
    requires fresh { IsFresh board.now (length job.asks.now) caller.old }
    ensures { AreTurns job.entry.callers place (plan_replies (plan_of board.now) (keys_asked job.entry))
        (told_to caller.new) }
{
    let mut at = place;
    while at < job.asks.len() {
        let Some(key) = read_ask(job.asks[at].as_str()) else {
            unreachable!()
        };
        let told = ask_wait(rt, bell, board, &mut caller.seat, &key);
        let Ok(()) = caller.told.push(told) else {
            unreachable!()
        };
        at += job.callers as usize;
    }
}

/// All workers, each in a thread of its own where one can be made. None waits for one that has not begun.
fn fill_all_rounds<R: Threads + Wait + Sync>(
    rt: &R,
    bell: &Bell,
    board: &Countdown,
    workers: &mut [CountSeat],
)
    requires { EachAt (IsIdle board.now) workers.old }
{
    let threads = workers.len();
    if threads == 0 {
        return;
    }
    thread::for_each_mut(
        rt,
        workers,
        threads,
        &|_, seat| { fill_round(rt, bell, board, seat) },
    );
}

/// All callers, each in a thread of its own where one can be made.
fn ask_all<R: Threads + Wait + Sync>(
    rt: &R,
    bell: &Bell,
    board: &Countdown,
    job: Job<'_>,
    callers: &mut [Caller],
)
    requires job { IsJob job }
    requires many { length callers.old ≡ job.callers }
    requires fresh { EachAt (IsFresh board.now (length job.asks.now)) callers.old }
    ensures told { AreTold (plan_replies (plan_of board.now) (keys_asked job.entry)) callers.new }
{
    let threads = callers.len();
    thread::for_each_mut(
        rt,
        callers,
        threads,
        &|place, caller| { ask_in_turn(rt, bell, board, caller, place, job) },
    );
}

/// The workers fill beside the callers, who ask. Where no thread can be made for the callers, they ask when the workers have returned.
pub(crate) fn fill_and_ask<R: Threads + Wait + Sync>(
    rt: &R,
    board: &Countdown,
    workers: &mut [CountSeat],
    job: Job<'_>,
    callers: &mut [Caller],
)
    requires idle { EachAt (IsIdle board.now) workers.old }
    requires job { IsJob job }
    requires many { length callers.old ≡ job.callers }
    requires fresh { EachAt (IsFresh board.now (length job.asks.now)) callers.old }
    ensures told { AreTold (plan_replies (plan_of board.now) (keys_asked job.entry)) callers.new }
{
    let bell = Bell::new();
    let bell = &bell;
    // `join_mut` calls the first closure last where it can make no thread: so the workers are the second.
    thread::join_mut(
        rt,
        &mut ||
            requires { IsSync R.row × IsJob job × (length callers.now ≡ job.callers)
                × EachAt (IsFresh board.now (length job.asks.now)) callers.now }
            ensures told { AreTold (plan_replies (plan_of board.entry.now) (keys_asked job.entry)) callers.exit.now }
        { ask_all(rt, bell, board, job, callers) },
        &mut ||
            requires { IsSync R.row × EachAt (IsIdle board.now) workers.now }
        { fill_all_rounds(rt, bell, board, workers) },
    );
}

/// What the ask of this number was told, from 0: the callers take turns.
pub(crate) fn told_at(callers: &[Caller], k: usize) -> &Told
    requires { (all : List Reply) × AreTold all callers.now × (k < length all) }
    ensures { (all : List Reply) → AreTold all callers.now → k < length all → slice_get all k ≡ Some (told_reply result.now) }
{
    &callers[k % callers.len()].told[k / callers.len()]
}
