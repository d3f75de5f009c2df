// One part of a session, between two `grow` lines.
ghost use Rattle.std.specs.Prelude.{◌≡◌, ℕ, ◌+◌, ◌<◌, ◌≤◌, ◌++◌, [], ◌∷◌, true, false, IfOk, OnOk, OnErr, Some};
ghost use Rattle.std.specs.Prelude.{length, vec_len, vec_capacity};
ghost use Rattle.airy_io.specs.Causes.{HasCause};
ghost use Rattle.amp_plan.specs.Needs.{has};
ghost use Rattle.amp_plan.specs.Plans.{tensors_of};
ghost use Rattle.amp_terms.specs.Tables.{full_table};
ghost use Rattle.cell_words.specs.Closings.{AreReceipts, receipts_in};
ghost use Rattle.cell_words.specs.Deals.{AreAll, receipts_of};
ghost use Rattle.cell_words.specs.Layout.{cells, IsPartial};
ghost use Rattle.cell_words.specs.Resuming.{CanResume};
ghost use Rattle.cell_words.specs.Seats.{plan_of, seats_of, carried_of, IsSeatOf, EachSeat, standing_of};
ghost use Rattle.fill_crew.specs.Crews.{IsIdle, HasWorked, EachAt, PairsAt};
ghost use Rattle.ask_seats.specs.Counts.{Knows};
ghost use Rattle.ask_seats.specs.Asks.{AreAsks, ends_finished};
ghost use Rattle.ask_seats.specs.Carrying.{Leads, LeavesFirst};
ghost use Rattle.ask_seats.specs.Talks.{AnyOf, Breaks, Carried, FallsSilent, IsPart, Speaks, Writes, growth_reply};

use crate::Line;
use crate::asker::Asker;
use crate::growth::Opened;
use crate::lines::finish_at;
use crate::replies::{Pace, answer_all};
use airy_io::{Failed, Sink, write_all};
use cell_words::{Cells, Closed, CountSeat, Countdown};
use fill_crew::{Gate, fill_beside, sweep};
use std::alloc::Global;
use std::thread::Threads;

/// A board that is closed behind a part, and the bound at the last `finish`.
#[derive(Drop)]
pub(crate) struct Rest {
    pub(crate) closed: Closed,
    pub(crate) finished: Option<u8>,
}

/// Answers lines that ask, while the crew fills.
fn answer_beside<R: Threads + Sync, G: Gate + Sync, W: Sink>(
    rt: &R,
    alloc: Global,
    board: &Countdown,
    crew: Vec<CountSeat>,
    gate: &G,
    asker: &mut Asker<'_, Countdown>,
    pace: Pace,
    lines: &[Line],
    out: &mut W,
) -> (Vec<CountSeat>, Result<(), Failed>)
    requires board { asker.old.board.now ≡ board.now }
    requires crew { EachAt (IsIdle board.now) crew.items }
    requires few { vec_len crew ≤ 16 }
    requires seat { IsIdle board.now asker.old.seat }
    requires asks { AreAsks lines.now }
    ensures len { vec_len result.0 ≡ vec_len crew }
    ensures room { vec_capacity crew ≤ vec_capacity result.0 }
    ensures back { PairsAt (HasWorked board.now) crew.items result.0.items }
    ensures board { asker.new.board ≡ asker.old.board }
    ensures seat { IsSeatOf board.now asker.new.seat }
    ensures standing { standing_of asker.new.seat ≡ standing_of asker.old.seat }
    ensures written { OnOk result.1 (Writes (plan_of board.now) pace.workers pace.finished pace.finished
        (Knows asker.old.seat) (Knows asker.new.seat) lines.now (W.state out.old).taken (W.state out.new).taken) }
    ensures cut { OnErr result.1 (Breaks (plan_of board.now) pace.workers pace.finished
        (Knows asker.old.seat) lines.now (W.state out.old).taken (W.state out.new).taken) }
    ensures cause { HasCause (W.state out.old).faults (W.state out.new).faults result.1 }
{
    fill_beside(
        rt,
        alloc,
        board,
        crew,
        gate,
        &mut ||
            requires { IsSeatOf asker.now.board.now asker.now.seat × AreAsks lines.now }
            ensures board { asker.exit.now.board ≡ asker.entry.now.board }
            ensures seat { IsSeatOf asker.exit.now.board.now asker.exit.now.seat }
            ensures standing { standing_of asker.exit.now.seat ≡ standing_of asker.entry.now.seat }
            ensures written { OnOk result (Writes (plan_of asker.entry.now.board.now) pace.workers pace.finished pace.finished
                (Knows asker.entry.now.seat) (Knows asker.exit.now.seat) lines.entry.now
                (W.state out.entry.now).taken (W.state out.exit.now).taken) }
            ensures cut { OnErr result (Breaks (plan_of asker.entry.now.board.now) pace.workers pace.finished
                (Knows asker.entry.now.seat) lines.entry.now
                (W.state out.entry.now).taken (W.state out.exit.now).taken) }
            ensures cause { HasCause (W.state out.entry.now).faults (W.state out.exit.now).faults result }
        { answer_all(asker, pace, lines, out) },
    )
}

/// Answers lines that ask, by a seat that knows every rank.
fn answer_known<W: Sink>(
    board: &Countdown,
    seat: CountSeat,
    pace: Pace,
    lines: &[Line],
    out: &mut W,
) -> (CountSeat, Result<(), Failed>)
    requires seat { IsSeatOf board.now seat }
    requires knows { (r : ℕ) → r < cells (plan_of board.now) → Knows seat r }
    requires asks { AreAsks lines.now }
    ensures seat { IsSeatOf board.now result.0 }
    ensures standing { standing_of result.0 ≡ standing_of seat }
    ensures written { OnOk result.1 (Writes (plan_of board.now) pace.workers pace.finished pace.finished
        (AnyOf (plan_of board.now)) (AnyOf (plan_of board.now)) lines.now (W.state out.old).taken (W.state out.new).taken) }
    ensures cut { OnErr result.1 (Breaks (plan_of board.now) pace.workers pace.finished
        (AnyOf (plan_of board.now)) lines.now (W.state out.old).taken (W.state out.new).taken) }
    ensures cause { HasCause (W.state out.old).faults (W.state out.new).faults result.1 }
{
    let mut asker = Asker::of(board, seat);
    let answered = answer_all(&mut asker, pace, lines, out);
    (asker.into_seat(), answered)
}

/// Fills every cell that is left, answers lines that ask, and closes the board. These are all its seats.
fn answer_behind<W: Sink>(
    board: Countdown,
    mut seats: Vec<CountSeat>,
    pace: Pace,
    lines: &[Line],
    out: &mut W,
) -> Result<Closed, Failed>
    requires seats { AreAll board seats.items }
    requires leads { Leads (carried_of board) seats.items }
    requires asks { AreAsks lines.now }
    ensures plan { IfOk result (λ c. c.plan ≡ plan_of board) }
    ensures table { IfOk result (λ c. c.table ≡ full_table (tensors_of (plan_of board)) (plan_of board).bound) }
    ensures resumes { IfOk result (λ c. CanResume (plan_of board) c.table) }
    ensures many { IfOk result (λ c. vec_len c.receipts ≡ seats_of board) }
    ensures receipts { IfOk result (λ c. AreReceipts c.table (receipts_in c)) }
    ensures first { IfOk result (LeavesFirst (carried_of board)) }
    ensures written { OnOk result (Writes (plan_of board) pace.workers pace.finished pace.finished
        (AnyOf (plan_of board)) (AnyOf (plan_of board)) lines.now (W.state out.old).taken (W.state out.new).taken) }
    ensures cut { OnErr result (Breaks (plan_of board) pace.workers pace.finished
        (AnyOf (plan_of board)) lines.now (W.state out.old).taken (W.state out.new).taken) }
    ensures cause { HasCause (W.state out.old).faults (W.state out.new).faults result }
{
    sweep(&board, seats.as_mut_slice());
    let Some(seat) = seats.pop() else {
        unreachable!()
    };
    let (seat, answered) = answer_known(&board, seat, pace, lines, out);
    let Ok(()) = seats.push(seat) else {
        unreachable!()
    };
    answered?;
    Ok(board.close(seats))
}

/// Answers the lines of a part, those before `finish` while the crew fills, and closes the board. These are all its seats; the last
/// one asks.
pub(crate) fn talk<R: Threads + Sync, G: Gate + Sync, W: Sink>(
    rt: &R,
    alloc: Global,
    board: Countdown,
    mut seats: Vec<CountSeat>,
    gate: &G,
    pace: Pace,
    lines: &[Line],
    out: &mut W,
) -> Result<Rest, Failed>
    requires seats { AreAll board seats.items }
    requires few { vec_len seats ≤ 17 }
    requires leads { Leads (carried_of board) seats.items }
    requires knows { EachSeat (λ s. (r : ℕ) → has r (carried_of board) ≡ true → Knows s r) seats.items }
    requires part { IsPart lines.now }
    ensures plan { IfOk result (λ t. t.closed.plan ≡ plan_of board) }
    ensures table { IfOk result (λ t. IsPartial (plan_of board) t.closed.table) }
    ensures full { IfOk result (λ t. ends_finished false lines.now ≡ true
        → t.closed.table ≡ full_table (tensors_of (plan_of board)) (plan_of board).bound) }
    ensures resumes { IfOk result (λ t. CanResume (plan_of board) t.closed.table) }
    ensures many { IfOk result (λ t. vec_len t.closed.receipts ≡ seats_of board) }
    ensures receipts { IfOk result (λ t. AreReceipts t.closed.table (receipts_in t.closed)) }
    ensures first { IfOk result (λ t. LeavesFirst (carried_of board) t.closed) }
    ensures written { IfOk result (λ t. Writes (plan_of board) pace.workers pace.finished t.finished
        (λ r. has r (carried_of board) ≡ true) (Carried t.closed.table) lines.now (W.state out.old).taken (W.state out.new).taken) }
    ensures cut { OnErr result (Breaks (plan_of board) pace.workers pace.finished
        (λ r. has r (carried_of board) ≡ true) lines.now (W.state out.old).taken (W.state out.new).taken) }
    ensures cause { HasCause (W.state out.old).faults (W.state out.new).faults result }
{
    let at = finish_at(lines);
    let Some(seat) = seats.pop() else {
        unreachable!()
    };
    let mut asker = Asker::of(&board, seat);
    let (mut seats, answered) = answer_beside(
        rt,
        alloc,
        &board,
        seats,
        gate,
        &mut asker,
        pace,
        &lines[..at],
        out,
    );
    let Ok(()) = seats.push(asker.into_seat()) else {
        unreachable!()
    };
    answered?;
    if at == lines.len() {
        return Ok(Rest {
            closed: board.close(seats),
            finished: pace.finished,
        });
    }
    let finished = Some(board.plan().bound());
    let pace = Pace {
        workers: pace.workers,
        finished,
    };
    let closed = answer_behind(board, seats, pace, &lines[at + 1..], out)?;
    Ok(Rest { closed, finished })
}

/// Writes the line of a `grow`, and answers the lines of the part behind it.
pub(crate) fn speak<R: Threads + Sync, G: Gate + Sync, W: Sink>(
    rt: &R,
    alloc: Global,
    opened: Opened,
    gate: &G,
    pace: Pace,
    lines: &[Line],
    out: &mut W,
) -> Result<Rest, Failed>
    requires seats { AreAll opened.board opened.seats.items }
    requires few { vec_len opened.seats ≤ 17 }
    requires leads { Leads (carried_of opened.board) opened.seats.items }
    requires knows { EachSeat (λ s. (r : ℕ) → has r (carried_of opened.board) ≡ true → Knows s r) opened.seats.items }
    requires part { IsPart lines.now }
    ensures plan { IfOk result (λ t. t.closed.plan ≡ plan_of opened.board) }
    ensures table { IfOk result (λ t. IsPartial (plan_of opened.board) t.closed.table) }
    ensures full { IfOk result (λ t. ends_finished false lines.now ≡ true
        → t.closed.table ≡ full_table (tensors_of (plan_of opened.board)) (plan_of opened.board).bound) }
    ensures resumes { IfOk result (λ t. CanResume (plan_of opened.board) t.closed.table) }
    ensures many { IfOk result (λ t. vec_len t.closed.receipts ≡ seats_of opened.board) }
    ensures receipts { IfOk result (λ t. AreReceipts t.closed.table (receipts_in t.closed)) }
    ensures first { IfOk result (λ t. LeavesFirst (carried_of opened.board) t.closed) }
    ensures spoken { IfOk result (λ t. Speaks (plan_of opened.board) pace.workers pace.finished t.finished
        (λ r. has r (carried_of opened.board) ≡ true) (Carried t.closed.table)
        (growth_reply opened.growth) lines.now (W.state out.old).taken (W.state out.new).taken) }
    ensures cut { OnErr result (FallsSilent (plan_of opened.board) pace.workers pace.finished
        (λ r. has r (carried_of opened.board) ≡ true) (growth_reply opened.growth) lines.now
        (W.state out.old).taken (W.state out.new).taken) }
    ensures cause { HasCause (W.state out.old).faults (W.state out.new).faults result }
{
    let Opened {
        board,
        seats,
        growth,
    } = opened;
    write_all(out, growth.line().bytes())?;
    talk(rt, alloc, board, seats, gate, pace, lines, out)
}
