// Sessions, part by part.
ghost use Rattle.std.specs.Prelude.{◌≡◌, ℕ, ◌+◌, ◌≤◌, true, false, IfOk, IfErr, OnOk, take, vec_len, List, Option};
ghost use Rattle.airy_io.specs.Causes.{Taking};
ghost use Rattle.amp_plan.specs.Plans.{Planning, tensors_of};
ghost use Rattle.amp_terms.specs.Tables.{full_table};
ghost use Rattle.cell_words.specs.Closings.{AreReceipts, receipts_in};
ghost use Rattle.cell_words.specs.Layout.{IsPartial};
ghost use Rattle.ask_seats.specs.Asks.{Fails, FinishesOnce, Rises, Spoken, ends_finished, session_of};
ghost use Rattle.ask_seats.specs.Sessions.{bound_behind};
ghost use Rattle.ask_seats.specs.Carrying.{KeepsCarried};
ghost use Rattle.ask_seats.specs.Talks.{GoesOn, IsLeft, Paused};

use crate::growth::reopen;
use crate::lines::{part_end, replies_to};
use crate::parts::{Rest, speak, talk};
use crate::replies::Pace;
use crate::{Line, SessionErr};
use airy_io::Sink;
use amp_plan::Plan;
use cell_words::{Closed, Countdown};
use fill_crew::Gate;
use std::alloc::Global;
use std::thread::Threads;

/// Answers the lines from a `grow` on, where there are any. The board of the part before is closed.
fn go_on<R: Threads + Sync, G: Gate + Sync, W: Sink>(
    rt: &R,
    alloc: Global,
    mut rest: Rest,
    crew: u8,
    lines: &[Line],
    mut at: usize,
    gate: &G,
    out: &mut W,
) -> Result<Closed, SessionErr>
    requires crew { crew ≤ 16 }
    requires left { IsLeft rest.closed crew (take at lines.now) }
    requires more { GoesOn rest.closed.plan.bound lines.now at }
    ensures left { IfOk result (λ c. IsLeft c crew lines.now) }
    ensures spoken { IfOk result (λ c. (q : Planning) (old : Option (List ℕ))
        → Paused q rest.closed.plan crew rest.finished rest.closed.table (take at lines.now) old (W.state out.old).taken
        → KeepsCarried q (take at lines.now) rest.closed
        → (c.plan.tensors ≡ q.tensors) × (c.plan.bound ≡ bound_behind (tensors_of q) q.bound lines.now)
        × Spoken (session_of q crew) q.bound lines.now old (W.state out.new).taken
        × KeepsCarried q lines.now c) }
    ensures steady { OnOk result ((W.state out.new).faults ≡ (W.state out.old).faults) }
    ensures fails { IfErr result (λ e. (q : Planning) (old : Taking) → Rises q.bound lines.now
        → Paused q rest.closed.plan crew rest.finished rest.closed.table (take at lines.now) old.taken (W.state out.old).taken
        → (W.state out.old).faults ≡ old.faults
        → Fails (session_of q crew) q.bound lines.now old (W.state out.new) e) }
{
    while at < lines.len() {
        let Line::Grow(bound) = &lines[at] else {
            unreachable!()
        };
        let Ok(opened) = reopen(alloc, rest.closed, *bound, crew) else {
            return Err(SessionErr::NoMemory {
                lines: replies_to(&lines[..at]),
            });
        };
        let pace = Pace {
            workers: crew,
            finished: rest.finished,
        };
        let next = at + 1 + part_end(&lines[at + 1..]);
        let part = &lines[at + 1..next];
        let Ok(spoken) = speak(rt, alloc, opened, gate, pace, part, out) else {
            return Err(SessionErr::WriteFault);
        };
        rest = spoken;
        at = next;
    }
    Ok(rest.closed)
}

/// Answers the lines of a session, part by part. Its parts are parted by the `grow` lines. In each part the lines before `finish` are
/// answered while so many workers fill the cells of the plan, each asking the gate before a cell, and those behind it when every cell is
/// filled. At a `grow` the plan is grown, where the greater one is within its limits, and the filled cells are carried over to a new board
/// with a new crew. Each line is written before the next is begun. The plan, the table and the receipts of the last board are handed
/// out, in which what was carried over stands before what seat number 0 filled.
pub fn session<R: Threads + Sync, G: Gate + Sync, W: Sink>(
    rt: &R,
    alloc: Global,
    plan: Plan,
    crew: u8,
    lines: &[Line],
    gate: &G,
    out: &mut W,
) -> Result<Closed, SessionErr>
    requires crew { crew ≤ 16 }
    requires finish { FinishesOnce false lines.now }
    requires rises { Rises plan.bound lines.now }
    ensures tensors { IfOk result (λ c. c.plan.tensors ≡ plan.tensors) }
    ensures bound { IfOk result (λ c. c.plan.bound ≡ bound_behind (tensors_of plan) plan.bound lines.now) }
    ensures table { IfOk result (λ c. IsPartial c.plan c.table) }
    ensures full { IfOk result (λ c. ends_finished false lines.now ≡ true → c.table ≡ full_table (tensors_of c.plan) c.plan.bound) }
    ensures many { IfOk result (λ c. vec_len c.receipts ≡ crew + 1) }
    ensures receipts { IfOk result (λ c. AreReceipts c.table (receipts_in c)) }
    ensures carried { IfOk result (KeepsCarried plan lines.now) }
    ensures spoken { OnOk result (Spoken (session_of plan crew) plan.bound lines.now (W.state out.old).taken (W.state out.new).taken) }
    ensures steady { OnOk result ((W.state out.new).faults ≡ (W.state out.old).faults) }
    ensures fails { IfErr result (Fails (session_of plan crew) plan.bound lines.now (W.state out.old) (W.state out.new)) }
{
    let Ok((board, seats)) = Countdown::make(alloc, plan, crew + 1) else {
        return Err(SessionErr::NoMemory { lines: 0 });
    };
    let pace = Pace {
        workers: crew,
        finished: None,
    };
    let at = part_end(lines);
    let Ok(rest) = talk(rt, alloc, board, seats, gate, pace, &lines[..at], out) else {
        return Err(SessionErr::WriteFault);
    };
    go_on(rt, alloc, rest, crew, lines, at, gate, out)
}
