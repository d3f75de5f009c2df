// A session's `grow`.
ghost use Rattle.std.specs.Prelude.{◌≡◌, ℕ, ◌+◌, ◌<◌, ◌≤◌, ◌++◌, IfOk, length, true, vec_len};
ghost use Rattle.amp_plan.specs.Limits.{limit};
ghost use Rattle.amp_plan.specs.Needs.{has};
ghost use Rattle.amp_plan.specs.Plans.{tensors_of};
ghost use Rattle.cell_words.specs.Deals.{AreAll};
ghost use Rattle.cell_words.specs.Layout.{cells};
ghost use Rattle.cell_words.specs.Resuming.{CanResume, carried_in};
ghost use Rattle.cell_words.specs.Seats.{plan_of, seats_of, carried_of, EachSeat};
ghost use Rattle.ask_seats.specs.Counts.{Knows};
ghost use Rattle.ask_seats.specs.Replies.{line_text};
ghost use Rattle.ask_seats.specs.Sessions.{bound_after, growth};
ghost use Rattle.ask_seats.specs.Carrying.{Leads};
ghost use Rattle.ask_seats.specs.Talks.{growth_reply, up_to};

use airy_index::Key;
use airy_io::LineText;
use amp_plan::{GrowErr, Plan, PlanCause};
use cell_words::{Closed, CountSeat, Countdown, grown_tables};
use std::alloc::{AllocError, Global};

/// What a `grow` leads to.
#[derive(Drop)]
pub(crate) enum Growth {
    /// The bound is now this one.
    To(u8),
    /// The bound stays: there are too many keys, the first of these too many with this Euler number.
    Cells(u8),
    /// The bound stays: there are too many needs, from this key on.
    Needs(Key),
}

impl Growth {
    /// Its line.
    #[tactic(auto, unfolding(crate::specs::Replies::line_text, crate::specs::Replies::reply_text, crate::specs::Talks::growth_reply))]
    pub(crate) fn line(&self) -> LineText
        ensures { result ≡ line_text (growth_reply self.now) }
    {
        let mut line = LineText::new();
        match self {
            Growth::To(bound) => {
                line.put(b"grown to ");
                line.put_number(u32::from(*bound));
            }
            Growth::Cells(level) => {
                line.put(b"not grown: cells at level ");
                line.put_number(u32::from(*level));
            }
            Growth::Needs(key) => {
                let mut name = [0u8; 128];
                let end = key.write_into(&mut name);
                line.put(b"not grown: needs at ");
                line.put(&name[..end]);
            }
        }
        line.put(b"\n");
        line
    }
}

/// The plan up to a greater bound, or the same plan where that passes a limit.
#[tactic(auto, unfolding(crate::specs::Sessions::growth, crate::specs::Sessions::bound_after, crate::specs::Talks::growth_reply))]
fn grow(alloc: Global, plan: Plan, bound: u8) -> Result<(Plan, Growth), AllocError>
    requires above { plan.bound < bound }
    requires most { bound ≤ 24 }
    ensures plan { IfOk result (λ t. t.0 ≡ up_to (bound_after (limit (tensors_of plan) bound) plan.bound bound) plan) }
    ensures reply { IfOk result (λ t. growth_reply t.1 ≡ growth (limit (tensors_of plan) bound) bound) }
{
    let GrowErr { cause, plan } = match plan.grow(alloc, bound) {
        Ok(plan) => return Ok((plan, Growth::To(bound))),
        Err(refused) => refused,
    };
    match cause {
        PlanCause::Cells { level } => Ok((plan, Growth::Cells(level))),
        PlanCause::Edges { key } => Ok((plan, Growth::Needs(key))),
        PlanCause::NoMemory => Err(AllocError),
        PlanCause::Bound { got: _ } => unreachable!(),
    }
}

/// A board behind a `grow`, with its seats.
#[derive(Drop)]
pub(crate) struct Opened {
    pub(crate) board: Countdown,
    pub(crate) seats: Vec<CountSeat>,
    pub(crate) growth: Growth,
}

/// Grows the plan of a closed board, and resumes a board with its cells and so many workers.
pub(crate) fn reopen(
    alloc: Global,
    closed: Closed,
    bound: u8,
    workers: u8,
) -> Result<Opened, AllocError>
    requires workers { workers ≤ 16 }
    requires above { closed.plan.bound < bound }
    requires most { bound ≤ 24 }
    requires can { CanResume closed.plan closed.table }
    ensures plan { IfOk result (λ o. plan_of o.board
        ≡ up_to (bound_after (limit (tensors_of closed.plan) bound) closed.plan.bound bound) closed.plan) }
    ensures reply { IfOk result (λ o. growth_reply o.growth ≡ growth (limit (tensors_of closed.plan) bound) bound) }
    ensures many { IfOk result (λ o. seats_of o.board ≡ workers + 1) }
    ensures len { IfOk result (λ o. vec_len o.seats ≡ workers + 1) }
    ensures all { IfOk result (λ o. AreAll o.board o.seats.items) }
    ensures carried { IfOk result (λ o. carried_of o.board ≡ carried_in closed.table) }
    ensures leads { IfOk result (λ o. Leads (carried_of o.board) o.seats.items) }
    ensures knows { IfOk result (λ o. EachSeat (λ s. (r : ℕ) → has r (carried_of o.board) ≡ true → Knows s r) o.seats.items) }
{
    let Closed {
        plan,
        table,
        receipts: _,
    } = closed;
    let (plan, growth) = grow(alloc, plan, bound)?;
    grown_tables();
    let Ok((board, seats)) = Countdown::resume(alloc, plan, table, workers + 1) else {
        return Err(AllocError);
    };
    Ok(Opened {
        board,
        seats,
        growth,
    })
}
