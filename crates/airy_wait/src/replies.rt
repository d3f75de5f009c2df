// The lines of what the callers were told.
ghost use Rattle.std.specs.Prelude.{◌≡◌, List, length};
ghost use Rattle.airy_io.specs.Causes.{Writes};
ghost use Rattle.ask_seats.specs.Replies.{Reply, line_text, lines_text, reply_of};
ghost use Rattle.run_reports.specs.Report.{Ends};
ghost use Rattle.session_law.specs.Sessions.{answered};
ghost use Rattle.airy_wait.specs.Turns.{AreTold};
ghost use Rattle.airy_wait.specs.Waits.{told_reply};

use crate::Told;
use crate::callers::{Caller, told_at};
use airy_io::{Failed, Sink, write_all};
use ask_seats::Answer;

/// Writes the replies to so many asks, and answers 0, or 9 where the sink fails.
pub(crate) fn print_replies<W: Sink>(callers: &[Caller], count: usize, out: &mut W) -> u8
    requires { (all : List Reply) × AreTold all callers.now × (length all ≡ count) }
    ensures { (all : List Reply) → AreTold all callers.now → length all ≡ count
        → Ends (answered all) (W.state out.old) (W.state out.new) result }
{
    match write_replies(callers, count, out) {
        Ok(()) => 0,
        Err(_) => 9,
    }
}

/// Writes the lines of the replies to so many asks, in their order, each by one call where the sink takes it whole.
fn write_replies<W: Sink>(callers: &[Caller], count: usize, out: &mut W) -> Result<(), Failed>
    requires { (all : List Reply) × AreTold all callers.now × (length all ≡ count) }
    ensures { (all : List Reply) → AreTold all callers.now → length all ≡ count
        → Writes (lines_text all) (W.state out.old) (W.state out.new) result }
{
    for k in 0..count {
        write_reply(told_at(callers, k), out)?;
    }
    Ok(())
}

/// Writes the line of a reply.
fn write_reply<W: Sink>(told: &Told, out: &mut W) -> Result<(), Failed>
    ensures { Writes (line_text (told_reply told.now)) (W.state out.old) (W.state out.new) result }
{
    write_all(out, answer_of(told).line().bytes())
}

/// What was told, as an answer.
#[tactic(auto, unfolding(crate::specs::Waits::told_reply, ask_seats::specs::Replies::reply_of))]
fn answer_of(told: &Told) -> Answer
    ensures { reply_of result ≡ told_reply told.now }
{
    match told {
        Told::Value(value, power) => Answer::Value(*value, *power),
        Told::Zero => Answer::Zero,
        Told::Over => Answer::Over,
        Told::Blocked(key) => Answer::Blocked(key.copy()),
        Told::Beyond => Answer::Beyond,
        Told::BadIndex => Answer::BadIndex,
    }
}
