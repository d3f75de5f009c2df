ghost use Rattle.std.specs.Prelude.{◌≡◌, ℕ, [], ◌∷◌, OnOk, OnErr};
ghost use Rattle.airy_math.specs.Keys.{Key as KeyValue};
ghost use Rattle.std.specs.Io.KnownBytes.{Appends};
ghost use Rattle.airy_io.specs.Causes.{HasCause, AppendsPrefix};
ghost use Rattle.airy_index.specs.Fields.{IsKey};
ghost use Rattle.ask_seats.specs.Replies.{Reply, reply_of, line_text};
ghost use Rattle.command_words.specs.declared.line.Line.TheVariants.{Ask};
ghost use Rattle.ask_seats.specs.Asks.{AreAsks};
ghost use Rattle.ask_seats.specs.Talks.{Breaks, Hears, IsSaid, Writes, holds_back};

use crate::asker::Asker;
use crate::{Answer, Line};
use airy_index::Key;
use airy_io::{Failed, Sink, write_all};
use amp_plan::Place;
use cell_words::Cells;

/// What decides with the board how an ask is answered: the number of workers, and the bound at the last `finish`, where there was one.
#[derive(Clone, Copy)]
pub(crate) struct Pace {
    pub(crate) workers: u8,
    pub(crate) finished: Option<u8>,
}

impl Pace {
    /// Whether a planned key with this Euler number waits: without workers, where no `finish` settled it.
    #[tactic(auto, unfolding(crate::specs::Sessions::is_open))]
    fn holds_back(self, euler: u16) -> bool
        ensures { result ≡ holds_back self.workers self.finished euler }
    {
        if self.workers > 0 {
            return false;
        }
        match self.finished {
            Some(bound) => u16::from(bound) < euler,
            None => true,
        }
    }
}

/// Asks for a key; or, where it waits, answers `not yet` without a look.
fn hear<B: Cells>(asker: &mut Asker<'_, B>, pace: Pace, key: &Key) -> Answer
    requires seat { B.IsSeat asker.old.board.now asker.old.seat }
    ensures board { asker.new.board ≡ asker.old.board }
    ensures seat { B.IsSeat asker.new.board.now asker.new.seat }
    ensures standing { B.standing asker.new.seat ≡ B.standing asker.old.seat }
    ensures keeps { (r : ℕ) → B.Knows asker.old.seat r → B.Knows asker.new.seat r }
    ensures hears { Hears (B.plan_of asker.old.board.now) pace.workers pace.finished key.now
        (B.Knows asker.old.seat) (B.Knows asker.new.seat) (reply_of result) }
{
    if pace.holds_back(key.euler()) {
        if let Place::At(_) = asker.board.plan().rank_of(key) {
            return Answer::NotYet { word: 0 };
        }
    }
    asker.ask(key)
}

/// Asks for a key and writes the answer's line.
fn reply<B: Cells, W: Sink>(
    asker: &mut Asker<'_, B>,
    pace: Pace,
    key: &Key,
    out: &mut W,
) -> Result<(), Failed>
    requires seat { B.IsSeat asker.old.board.now asker.old.seat }
    ensures key { IsKey key.now.g key.now.idx }
    ensures board { asker.new.board ≡ asker.old.board }
    ensures seat { B.IsSeat asker.new.board.now asker.new.seat }
    ensures standing { B.standing asker.new.seat ≡ B.standing asker.old.seat }
    ensures keeps { (r : ℕ) → B.Knows asker.old.seat r → B.Knows asker.new.seat r }
    ensures said { IsSaid (B.plan_of asker.old.board.now) pace.workers pace.finished key.now
        (B.Knows asker.old.seat) (B.Knows asker.new.seat) (W.state out.old).taken (W.state out.new).taken result }
    ensures cause { HasCause (W.state out.old).faults (W.state out.new).faults result }
{
    key.validity_fact();
    let answer = hear(asker, pace, key);
    write_all(out, answer.line().bytes())
}

/// The same of a line that asks.
fn answer_line<B: Cells, W: Sink>(
    asker: &mut Asker<'_, B>,
    pace: Pace,
    line: &Line,
    out: &mut W,
) -> Result<(), Failed>
    requires seat { B.IsSeat asker.old.board.now asker.old.seat }
    requires asks { AreAsks (line.now ∷ []) }
    ensures board { asker.new.board ≡ asker.old.board }
    ensures seat { B.IsSeat asker.new.board.now asker.new.seat }
    ensures standing { B.standing asker.new.seat ≡ B.standing asker.old.seat }
    ensures keeps { (r : ℕ) → B.Knows asker.old.seat r → B.Knows asker.new.seat r }
    ensures key { (key : KeyValue) → line.now ≡ Ask key → IsKey key.g key.idx }
    ensures said { (key : KeyValue) → line.now ≡ Ask key
        → IsSaid (B.plan_of asker.old.board.now) pace.workers pace.finished key (B.Knows asker.old.seat) (B.Knows asker.new.seat)
        (W.state out.old).taken (W.state out.new).taken result }
    ensures cause { HasCause (W.state out.old).faults (W.state out.new).faults result }
{
    let Line::Ask(key) = line else { unreachable!() };
    reply(asker, pace, key, out)
}

/// Asks for each key in order and writes each answer's line before the next ask.
pub(crate) fn answer_all<B: Cells, W: Sink>(
    asker: &mut Asker<'_, B>,
    pace: Pace,
    lines: &[Line],
    out: &mut W,
) -> Result<(), Failed>
    requires seat { B.IsSeat asker.old.board.now asker.old.seat }
    requires asks { AreAsks lines.now }
    ensures board { asker.new.board ≡ asker.old.board }
    ensures seat { B.IsSeat asker.new.board.now asker.new.seat }
    ensures standing { B.standing asker.new.seat ≡ B.standing asker.old.seat }
    ensures keeps { (r : ℕ) → B.Knows asker.old.seat r → B.Knows asker.new.seat r }
    ensures written { OnOk result (Writes (B.plan_of asker.old.board.now) pace.workers pace.finished pace.finished
        (B.Knows asker.old.seat) (B.Knows asker.new.seat) lines.now (W.state out.old).taken (W.state out.new).taken) }
    ensures cut { OnErr result (Breaks (B.plan_of asker.old.board.now) pace.workers pace.finished
        (B.Knows asker.old.seat) lines.now (W.state out.old).taken (W.state out.new).taken) }
    ensures cause { HasCause (W.state out.old).faults (W.state out.new).faults result }
{
    asker.board.plan().planned_fact();
    for line in lines {
        answer_line(asker, pace, line, out)?;
    }
    Ok(())
}
