// The parts of a session's lines.
ghost use Rattle.std.specs.Prelude.{◌≡◌, ℕ, ◌<◌, ◌≤◌, false, length, take, slice_index_or};
ghost use Rattle.command_words.specs.declared.line.Line.{Line as LineValue};
ghost use Rattle.command_words.specs.declared.line.Line.TheVariants.{Finish, Grow};
ghost use Rattle.ask_seats.specs.Asks.{AreAsks, FinishesOnce};
ghost use Rattle.ask_seats.specs.Talks.{IsPart, replies_due};

use crate::Line;

/// Where `finish` stands in a part, or the number of its lines.
pub(crate) fn finish_at(lines: &[Line]) -> usize
    requires part { IsPart lines.now }
    ensures within { result ≤ length lines.now }
    ensures before { AreAsks (take result lines.now) }
    ensures there { result < length lines.now → (d : LineValue) → slice_index_or lines.now result d ≡ Finish }
{
    for at in 0..lines.len() {
        if let Line::Finish = &lines[at] {
            return at;
        }
    }
    lines.len()
}

/// Where the first `grow` stands, or the number of lines.
pub(crate) fn part_end(lines: &[Line]) -> usize
    requires once { FinishesOnce false lines.now }
    ensures within { result ≤ length lines.now }
    ensures part { IsPart (take result lines.now) }
    ensures there { result < length lines.now → (d : LineValue) → (X : ℕ) × (slice_index_or lines.now result d ≡ Grow X) }
{
    for at in 0..lines.len() {
        if let Line::Grow(_) = &lines[at] {
            return at;
        }
    }
    lines.len()
}

/// How many replies these lines have.
#[tactic(auto, unfolding(crate::specs::Talks::replies_due))]
pub(crate) fn replies_to(lines: &[Line]) -> usize
    ensures { result ≡ replies_due lines.now }
{
    let mut due = 0usize;
    for line in lines {
        if let Line::Finish = line {
            continue;
        }
        due += 1;
    }
    due
}
