ghost use Rattle.std.specs.Prelude.{◌≡◌, ◌<◌, ◌≤◌, IsTrue};
ghost use Rattle.command_words.specs.Bounds.{is_bound, IsReached, IsScript};
ghost use Rattle.command_words.specs.Options.{lines_of};
ghost use Rattle.command_words.specs.Asked.{parted_of, IsLeft};

use crate::options::{Left, Next, next_word};
use crate::scripts::{ScriptWord, read_word};

/// The greatest bound of a table.
const GREATEST_BOUND: u32 = 24;

/// Whether a table is made up to this bound: from 1 to 24.
#[tactic(auto, unfolding(crate::specs::Bounds::is_bound))]
pub fn is_bound(bound: u32) -> bool
    ensures value { result ≡ is_bound bound }
    ensures some { IsTrue result → 0 < bound }
    ensures most { IsTrue result → bound ≤ 24 }
{
    1 <= bound && bound <= GREATEST_BOUND
}

/// The greatest bound of a session, `first` and those of its `grow` words; or the first of them, in the order of the words, that isn't
/// from 1 to 24. No memory is taken.
#[tactic(auto, unfolding(crate::specs::Bounds::reach))]
pub fn greatest_bound(first: u32, script: Left<'_>) -> Result<u8, u32>
    requires left { IsLeft script }
    requires script { IsScript first (lines_of (parted_of script)) }
    ensures { IsReached first (lines_of (parted_of script.entry)) result }
{
    let mut bound = first;
    let mut rest = script;
    while is_bound(bound) {
        let Next::Word {
            before: _,
            word,
            left,
        } = next_word(rest)
        else {
            return Ok(bound as u8);
        };
        if let Some(ScriptWord::Grow(next)) = read_word(word) {
            bound = next;
        }
        rest = left;
    }
    Err(bound)
}
