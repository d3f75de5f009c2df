ghost use Rattle.std.specs.Prelude.{◌≡◌, ◌+◌, ◌≤◌, ◌<◌, ◌^◌, map, string_bytes, length, IfOk, OnOk};
ghost use Rattle.command_words.specs.Asked.{kind_of};
ghost use Rattle.command_words.specs.Words.{kind_of_word};
ghost use Rattle.command_words.specs.Options.{next_read};
ghost use Rattle.more_words.specs.Asked.{numbered_of, taken, whole, IsLeft};
ghost use Rattle.airy_wait.specs.Words.{all_keys, key_of_word, keys, read_waiting, reading_of, RefusesFirst};
ghost use Rattle.airy_wait.specs.Asked.{keys_of, reading, reading_by, AreKeys, IsFit};

use airy_index::Key;
use command_words::{Kind, read_asked, read_kind};
use more_words::{Left, next_long, next_short, next_word};

/// What the words ask for.
#[derive(Drop)]
pub enum Asked<'a> {
    /// What keys have in the table of a structure up to a bound.
    Waiting {
        kind: Kind,
        bound: u32,
        job: Job<'a>,
    },
    /// How many words stand before the first that breaks a rule.
    Refused {
        before: usize,
    },
}

/// So many workers fill, and so many callers ask for the keys of the words.
#[derive(Clone, Copy)]
pub struct Job<'a> {
    pub workers: u8,
    pub callers: u8,
    pub asks: &'a [String],
}

/// So many asks there are at most.
const MOST_ASKS: usize = 256;

/// Reads the words from left to right: what they ask for, or how many stand before the first that is refused. That is the first with
/// which no command line begins that keeps the rules of the words. A missing word is refused behind all of them. No memory is taken.
///
/// The words are `KIND X WORKERS CALLERS ASK...`: KIND is `wk`, `bgw`, `wp` or `-`, X is of 1 to 9 digits, WORKERS and CALLERS are of 1
/// to 3, with values from 1 to 16 and from 1 to 8. There are 1 to 256 words ASK, each `G:D,D,..`. Zeros may lead.
#[tactic(auto, unfolding(crate::specs::Words::reading_of), using(crate::proofs::FirstLaw::wait_refuses_first))]
pub fn read_wait_words(words: &[String]) -> Asked<'_>
    ensures reading { reading result ≡ reading_of (map string_bytes words.now) }
    ensures refused { RefusesFirst (reading result) (map string_bytes words.now) }
    ensures fit { IsFit result }
{
    match read_line(Left { before: 0, words }) {
        Ok(asked) => asked,
        Err(before) => Asked::Refused { before },
    }
}

/// Reads all words.
fn read_line(left: Left<'_>) -> Result<Asked<'_>, usize>
    requires { IsLeft left }
    ensures reading { reading_by result ≡ read_waiting (numbered_of left.entry) }
    ensures fit { IfOk result IsFit }
{
    let (kind, left) = next_kind(left)?;
    let (bound, left) = next_long(left)?;
    let (workers, left) = next_short(left, 1, 16)?;
    let (callers, left) = next_short(left, 1, 8)?;
    let asks = last_keys(left)?;
    let job = Job {
        workers,
        callers,
        asks,
    };
    Ok(Asked::Waiting { kind, bound, job })
}

/// The next word as a KIND, and the words behind it.
fn next_kind(left: Left<'_>) -> Result<(Kind, Left<'_>), usize>
    requires { IsLeft left }
    ensures taken { taken kind_of result ≡ next_read kind_of_word (numbered_of left.entry) }
    ensures left { IfOk result (λ x. IsLeft x.1) }
{
    let (word, behind) = next_word(left)?;
    Ok((read_kind(word).ok_or(left.before)?, behind))
}

/// Reads ASK.
#[tactic(auto, unfolding(crate::specs::Words::key_of_word))]
pub(crate) fn read_ask(word: &str) -> Option<Key>
    ensures { result ≡ key_of_word word.now }
{
    read_asked(word)
}

/// The words that are left, each of which is a key: one or more, and at most 256.
fn last_keys(left: Left<'_>) -> Result<&[String], usize>
    requires { IsLeft left }
    ensures read { whole (λ w. keys_of (map string_bytes w.now)) result ≡ all_keys (numbered_of left.entry) }
    ensures most { IfOk result (λ w. length w.now ≤ 256) }
    ensures keys { IfOk result (λ w. AreKeys (map string_bytes w.now)) }
{
    let (word, behind) = next_word(left)?;
    if read_ask(word).is_none() {
        return Err(left.before);
    }
    check_keys(behind, MOST_ASKS - 1)?;
    Ok(left.words)
}

/// Checks that the words that are left are keys, at most `room` of them; or how many stand before the first that is refused.
fn check_keys(left: Left<'_>, room: usize) -> Result<(), usize>
    requires { IsLeft left }
    ensures read { whole (λ u. keys_of (map string_bytes left.entry.words.now)) result ≡ keys room (numbered_of left.entry) }
    ensures most { OnOk result (length left.entry.words.now ≤ room) }
    ensures keys { OnOk result (AreKeys (map string_bytes left.entry.words.now)) }
{
    let Ok((word, behind)) = next_word(left) else {
        return Ok(());
    };
    if room == 0 || read_ask(word).is_none() {
        return Err(left.before);
    }
    check_keys(behind, room - 1)
}
