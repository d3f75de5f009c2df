ghost use Rattle.std.specs.Prelude.{◌≡◌, ◌<◌, ◌≤◌, ◌+◌, ◌^◌, map, string_bytes, length};
ghost use Rattle.command_words.specs.Options.{act, at_last, begins_dash, behind_first, option_act, value_act};
ghost use Rattle.command_words.specs.Asked.{act_of, mode_of, parted_of, token, IsCrew, IsMode, IsAct, IsLeft, IsNext, IsShorter};

use crate::numbers::read_short;

/// What a word may be, by the words before it.
#[derive(Clone, Copy, Debug, PartialEq, Eq)]
pub enum Mode {
    /// An option, `--workers` among them or not, or a plain word; the number of workers so far.
    Options { may: bool, workers: u8 },
    /// The value of `--workers`.
    Value,
    /// Behind `--` all words are plain.
    Dashed { workers: u8 },
}

/// What is done with a word.
#[derive(Clone, Copy, Debug, PartialEq, Eq)]
pub enum Act {
    Take(Mode),
    Skip(Mode),
    Break,
}

/// The words that are left, and how many stand before them.
#[derive(Clone, Copy)]
pub struct Left<'a> {
    pub mode: Mode,
    pub before: usize,
    pub words: &'a [String],
}

/// What comes next.
#[derive(Clone, Copy)]
pub enum Next<'a> {
    /// A plain word.
    Word {
        before: usize,
        word: &'a str,
        left: Left<'a>,
    },
    /// Nothing is left.
    End {
        before: usize,
        workers: u8,
    },
    /// A word that breaks a rule of the options.
    Broken {
        before: usize,
    },
}

/// So many workers there are where the words name no number.
const DEFAULT_WORKERS: u8 = 2;

/// Whether a word begins with `-` and isn't `-` alone.
fn begins_dash(word: &[u8]) -> bool
    ensures { result ≡ begins_dash word.now }
{
    match word {
        [c, _, ..] => *c == b'-',
        _ => false,
    }
}

/// What is done with a value of `--workers`.
fn value_act(word: &[u8]) -> Act
    ensures act { act_of result ≡ value_act word.now }
    ensures crew { IsAct result }
{
    match read_short(word, 0, 16) {
        Some(workers) => Act::Skip(Mode::Options {
            may: false,
            workers,
        }),
        None => Act::Break,
    }
}

/// What is done with a word where options may stand.
fn option_act(may: bool, workers: u8, word: &str) -> Act
    requires { IsCrew workers }
    ensures act { act_of result ≡ option_act may workers word.now }
    ensures crew { IsAct result }
{
    if word == "--" {
        return Act::Skip(Mode::Dashed { workers });
    }
    if word == "--workers" {
        return if may {
            Act::Skip(Mode::Value)
        } else {
            Act::Break
        };
    }
    if let Some(value) = word.as_bytes().strip_prefix(b"--workers=") {
        return if may { value_act(value) } else { Act::Break };
    }
    if begins_dash(word.as_bytes()) {
        return Act::Break;
    }
    Act::Take(Mode::Options { may, workers })
}

/// What is done with a word.
fn act_on(mode: Mode, word: &str) -> Act
    requires { IsMode mode }
    ensures act { act_of result ≡ act (mode_of mode) word.now }
    ensures crew { IsAct result }
{
    match mode {
        Mode::Options { may, workers } => option_act(may, workers, word),
        Mode::Value => value_act(word.as_bytes()),
        Mode::Dashed { workers: _ } => Act::Take(mode),
    }
}

/// What ends the words.
fn at_last(mode: Mode, before: usize) -> Next<'static>
    requires { IsMode mode }
    ensures token { token result ≡ at_last (mode_of mode) (before + 1) }
    ensures next { IsNext result }
{
    match mode {
        Mode::Options { may: _, workers } | Mode::Dashed { workers } => {
            Next::End { before, workers }
        }
        Mode::Value => Next::Broken { before },
    }
}

/// The next plain word, or what ends the words.
pub(crate) fn next_word<'a>(left: Left<'a>) -> Next<'a>
    requires { IsLeft left }
    ensures token { token result ≡ parted_of left.entry }
    ensures next { IsNext result }
    ensures shorter { IsShorter (length left.entry.words.now) result }
{
    let mut mode = left.mode;
    let mut before = left.before;
    let mut words = left.words;
    while let Some((word, rest)) = words.split_first() {
        match act_on(mode, word.as_str()) {
            Act::Take(mode) => {
                return Next::Word {
                    before,
                    word: word.as_str(),
                    left: Left {
                        mode,
                        before: before + 1,
                        words: rest,
                    },
                };
            }
            Act::Skip(behind) => mode = behind,
            Act::Break => return Next::Broken { before },
        }
        before += 1;
        words = rest;
    }
    at_last(mode, before)
}

/// The words behind the first.
pub(crate) fn behind_first(may: bool, words: &[String]) -> Left<'_>
    requires { 1 + length words.now < 2 ^ 64 }
    ensures left { parted_of result ≡ behind_first may (map string_bytes words.now) }
    ensures fit { IsLeft result }
{
    Left {
        mode: Mode::Options {
            may,
            workers: DEFAULT_WORKERS,
        },
        before: 1,
        words,
    }
}
