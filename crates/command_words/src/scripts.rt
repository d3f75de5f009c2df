ghost use Rattle.std.specs.Prelude.{◌≡◌, ℕ, ◌<◌, ◌∷◌, ◌++◌, [], Some, IfOk, IfSome, codes, length, option_map};
ghost use Rattle.std.specs.Option.{option_map_or};
ghost use Rattle.command_words.specs.Lines.{Rises};
ghost use Rattle.command_words.specs.Scripts.{ask_for, ask_of_parts, bytes_of_words, line_of_word, parts};
ghost use Rattle.command_words.specs.Options.{lines_of};
ghost use Rattle.command_words.specs.Asked.{line_as, parted_of, IsChecked, IsLeft};

use crate::Line;
use crate::numbers::{read_long, read_short};
use crate::options::{Left, Next, next_word};
use airy_index::Key;
use arrayvec::ArrayVec;
use std::alloc::{AllocError, Global};

/// What stands before the first of a letter, and what stands behind it.
fn cut(word: &str, at: char) -> (&str, Option<&str>)
    requires { at < 128 }
    ensures parts { parts at word.now ≡ result.0.now ∷ option_map_or (λ rest. parts at rest.now) result.1 [] }
    ensures shorter { IfSome result.1 (λ rest. length rest.now < length word.now) }
{
    match word.split_once(at) {
        Some((before, after)) => (before, Some(after)),
        None => (word, None),
    }
}

/// The key of a genus and indices, where there is one.
fn ask_key(g: u8, idx: &[u8]) -> Option<Key>
    ensures { option_map Line.Ask result ≡ ask_for g (Some idx.now) }
{
    Key::of(g, idx).ok()
}

/// Reads indices, and asks for their key.
fn read_key(g: u8, word: &str) -> Option<Key>
    ensures { option_map Line.Ask result ≡ ask_for g (bytes_of_words (parts 44 word.now)) }
{
    let mut idx: ArrayVec<u8, 26> = ArrayVec::new();
    let mut rest = word;
    loop {
        let (part, behind) = cut(rest, ',');
        let index = read_short(part.as_bytes(), 0, 255)?;
        if idx.is_full() {
            return None;
        }
        idx.push(index);
        let Some(text) = behind else {
            return ask_key(g, idx.as_slice());
        };
        rest = text;
    }
}

/// Reads what may stand behind `ask:` in a word of a script: `G:D,D,..`, a genus and 1 to 26 indices that make a stable key. No memory
/// is taken.
#[tactic(auto, unfolding(crate::specs::Scripts::line_of_word), using(crate::proofs::ScriptLemmas::four_parts))]
pub fn read_asked(word: &str) -> Option<Key>
    ensures { option_map Line.Ask result ≡ line_of_word (codes "ask:" ++ word.now) }
{
    let (genus, behind) = cut(word, ':');
    let (indices, behind) = cut(behind?, ':');
    if let Some(_more) = behind {
        return None;
    }
    read_key(read_short(genus.as_bytes(), 0, 255)?, indices)
}

/// Reads an ask.
#[tactic(auto, unfolding(crate::specs::Scripts::line_of_word), using(crate::proofs::ScriptLemmas::named_ask))]
fn read_ask(word: &str) -> Option<Key>
    ensures { option_map Line.Ask result ≡ ask_of_parts (parts 58 word.now) }
{
    let (name, behind) = cut(word, ':');
    let key = read_asked(behind?)?;
    if name != "ask" {
        return None;
    }
    Some(key)
}

/// A word of a script. Its bound may be too great for a line.
#[derive(Drop)]
pub enum ScriptWord {
    Ask(Key),
    Finish,
    Grow(u32),
}

/// Reads a word of a script.
#[tactic(auto, unfolding(crate::specs::Scripts::line_of_word))]
pub(crate) fn read_word(word: &str) -> Option<ScriptWord>
    ensures { option_map line_as result ≡ line_of_word word.now }
{
    if word == "finish" {
        return Some(ScriptWord::Finish);
    }
    if let Some(number) = word.as_bytes().strip_prefix(b"grow:") {
        return Some(ScriptWord::Grow(read_long(number)?));
    }
    Some(ScriptWord::Ask(read_ask(word)?))
}

/// The number of workers, where the words that are left are a script behind the bound `first`; or how many words stand before the first
/// that breaks a rule.
pub(crate) fn check_script(first: u32, left: Left<'_>) -> Result<u8, usize>
    requires { IsLeft left }
    ensures { IsChecked first result (parted_of left.entry) }
{
    let mut some = false;
    let mut finished = false;
    let mut bound = first;
    let mut rest = left;
    loop {
        match next_word(rest) {
            Next::Word { before, word, left } => {
                match read_word(word) {
                    Some(ScriptWord::Ask(_)) => {}
                    Some(ScriptWord::Finish) if !finished => finished = true,
                    Some(ScriptWord::Grow(next)) if bound < next => {
                        finished = false;
                        bound = next;
                    }
                    _ => return Err(before),
                }
                some = true;
                rest = left;
            }
            Next::End { before: _, workers } if some => return Ok(workers),
            Next::End { before, workers: _ } | Next::Broken { before } => return Err(before),
        }
    }
}

/// The lines of a script whose bounds rise up to 24 at most.
#[tactic(auto, unfolding(crate::specs::Lines::Rises))]
pub fn lines_made(alloc: Global, left: Left<'_>) -> Result<Vec<Line>, AllocError>
    requires left { IsLeft left }
    requires rise { (X : ℕ) × Rises X (lines_of (parted_of left)) }
    ensures { IfOk result (λ v. v.items ≡ lines_of (parted_of left.entry)) }
{
    let mut lines = Vec::new(alloc);
    let mut rest = left;
    while let Next::Word {
        before: _,
        word,
        left,
    } = next_word(rest)
    {
        match read_word(word) {
            Some(ScriptWord::Ask(key)) => lines.push(Line::Ask(key))?,
            Some(ScriptWord::Finish) => lines.push(Line::Finish)?,
            Some(ScriptWord::Grow(bound)) => lines.push(Line::Grow(bound as u8))?,
            None => {}
        }
        rest = left;
    }
    Ok(lines)
}
