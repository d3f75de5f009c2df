ghost use Rattle.std.specs.Prelude.{◌≡◌, map, string_bytes, IfOk};
ghost use Rattle.more_words.specs.MoreWords.{read_behind, read_brackets, read_curve};
ghost use Rattle.more_words.specs.MoreWords.{read_curve_relations, read_json, read_quick, read_verify, reading_of};
ghost use Rattle.more_words.specs.FirstRefused.{RefusesFirst};
ghost use Rattle.more_words.specs.Asked.{numbered_of, reading, reading_by, IsFit, IsLeft};

use crate::asked::MoreAsked;
use crate::places::{Left, ends, last_values, next_kind, next_long, next_short, next_word};

/// Reads the words from left to right: what they ask for, or how many stand before the first that is refused. That is the first with
/// which no command line begins that keeps the rules of the words. A missing word is refused behind all of them. No memory is taken.
///
/// KIND is `wk`, `bgw`, `wp` or `-`. X is of 1 to 9 digits, WORKERS of 1 to 3 with a value from 0 to 16, N of 1 to 3 with a value from 1
/// to 32. There are 0 to 24 words U, each a value as in a text of tensors. Zeros may lead.
#[tactic(auto, using(crate::proofs::FirstLaw::more_refuses_first))]
pub fn read_more_words(words: &[String]) -> MoreAsked
    ensures reading { reading result ≡ reading_of (map string_bytes words.now) }
    ensures refused { RefusesFirst (reading result) (map string_bytes words.now) }
    ensures fit { IsFit result }
{
    match read_command(Left { before: 0, words }) {
        Ok(asked) => asked,
        Err(before) => MoreAsked::Refused { before },
    }
}

/// Reads the command, and the words behind it.
#[tactic(auto, unfolding(crate::specs::MoreWords::reading_of))]
fn read_command(left: Left<'_>) -> Result<MoreAsked, usize>
    requires left { IsLeft left }
    requires all { left.before ≡ 0 }
    ensures reading { reading_by result ≡ reading_of (map string_bytes left.entry.words.now) }
    ensures fit { IfOk result IsFit }
{
    let (word, behind) = next_word(left)?;
    read_behind(word, behind)
}

/// Reads the words behind a command.
#[tactic(auto, unfolding(crate::specs::MoreWords::read_behind))]
fn read_behind<'a>(word: &'a str, behind: Left<'a>) -> Result<MoreAsked, usize>
    requires { IsLeft behind }
    ensures reading { reading_by result ≡ read_behind word.now (numbered_of behind.entry) }
    ensures fit { IfOk result IsFit }
{
    match word {
        "curve" => read_curve(behind),
        "curve-relations" => read_curve_relations(behind),
        "brackets" => read_brackets(behind),
        "quick" => read_quick(behind),
        "json" => read_json(behind),
        "verify" => read_verify(behind),
        _ => Err(0),
    }
}

/// Reads the words behind `curve`.
fn read_curve(left: Left<'_>) -> Result<MoreAsked, usize>
    requires { IsLeft left }
    ensures reading { reading_by result ≡ read_curve (numbered_of left.entry) }
    ensures fit { IfOk result IsFit }
{
    let (bound, left) = next_long(left)?;
    let (workers, left) = next_short(left, 0, 16)?;
    let u = last_values(left)?;
    Ok(MoreAsked::Curve { bound, workers, u })
}

/// Reads the words behind `curve-relations`.
fn read_curve_relations(left: Left<'_>) -> Result<MoreAsked, usize>
    requires { IsLeft left }
    ensures reading { reading_by result ≡ read_curve_relations (numbered_of left.entry) }
    ensures fit { IfOk result IsFit }
{
    let (places, left) = next_short(left, 1, 32)?;
    let u = last_values(left)?;
    Ok(MoreAsked::CurveRelations { places, u })
}

/// Reads the words behind `brackets`: there are none.
fn read_brackets(left: Left<'_>) -> Result<MoreAsked, usize>
    requires { IsLeft left }
    ensures reading { reading_by result ≡ read_brackets (numbered_of left.entry) }
    ensures fit { IfOk result IsFit }
{
    ends(left)?;
    Ok(MoreAsked::Brackets)
}

/// Reads the words behind `quick`.
fn read_quick(left: Left<'_>) -> Result<MoreAsked, usize>
    requires { IsLeft left }
    ensures reading { reading_by result ≡ read_quick (numbered_of left.entry) }
    ensures fit { IfOk result IsFit }
{
    let (bound, left) = next_long(left)?;
    let (workers, left) = next_short(left, 0, 16)?;
    ends(left)?;
    Ok(MoreAsked::Quick { bound, workers })
}

/// Reads the words behind `json`.
fn read_json(left: Left<'_>) -> Result<MoreAsked, usize>
    requires { IsLeft left }
    ensures reading { reading_by result ≡ read_json (numbered_of left.entry) }
    ensures fit { IfOk result IsFit }
{
    let (kind, left) = next_kind(left)?;
    let (bound, left) = next_long(left)?;
    let (workers, left) = next_short(left, 0, 16)?;
    ends(left)?;
    Ok(MoreAsked::Json {
        kind,
        bound,
        workers,
    })
}

/// Reads the words behind `verify`: there are none.
fn read_verify(left: Left<'_>) -> Result<MoreAsked, usize>
    requires { IsLeft left }
    ensures reading { reading_by result ≡ read_verify (numbered_of left.entry) }
    ensures fit { IfOk result IsFit }
{
    ends(left)?;
    Ok(MoreAsked::Verify)
}
