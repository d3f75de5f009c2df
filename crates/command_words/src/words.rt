ghost use Rattle.std.specs.Prelude.{◌≡◌, ◌+◌, map, string_bytes, IfOk};
ghost use Rattle.command_words.specs.Words.{settled};
ghost use Rattle.command_words.specs.Options.{read_bulk, read_number, read_probe, read_relations};
ghost use Rattle.command_words.specs.Options.{read_session, read_table, read_volume, reading_of};
ghost use Rattle.command_words.specs.FirstRefused.{RefusesFirst};
ghost use Rattle.command_words.specs.Asked.{reading, reading_by, parted_of, IsFit, IsLeft};

use crate::asked::Asked;
use crate::options::{Left, behind_first};
use crate::places::{ends, last_indices, next_family, next_kind, next_long, next_short};
use crate::scripts::check_script;
use airy_index::Key;

/// Reads the words from left to right: what they ask for, or how many stand before the first that is refused. That is the first with
/// which no command line begins that keeps the rules of the words. A missing word is refused behind all of them, and so are words that
/// ask for a key or a pair that isn't stable. No memory is taken.
#[tactic(auto, using(crate::proofs::FirstLaw::refuses_first))]
pub fn read_words(words: &[String]) -> Asked<'_>
    ensures reading { reading result ≡ reading_of (map string_bytes words.now) }
    ensures refused { RefusesFirst (reading result) (map string_bytes words.now) }
    ensures fit { IsFit result }
{
    match read_command(words) {
        Ok(asked) => asked,
        Err(before) => Asked::Refused { before },
    }
}

/// Reads the command, and the words behind it.
#[tactic(auto, unfolding(crate::specs::Options::reading_of, crate::specs::Options::worded_of), using(crate::proofs::StableLemmas::settles))]
fn read_command(words: &[String]) -> Result<Asked<'_>, usize>
    ensures reading { reading_by result ≡ reading_of (map string_bytes words.now) }
    ensures fit { IfOk result IsFit }
{
    let Some((word, rest)) = words.split_first() else {
        return Err(0);
    };
    match word.as_str() {
        "table" => read_table(behind_first(true, rest)),
        "probe" => read_probe(behind_first(true, rest)),
        "session" => read_session(behind_first(true, rest)),
        "relations" => read_relations(behind_first(false, rest)),
        "number" => read_number(behind_first(false, rest), words.len()),
        "volume" => read_volume(behind_first(false, rest), words.len()),
        "bulk" => read_bulk(behind_first(true, rest)),
        _ => Err(0),
    }
}

/// Reads the words behind `table`.
fn read_table(left: Left<'_>) -> Result<Asked<'_>, usize>
    requires { IsLeft left }
    ensures reading { reading_by result ≡ read_table (parted_of left.entry) }
    ensures fit { IfOk result IsFit }
{
    let (kind, left) = next_kind(left)?;
    let (bound, left) = next_long(left)?;
    let workers = ends(left)?;
    Ok(Asked::Table {
        kind,
        bound,
        workers,
    })
}

/// Reads the words behind `probe`.
fn read_probe(left: Left<'_>) -> Result<Asked<'_>, usize>
    requires { IsLeft left }
    ensures reading { reading_by result ≡ read_probe (parted_of left.entry) }
    ensures fit { IfOk result IsFit }
{
    let (bound, left) = next_long(left)?;
    let workers = ends(left)?;
    Ok(Asked::Probe { bound, workers })
}

/// Reads the words behind `session`.
fn read_session(left: Left<'_>) -> Result<Asked<'_>, usize>
    requires { IsLeft left }
    ensures reading { reading_by result ≡ read_session (parted_of left.entry) }
    ensures fit { IfOk result IsFit }
{
    let (kind, left) = next_kind(left)?;
    let (bound, script) = next_long(left)?;
    let workers = check_script(bound, script)?;
    Ok(Asked::Session {
        kind,
        bound,
        workers,
        script,
    })
}

/// Reads the words behind `relations`.
fn read_relations(left: Left<'_>) -> Result<Asked<'_>, usize>
    requires { IsLeft left }
    ensures reading { reading_by result ≡ read_relations (parted_of left.entry) }
    ensures fit { IfOk result IsFit }
{
    let (places, left) = next_short(left, 1, 32)?;
    let (kind, left) = next_kind(left)?;
    ends(left)?;
    Ok(Asked::Relations { places, kind })
}

/// Reads the words behind `number`, of so many words in all.
#[tactic(auto, unfolding(airy_math::specs::Keys::key_of), using(crate::proofs::StableLemmas::unstable_key))]
fn read_number(left: Left<'_>, count: usize) -> Result<Asked<'_>, usize>
    requires { IsLeft left }
    ensures reading { reading_by result ≡ settled (count + 1) (read_number (parted_of left.entry)) }
    ensures fit { IfOk result IsFit }
{
    let (family, left) = next_family(left)?;
    let (genus, left) = next_short(left, 0, 255)?;
    let (first, left) = next_short(left, 0, 255)?;
    let indices = last_indices(first, left)?;
    let Ok(key) = Key::of(genus, indices.as_slice()) else {
        return Err(count);
    };
    key.validity_fact();
    Ok(Asked::Number { family, key })
}

/// Reads the words behind `volume`, of so many words in all.
#[tactic(auto, unfolding(airy_math::specs::Keys::euler))]
fn read_volume(left: Left<'_>, count: usize) -> Result<Asked<'_>, usize>
    requires { IsLeft left }
    ensures reading { reading_by result ≡ settled (count + 1) (read_volume (parted_of left.entry)) }
    ensures fit { IfOk result IsFit }
{
    let (genus, left) = next_short(left, 0, 255)?;
    let (places, left) = next_short(left, 1, 26)?;
    ends(left)?;
    if 2 * genus as u16 + places as u16 <= 2 {
        return Err(count);
    }
    Ok(Asked::Volume { genus, places })
}

/// Reads the words behind `bulk`.
fn read_bulk(left: Left<'_>) -> Result<Asked<'_>, usize>
    requires { IsLeft left }
    ensures reading { reading_by result ≡ read_bulk (parted_of left.entry) }
    ensures fit { IfOk result IsFit }
{
    let (seed, left) = next_long(left)?;
    let (dim, left) = next_short(left, 1, 8)?;
    let (bound, left) = next_long(left)?;
    let workers = ends(left)?;
    Ok(Asked::Bulk {
        seed,
        dim,
        bound,
        workers,
    })
}
