ghost use Rattle.std.specs.Prelude.{◌≡◌, ◌≢◌, ◌≤◌, ◌<◌, ◌^◌, length, IfOk, IfSome, option_map};
ghost use Rattle.command_words.specs.Words.{family_of_word, kind_of_word, long_number, short_number};
ghost use Rattle.command_words.specs.Scripts.{byte_of_word};
ghost use Rattle.command_words.specs.Options.{ended, items, next_read, with_item};
ghost use Rattle.command_words.specs.Asked.{kind_of, parted_of, taken, whole, IsCrew, IsLeft};

use crate::asked::Kind;
use crate::numbers::{read_long, read_short};
use crate::options::{Left, Next, next_word};
use airy_math::Family;
use arrayvec::ArrayVec;

/// Reads KIND: `wk`, `bgw`, `wp`, or `-` for the text of the source.
pub fn read_kind(word: &str) -> Option<Kind>
    ensures { option_map kind_of result ≡ kind_of_word word.now }
{
    match word {
        "wk" => Some(Kind::Named(Family::Wk)),
        "bgw" => Some(Kind::Named(Family::Bgw)),
        "wp" => Some(Kind::Named(Family::Wp)),
        "-" => Some(Kind::Text),
        _ => None,
    }
}

/// Reads FAMILY.
fn read_family(word: &str) -> Option<Family>
    ensures family { result ≡ family_of_word word.now }
    ensures own { IfSome result (λ f. f ≢ Family.Wp) }
{
    match word {
        "wk" => Some(Family::Wk),
        "bgw" => Some(Family::Bgw),
        _ => None,
    }
}

/// The next plain word as a KIND, and the words behind it; or how many words stand before the one that is refused.
pub(crate) fn next_kind(left: Left<'_>) -> Result<(Kind, Left<'_>), usize>
    requires { IsLeft left }
    ensures taken { taken kind_of result ≡ next_read kind_of_word (parted_of left.entry) }
    ensures left { IfOk result (λ x. IsLeft x.1) }
{
    match next_word(left) {
        Next::Word { before, word, left } => Ok((read_kind(word).ok_or(before)?, left)),
        Next::End { before, workers: _ } | Next::Broken { before } => Err(before),
    }
}

/// The next plain word as a FAMILY, and the words behind it.
pub(crate) fn next_family(left: Left<'_>) -> Result<(Family, Left<'_>), usize>
    requires { IsLeft left }
    ensures taken { taken (λ f. f) result ≡ next_read family_of_word (parted_of left.entry) }
    ensures left { IfOk result (λ x. IsLeft x.1) }
    ensures own { IfOk result (λ x. x.0 ≢ Family.Wp) }
{
    match next_word(left) {
        Next::Word { before, word, left } => Ok((read_family(word).ok_or(before)?, left)),
        Next::End { before, workers: _ } | Next::Broken { before } => Err(before),
    }
}

/// The next plain word as a number of 1 to 9 digits, and the words behind it.
pub(crate) fn next_long(left: Left<'_>) -> Result<(u32, Left<'_>), usize>
    requires { IsLeft left }
    ensures taken { taken (λ n. n) result ≡ next_read long_number (parted_of left.entry) }
    ensures left { IfOk result (λ x. IsLeft x.1) }
    ensures below { IfOk result (λ x. x.0 < 10 ^ 9) }
{
    match next_word(left) {
        Next::Word { before, word, left } => Ok((read_long(word.as_bytes()).ok_or(before)?, left)),
        Next::End { before, workers: _ } | Next::Broken { before } => Err(before),
    }
}

/// The next plain word as a number of 1 to 3 digits from `least` to `most`, and the words behind it.
pub(crate) fn next_short(left: Left<'_>, least: u8, most: u8) -> Result<(u8, Left<'_>), usize>
    requires { IsLeft left }
    ensures taken { taken (λ n. n) result ≡ next_read (short_number least most) (parted_of left.entry) }
    ensures left { IfOk result (λ x. IsLeft x.1) }
    ensures within { IfOk result (λ x. (least ≤ x.0) × (x.0 ≤ most)) }
{
    match next_word(left) {
        Next::Word { before, word, left } => {
            let number = read_short(word.as_bytes(), least, most).ok_or(before)?;
            Ok((number, left))
        }
        Next::End { before, workers: _ } | Next::Broken { before } => Err(before),
    }
}

/// The number of workers, where no word is left.
pub(crate) fn ends(left: Left<'_>) -> Result<u8, usize>
    requires { IsLeft left }
    ensures ended { whole (λ n. n) result ≡ ended (parted_of left.entry) }
    ensures crew { IfOk result IsCrew }
{
    match next_word(left) {
        Next::End { before: _, workers } => Ok(workers),
        Next::Word { before, .. } | Next::Broken { before } => Err(before),
    }
}

/// The index that was read, and those of all words that are left, which are at most 25.
pub(crate) fn last_indices(first: u8, left: Left<'_>) -> Result<ArrayVec<u8, 26>, usize>
    requires { IsLeft left }
    ensures read { whole (λ v. v.items) result ≡ with_item first (items byte_of_word 25 (parted_of left.entry)) }
    ensures some { IfOk result (λ v. (0 < length v.items) × (length v.items ≤ 26)) }
{
    let mut idx = ArrayVec::new();
    idx.push(first);
    let mut rest = left;
    loop {
        match next_word(rest) {
            Next::Word { before, word, left } => {
                let index = read_short(word.as_bytes(), 0, 255).ok_or(before)?;
                if idx.is_full() {
                    return Err(before);
                }
                idx.push(index);
                rest = left;
            }
            Next::End { .. } => return Ok(idx),
            Next::Broken { before } => return Err(before),
        }
    }
}
