ghost use Rattle.std.specs.Prelude.{◌≡◌, ◌+◌, ◌≤◌, ◌<◌, ◌^◌, length, map, string_bytes, IfOk};
ghost use Rattle.command_words.specs.Asked.{kind_of};
ghost use Rattle.command_words.specs.Words.{kind_of_word, long_number, short_number};
ghost use Rattle.command_words.specs.Options.{next_read};
ghost use Rattle.more_words.specs.MoreWords.{ended, values};
ghost use Rattle.more_words.specs.Asked.{numbered_of, taken, told, whole, words_by, IsLeft};

use crate::numbers::CurveNumbers;
use command_words::{Kind, read_kind, read_long, read_short};
use tensor_text::read_value;

/// The words that are left, and how many stand before them.
#[derive(Clone, Copy)]
pub struct Left<'a> {
    pub before: usize,
    pub words: &'a [String],
}

/// The next word, and the words behind it; or how many words stand before the one that is missing.
pub fn next_word(left: Left<'_>) -> Result<(&str, Left<'_>), usize>
    requires { IsLeft left }
    ensures told { told (λ w. w.now) result ≡ numbered_of left.entry }
    ensures words { words_by (λ w. w.now) result ≡ map string_bytes left.entry.words.now }
    ensures before { IfOk result (λ x. x.1.before ≡ left.entry.before + 1) }
    ensures shorter { IfOk result (λ x. length x.1.words.now < length left.entry.words.now) }
    ensures left { IfOk result (λ x. IsLeft x.1) }
{
    let Some((word, words)) = left.words.split_first() else {
        return Err(left.before);
    };
    let before = left.before + 1;
    Ok((word.as_str(), Left { before, words }))
}

/// The next word as a KIND, and the words behind it.
pub(crate) fn next_kind(left: Left<'_>) -> Result<(Kind, Left<'_>), usize>
    requires { IsLeft left }
    ensures taken { taken kind_of result ≡ next_read kind_of_word (numbered_of left.entry) }
    ensures left { IfOk result (λ x. IsLeft x.1) }
{
    let (word, behind) = next_word(left)?;
    Ok((read_kind(word).ok_or(left.before)?, behind))
}

/// The next word as a number of 1 to 9 digits, and the words behind it.
pub fn next_long(left: Left<'_>) -> Result<(u32, Left<'_>), usize>
    requires { IsLeft left }
    ensures taken { taken (λ n. n) result ≡ next_read long_number (numbered_of left.entry) }
    ensures left { IfOk result (λ x. IsLeft x.1) }
    ensures below { IfOk result (λ x. x.0 < 10 ^ 9) }
{
    let (word, behind) = next_word(left)?;
    Ok((read_long(word.as_bytes()).ok_or(left.before)?, behind))
}

/// The next word as a number of 1 to 3 digits from `least` to `most`, and the words behind it.
pub fn next_short(left: Left<'_>, least: u8, most: u8) -> Result<(u8, Left<'_>), usize>
    requires { IsLeft left }
    ensures taken { taken (λ n. n) result ≡ next_read (short_number least most) (numbered_of left.entry) }
    ensures left { IfOk result (λ x. IsLeft x.1) }
    ensures within { IfOk result (λ x. (least ≤ x.0) × (x.0 ≤ most)) }
{
    let (word, behind) = next_word(left)?;
    let number = read_short(word.as_bytes(), least, most).ok_or(left.before)?;
    Ok((number, behind))
}

/// No word is left; or how many stand before one that is.
pub(crate) fn ends(left: Left<'_>) -> Result<(), usize>
    requires { IsLeft left }
    ensures { whole (λ x. x) result ≡ ended (numbered_of left.entry) }
{
    match next_word(left) {
        Ok(_) => Err(left.before),
        Err(_) => Ok(()),
    }
}

/// The words that are left as values, at most 24 of them.
pub(crate) fn last_values(left: Left<'_>) -> Result<CurveNumbers, usize>
    requires { IsLeft left }
    ensures read { whole (λ u. u) result ≡ values 24 (numbered_of left.entry) }
    ensures most { IfOk result (λ u. length u ≤ 24) }
{
    let mut numbers = CurveNumbers::new();
    let mut rest = left;
    while let Ok((word, behind)) = next_word(rest) {
        let number = read_value(word.as_bytes()).ok_or(rest.before)?;
        if numbers.is_full() {
            return Err(rest.before);
        }
        numbers.push(number);
        rest = behind;
    }
    Ok(numbers)
}
