ghost use Rattle.std.specs.Prelude.{◌≡◌, ◌+◌, ◌*◌, ◌/◌, ◌%◌, ◌^◌, ◌<◌, pos};
ghost use Rattle.std.specs.Int.{cast_unsigned};
ghost use mir.Syntax.{w128};
ghost use Rattle.amp_terms.specs.declared.Outcome.{Outcome};
ghost use Rattle.cell_words.specs.Words.{low_word, high_word, first_number, second_number, word_of, IsSized, AreWordsOfOne};

use amp_terms::Outcome;
use frac128::Frac;

/// The low 64 bits of a number.
fn low(n: i128) -> u64
    ensures { result ≡ low_word n }
{
    (n.cast_unsigned() % (1 << 64)) as u64
}

/// The high 64 bits of a number.
fn high(n: i128) -> u64
    ensures { result ≡ high_word n }
{
    (n.cast_unsigned() / (1 << 64)) as u64
}

/// The number of these words.
fn number(low: u64, high: u64) -> i128
    ensures { cast_unsigned w128 result ≡ high * 2 ^ 64 + low }
{
    (u128::from(high) * (1 << 64) + u128::from(low)).cast_signed()
}

/// The two numbers of an outcome.
#[tactic(auto, unfolding(crate::specs::Words::first_number, crate::specs::Words::second_number))]
fn numbers(outcome: Outcome) -> (i128, i128)
    ensures first { result.0 ≡ first_number outcome }
    ensures second { result.1 ≡ second_number outcome }
{
    match outcome {
        Outcome::Value(v) => v.parts(),
        Outcome::Over => (0, 0),
        Outcome::Blocked { first } => (i128::from(first) + 1, 0),
    }
}

/// The value words of an outcome.
#[tactic(auto, unfolding(crate::specs::Words::word_of))]
pub(crate) fn encode(outcome: Outcome) -> (u64, u64, u64, u64)
    ensures a { result.0 ≡ word_of outcome 0 }
    ensures b { result.1 ≡ word_of outcome 1 }
    ensures c { result.2 ≡ word_of outcome 2 }
    ensures d { result.3 ≡ word_of outcome 3 }
{
    let (first, second) = numbers(outcome);
    (low(first), high(first), low(second), high(second))
}

/// The outcome with this first word, where its second number is 0.
#[tactic(auto, using(crate::proofs::WordLemmas::over_back))]
fn without_second(a: u64) -> Outcome
    ensures { (o : Outcome) → IsSized o → a ≡ word_of o 0 → second_number o ≡ pos 0 → result ≡ o }
{
    if a == 0 || a > 1 << 32 {
        return Outcome::Over;
    }
    Outcome::Blocked {
        first: (a - 1) as u32,
    }
}

/// The outcome whose value words these are.
pub(crate) fn decode(a: u64, b: u64, c: u64, d: u64) -> Outcome
    requires { AreWordsOfOne a b c d }
    ensures { (o : Outcome) → IsSized o → a ≡ word_of o 0 → b ≡ word_of o 1 → c ≡ word_of o 2 → d ≡ word_of o 3 → result ≡ o }
{
    let second = number(c, d);
    if second == 0 {
        return without_second(a);
    }
    Outcome::Value(Frac::of_lowest(number(a, b), second.unsigned_abs()))
}

/// A law: the numbers of an outcome are in range.
#[tactic(auto, unfolding(crate::specs::Words::IsSized))]
pub(crate) fn is_sized(outcome: &Outcome)
    ensures { IsSized outcome.now }
{
    match outcome {
        Outcome::Value(v) => v.range_fact(),
        Outcome::Over => {}
        Outcome::Blocked { first } => {
            let _first = *first;
        }
    }
}
