ghost use Rattle.std.specs.Prelude.{◌≡◌, ◌<◌, ◌≤◌, ◌^◌, IfSome, IsTrue, SomeIff};
ghost use Rattle.command_words.specs.Words.{is_number, number_of, long_number, short_number};

/// Reads one digit or more, at most `most` of them, which is at most 9.
fn read_number(word: &[u8], most: usize) -> Option<u32>
    requires { most ≤ 9 }
    ensures number { SomeIff result (IsTrue (is_number most word.now)) (number_of word.now) }
    ensures below { IfSome result (λ n. n < 10 ^ 9) }
{
    if word.is_empty() || word.len() > most {
        return None;
    }
    let mut number: u32 = 0;
    for c in word {
        if !c.is_ascii_digit() {
            return None;
        }
        number = 10 * number + (*c - b'0') as u32;
    }
    Some(number)
}

/// Reads a bound or a seed: 1 to 9 digits.
pub fn read_long(word: &[u8]) -> Option<u32>
    ensures number { result ≡ long_number word.now }
    ensures below { IfSome result (λ n. n < 10 ^ 9) }
{
    read_number(word, 9)
}

/// Reads a number of 1 to 3 digits, from `least` to `most`, which is at most 255.
pub fn read_short(word: &[u8], least: u8, most: u8) -> Option<u8>
    ensures number { result ≡ short_number least most word.now }
    ensures within { IfSome result (λ n. (least ≤ n) × (n ≤ most)) }
{
    match read_number(word, 3) {
        Some(number) if least as u32 <= number && number <= most as u32 => Some(number as u8),
        _ => None,
    }
}
