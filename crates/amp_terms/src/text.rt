ghost use Rattle.std.specs.Prelude.{◌≡◌, ◌≤◌, ◌+◌, ◌++◌, take, length};
ghost use Rattle.amp_terms.specs.Text.{power_text, value_text};

use airy_index::put;
use frac128::Frac;
use itoa::Buffer;

/// Writes the text of a Value with the power of the letter, as `1/4 p^2`, and answers its length.
#[tactic(auto, unfolding(crate::specs::Text::value_text))]
pub fn write_value(v: Frac, power: u16, into: &mut [u8; 96]) -> usize
    ensures within { result ≤ 96 }
    ensures text { take result into.new ≡ value_text v power }
{
    let mut number = [0u8; 84];
    let count = v.write_into(&mut number);
    let end = put(into, 0, &number[..count]);
    put_power(into, end, power)
}

/// Writes a power of the letter from a place on, and answers the place behind it.
#[tactic(auto, unfolding(crate::specs::Text::power_text))]
fn put_power(into: &mut [u8], at: usize, power: u16) -> usize
    requires { at + 8 ≤ length into.old }
    ensures short { result ≤ at + 8 }
    ensures text { take result into.new ≡ take at into.old ++ power_text power }
    ensures len { length into.new ≡ length into.old }
{
    match power {
        0 => at,
        1 => put(into, at, b" p"),
        _ => {
            let end = put(into, at, b" p^");
            let mut buffer = Buffer::new();
            put(into, end, buffer.format(power).as_bytes())
        }
    }
}
