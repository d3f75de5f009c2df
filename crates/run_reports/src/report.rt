ghost use Rattle.std.specs.Prelude.{◌≡◌, ◌≢◌, ◌<◌, ◌≤◌, ◌+◌, ◌++◌, ◌∷◌, [], codes, length, decimal};
ghost use Rattle.airy_index.specs.Text.{key_text};
ghost use Rattle.frac128.specs.Fraction.{fraction_text};
ghost use Rattle.run_reports.specs.Report.{Ends, Report, refusal, word_refused, bound_refused, out_of_memory};

use airy_index::Key;
use airy_io::{LineText, Sink, write_all};
use frac128::Frac;
use itoa::Buffer;

/// Writes the bytes of a report, and answers its status, or 9 where the sink fails.
pub fn say<W: Sink>(out: &mut W, status: u8, bytes: &[u8]) -> u8
    requires { status ≢ 9 }
    ensures { Ends (record { status = status; bytes = bytes.now }) (W.state out.old) (W.state out.new) result }
{
    match write_all(out, bytes) {
        Ok(()) => status,
        Err(_) => 9,
    }
}

/// Refuses a word, before which so many stand, by its number from 1.
pub fn refuse_word<W: Sink>(out: &mut W, before: usize) -> u8
    ensures { Ends (word_refused (before + 1)) (W.state out.old) (W.state out.new) result }
{
    let mut buffer = Buffer::new();
    refuse(
        out,
        2,
        b"word ",
        buffer.format(before as u128 + 1).as_bytes(),
    )
}

/// Refuses a bound.
pub fn refuse_bound<W: Sink>(out: &mut W, bound: u32) -> u8
    ensures { Ends (bound_refused bound) (W.state out.old) (W.state out.new) result }
{
    refuse_number(out, 5, b"bound ", bound)
}

/// Says that memory is wanting.
pub fn refuse_memory<W: Sink>(out: &mut W) -> u8
    ensures { Ends out_of_memory (W.state out.old) (W.state out.new) result }
{
    say(out, 10, b"refused: want of memory\n")
}

/// Writes the line that refuses a number.
pub fn refuse_number<W: Sink>(out: &mut W, status: u8, what: &[u8], number: u32) -> u8
    requires told { status ≢ 9 }
    requires short { length what.now ≤ 16 }
    ensures { Ends (record { status = status; bytes = refusal what.now (decimal number) }) (W.state out.old) (W.state out.new) result }
{
    let mut text = LineText::new();
    text.put_number(number);
    refuse(out, status, what, text.bytes())
}

/// Writes the line that refuses a key.
pub fn refuse_key<W: Sink>(out: &mut W, status: u8, what: &[u8], key: &Key) -> u8
    requires told { status ≢ 9 }
    requires short { length what.now ≤ 32 }
    ensures { Ends (record { status = status; bytes = refusal what.now (key_text key.now) }) (W.state out.old) (W.state out.new) result }
{
    let mut text = [0u8; 128];
    let end = key.write_into(&mut text);
    refuse(out, status, what, &text[..end])
}

/// Writes a line that refuses: what, and which one.
pub fn refuse<W: Sink>(out: &mut W, status: u8, what: &[u8], which: &[u8]) -> u8
    requires told { status ≢ 9 }
    requires short { length what.now ≤ 32 }
    requires few { length which.now ≤ 400 }
    ensures { Ends (record { status = status; bytes = refusal what.now which.now }) (W.state out.old) (W.state out.new) result }
{
    let mut line = LineText::new();
    line.put(b"refused: ");
    line.put(what);
    line.put(which);
    line.put(b"\n");
    say(out, status, line.bytes())
}

/// Puts a fraction at the end of a line.
pub fn put_fraction(line: &mut LineText, v: Frac)
    requires { length line.old + 84 ≤ 512 }
    ensures text { line.new ≡ line.old ++ fraction_text v }
    ensures short { length line.new ≤ length line.old + 84 }
{
    let mut number = [0u8; 84];
    let count = v.write_into(&mut number);
    line.put(&number[..count]);
}
