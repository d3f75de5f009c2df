ghost use Rattle.std.specs.Prelude.{◌≡◌, ◌≤◌, ◌+◌, ◌++◌, length, codes};
ghost use Rattle.frac128.specs.Fraction.{fraction_text};
ghost use Rattle.run_reports.specs.Report.{Ends, Report, refusal};
ghost use Rattle.run_reports.specs.Tables.{pivot_text, orders_text};

use crate::report::{put_fraction, refuse};
use airy_index::Key;
use airy_io::{LineText, Sink};
use frac128::Frac;

/// Says that a step of a key's pivot sum at one of its indices leaves the range: `over at KEY first I`.
pub fn refuse_pivot<W: Sink>(out: &mut W, key: &Key, pivot: u8) -> u8
    ensures { Ends (record { status = 6; bytes = refusal (codes "over at ") (pivot_text key.now pivot) })
        (W.state out.old) (W.state out.new) result }
{
    let mut text = LineText::new();
    put_pivot(&mut text, key, pivot);
    refuse(out, 6, b"over at ", text.bytes())
}

/// Says that two index orders of a key differ: `KEY first I gives V1, first J gives V2`.
#[tactic(auto, unfolding(crate::specs::Tables::orders_text))]
pub fn refuse_orders<W: Sink>(out: &mut W, key: &Key, first: (u8, Frac), second: (u8, Frac)) -> u8
    ensures { Ends (record { status = 7; bytes = refusal (codes "") (orders_text key.now first.0 first.1 second.0 second.1) })
        (W.state out.old) (W.state out.new) result }
{
    let mut text = LineText::new();
    put_pivot(&mut text, key, first.0);
    put_sum(&mut text, first.1);
    text.put(b", first ");
    text.put_number(u32::from(second.0));
    put_sum(&mut text, second.1);
    refuse(out, 7, b"", text.bytes())
}

/// Puts a pivot of a key at the end of a line, as `1,2 [0 2] first 2`.
#[tactic(auto, unfolding(crate::specs::Tables::pivot_text))]
fn put_pivot(line: &mut LineText, key: &Key, pivot: u8)
    requires { length line.old + 145 ≤ 512 }
    ensures text { line.new ≡ line.old ++ pivot_text key.now pivot }
    ensures short { length line.new ≤ length line.old + 145 }
{
    let mut name = [0u8; 128];
    let name_end = key.write_into(&mut name);
    line.put(&name[..name_end]);
    line.put(b" first ");
    line.put_number(u32::from(pivot));
}

/// Puts what a pivot gives at the end of a line.
fn put_sum(line: &mut LineText, sum: Frac)
    requires { length line.old + 91 ≤ 512 }
    ensures text { line.new ≡ line.old ++ codes " gives " ++ fraction_text sum }
    ensures short { length line.new ≤ length line.old + 91 }
{
    line.put(b" gives ");
    put_fraction(line, sum);
}
