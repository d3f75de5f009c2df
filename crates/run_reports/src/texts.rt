ghost use Rattle.std.specs.Prelude.{◌≡◌, ◌≤◌, ◌<◌, length, IsTrue, OnOk};
ghost use Rattle.command_words.specs.Bounds.{is_bound};
ghost use Rattle.run_reports.specs.Inputs.{ReadsBounded, input_report};
ghost use Rattle.run_reports.specs.Report.{Ends};
ghost use Rattle.run_reports.specs.Texts.{kind_text, line_refused, text_report};

use crate::report::{refuse, refuse_bound, refuse_memory, say};
use airy_io::{LineText, Sink, Source};
use command_words::is_bound;
use sparse_tensor::Tensors;
use std::alloc::Global;
use tensor_text::{LineKind, TextErr, read_tensors};

/// Why a bound with a text behind it gives no tensors.
#[derive(Clone, Copy, Debug, PartialEq, Eq)]
pub enum InputErr {
    /// The bound isn't from 1 to 24: nothing was read.
    Bound(u32),
    Text(TextErr),
}

/// Reads the tensors of the source's text, where a table is made up to the bound.
pub fn read_bounded<S: Source>(alloc: Global, bound: u32, src: &mut S) -> Result<Tensors, InputErr>
    ensures read { ReadsBounded bound (S.state src.old) (S.state src.new) result }
    ensures bound { OnOk result (IsTrue (is_bound bound)) }
    ensures some { OnOk result (0 < bound) }
    ensures most { OnOk result (bound ≤ 24) }
{
    if !is_bound(bound) {
        return Err(InputErr::Bound(bound));
    }
    match read_tensors(alloc, src) {
        Ok(tensors) => Ok(tensors),
        Err(refusal) => Err(InputErr::Text(refusal)),
    }
}

/// Says why a bound with a text behind it gives no tensors.
#[tactic(auto, unfolding(crate::specs::Inputs::input_report))]
pub fn refuse_input<W: Sink>(out: &mut W, refusal: InputErr) -> u8
    ensures { Ends (input_report refusal) (W.state out.old) (W.state out.new) result }
{
    match refusal {
        InputErr::Bound(bound) => refuse_bound(out, bound),
        InputErr::Text(refusal) => refuse_text(out, refusal),
    }
}

/// Says why a text gives no tensors.
#[tactic(auto, unfolding(crate::specs::Texts::text_report, crate::specs::Texts::text_too_long, crate::specs::Texts::read_fault))]
pub fn refuse_text<W: Sink>(out: &mut W, refusal: TextErr) -> u8
    ensures { Ends (text_report refusal) (W.state out.old) (W.state out.new) result }
{
    match refusal {
        TextErr::ReadFault => say(out, 8, b"refused: read fault\n"),
        TextErr::TooLong => say(out, 3, b"refused: text too long\n"),
        TextErr::Line { line, kind } => refuse_line(out, line, kind),
        TextErr::NoMemory => refuse_memory(out),
    }
}

/// Refuses a line of a text.
#[tactic(auto, unfolding(crate::specs::Texts::line_refused))]
fn refuse_line<W: Sink>(out: &mut W, number: u32, kind: LineKind) -> u8
    ensures { Ends (line_refused number kind) (W.state out.old) (W.state out.new) result }
{
    let mut text = LineText::new();
    text.put_number(number);
    text.put(b" ");
    text.put(name_of(kind));
    refuse(out, 3, b"line ", text.bytes())
}

/// The name of a check of a text.
#[tactic(auto, unfolding(crate::specs::Texts::kind_text))]
fn name_of(kind: LineKind) -> &'static [u8]
    ensures name { result.now ≡ kind_text kind }
    ensures short { length result.now ≤ 6 }
{
    match kind {
        LineKind::Header => b"Header",
        LineKind::Dim => b"Dim",
        LineKind::Shape => b"Shape",
        LineKind::Word => b"Word",
        LineKind::Count => b"Count",
        LineKind::Index => b"Index",
        LineKind::Number => b"Number",
        LineKind::Grade => b"Grade",
        LineKind::Twice => b"Twice",
        LineKind::NoEnd => b"NoEnd",
        LineKind::After => b"After",
    }
}
