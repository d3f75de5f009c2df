ghost use Rattle.std.specs.Prelude.{◌≡◌, ◌<◌, ◌≤◌, ◌+◌, ◌^◌, length, Err};
ghost use Rattle.sparse_tensor.specs.Entries.{no_entries};
ghost use Rattle.tensor_text.specs.Lines.{lines};
ghost use Rattle.tensor_text.specs.Grammar.{counted, reading_of, header_from, dim_from, shape_from, entries_from, after_end};
ghost use Rattle.tensor_text.specs.Answers.{Gives};
ghost use Rattle.tensor_text.specs.Steps.{IsAllowed};

use crate::entries::{Said, read_line};
use crate::lines::{Next, next_line};
use crate::refusals::{LineKind, TextErr};
use crate::shapes::read_shape_line;
use crate::words::{read_dim_line, read_header};
use sparse_tensor::{Shape, Tensors};
use std::alloc::Global;

/// The tensors that the grammar gives to a text of fewer than 2^31 bytes, with their shape and letter.
///
/// `Line` comes exactly where the grammar refuses the text, with its first refused line and the first check that fails there;
/// `NoMemory` for want of memory. It answers neither `ReadFault` nor `TooLong`.
#[tactic(auto, unfolding(crate::specs::Grammar::reading_of, crate::specs::Grammar::header_from, crate::specs::Grammar::header_read))]
pub fn read_text(alloc: Global, text: &[u8]) -> Result<Tensors, TextErr>
    requires { length text.now < 2 ^ 31 }
    ensures { Gives result (reading_of text.now) }
{
    match next_line(text, 1) {
        Next::End { number } => refused(number, LineKind::Header),
        Next::Line {
            number,
            word,
            more,
            behind,
        } => match read_header(word, more) {
            None => refused(number, LineKind::Header),
            Some(has_shape) => read_dim(alloc, has_shape, behind, number + 1),
        },
    }
}

/// A refused line.
fn refused(line: u32, kind: LineKind) -> Result<Tensors, TextErr>
    ensures { result ≡ Err (TextErr.Line line kind) }
{
    Err(TextErr::Line { line, kind })
}

/// Reads what stands behind the header.
#[tactic(auto, unfolding(crate::specs::Grammar::dim_from, crate::specs::Grammar::dim_read, sparse_tensor::specs::Grades::IsSmallLaw))]
fn read_dim(alloc: Global, has_shape: bool, text: &[u8], first: u32) -> Result<Tensors, TextErr>
    requires { first + length text.now < 2 ^ 32 }
    ensures { Gives result (dim_from has_shape (counted first (lines text.now))) }
{
    match next_line(text, first) {
        Next::End { number } => refused(number, LineKind::Dim),
        Next::Line {
            number,
            word,
            more,
            behind,
        } => match read_dim_line(word, more) {
            None => refused(number, LineKind::Dim),
            Some(dim) => {
                if has_shape {
                    read_shape(alloc, dim, behind, number + 1)
                } else {
                    read_shaped(alloc, dim, (Shape::All, false), behind, number + 1)
                }
            }
        },
    }
}

/// Reads what stands behind the dim line of `airy 2`.
#[tactic(auto, unfolding(crate::specs::Grammar::shape_from, crate::specs::Grammar::shape_read))]
fn read_shape(alloc: Global, dim: u8, text: &[u8], first: u32) -> Result<Tensors, TextErr>
    requires some { 0 < dim }
    requires most { dim ≤ 32 }
    requires small { first + length text.now < 2 ^ 32 }
    ensures { Gives result (shape_from dim (counted first (lines text.now))) }
{
    match next_line(text, first) {
        Next::End { number } => refused(number, LineKind::Shape),
        Next::Line {
            number,
            word,
            more,
            behind,
        } => match read_shape_line(word, more) {
            None => refused(number, LineKind::Shape),
            Some(shaped) => read_shaped(alloc, dim, shaped, behind, number + 1),
        },
    }
}

/// Reads what stands behind the first lines, where they say this dim, this shape and whether there is a letter.
fn read_shaped(
    alloc: Global,
    dim: u8,
    shaped: (Shape, bool),
    text: &[u8],
    first: u32,
) -> Result<Tensors, TextErr>
    requires some { 0 < dim }
    requires most { dim ≤ 32 }
    requires allowed { IsAllowed shaped }
    requires small { first + length text.now < 2 ^ 32 }
    ensures { Gives result (entries_from (no_entries dim shaped.0 shaped.1) (counted first (lines text.now))) }
{
    let (shape, letter) = shaped;
    match Tensors::empty(alloc, dim, shape, letter) {
        Err(_) => Err(TextErr::NoMemory),
        Ok(tensors) => read_entries(tensors, text, first),
    }
}

/// Reads the entries, and what stands behind them.
fn read_entries(mut tensors: Tensors, text: &[u8], first: u32) -> Result<Tensors, TextErr>
    requires { first + length text.now < 2 ^ 32 }
    ensures { Gives result (entries_from tensors (counted first (lines text.now))) }
{
    let mut rest = text;
    let mut at = first;
    loop {
        match next_line(rest, at) {
            Next::End { number } => return refused(number, LineKind::NoEnd),
            Next::Line {
                number,
                word,
                more,
                behind,
            } => {
                match read_line(&mut tensors, word, more) {
                    Ok(Said::Entry) => {}
                    Ok(Said::End) => return read_end(tensors, behind, number + 1),
                    Err(refusal) => return Err(refusal.at(number)),
                }
                rest = behind;
                at = number + 1;
            }
        }
    }
}

/// Reads what stands behind `end`.
#[tactic(auto, unfolding(crate::specs::Grammar::after_end))]
fn read_end(tensors: Tensors, text: &[u8], first: u32) -> Result<Tensors, TextErr>
    requires { first + length text.now < 2 ^ 32 }
    ensures { Gives result (after_end tensors (counted first (lines text.now))) }
{
    match next_line(text, first) {
        Next::End { .. } => Ok(tensors),
        Next::Line { number, .. } => refused(number, LineKind::After),
    }
}
