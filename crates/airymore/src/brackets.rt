ghost use Rattle.std.specs.Prelude.{◌≡◌, ◌≢◌, ◌≤◌, ◌+◌, ◌++◌, codes, length, Some, None};
ghost use Rattle.airy_io.specs.Causes.{Writes};
ghost use Rattle.sparse_tensor.specs.Entries.{looked_up};
ghost use Rattle.run_reports.specs.Report.{Ends, Report, refusal};
ghost use Rattle.run_reports.specs.Ends.{EndsBy, EndsOfText};
ghost use Rattle.airymore.specs.Places.{places, IsPlace};
ghost use Rattle.airymore.specs.Brackets.{first_over, number_text, number_at, numbers_report};
ghost use Rattle.airymore.specs.Brackets.{numbers_text, obtained_at, place_text, LeadsToBrackets};

use crate::places::{Place, first_place, next_place};
use airy_closing::{bracket, bracket_law, closing};
use airy_index::put_indices;
use airy_io::{Failed, LineText, Sink, Source, write_all};
use airy_relations::Verdict;
use frac128::Frac;
use run_reports::{put_fraction, refuse, refuse_text, say_verdict};
use sparse_tensor::Tensors;
use std::alloc::Global;
use tensor_text::read_tensors;

/// Does `brackets`: reads a text, and prints the numbers of the brackets of its operators, where these close.
pub(crate) fn brackets<S: Source, W: Sink>(alloc: Global, src: &mut S, out: &mut W) -> u8
    ensures { EndsOfText LeadsToBrackets (S.state src.old) (S.state src.new) (W.state out.old) (W.state out.new) result }
{
    match read_tensors(alloc, src) {
        Ok(tensors) => print_closing(&tensors, out),
        Err(refusal) => refuse_text(out, refusal),
    }
}

/// Prints the numbers of the brackets, or says which relation fails first.
fn print_closing<W: Sink>(tensors: &Tensors, out: &mut W) -> u8
    ensures { EndsBy (LeadsToBrackets tensors.now) (W.state out.old) (W.state out.new) result }
{
    bracket_law();
    tensors.soundness_fact();
    match closing(tensors) {
        Verdict::Closed => print_obtained(tensors, out),
        fails => say_verdict(&fails, out),
    }
}

/// Prints the numbers of the brackets, or names the first that isn't obtained. Nothing is written before all are looked at.
fn print_obtained<W: Sink>(tensors: &Tensors, out: &mut W) -> u8
    ensures { Ends (numbers_report (looked_up tensors.now) tensors.now.dim) (W.state out.old) (W.state out.new) result }
{
    match find_over(tensors) {
        Some(place) => refuse_place(place, out),
        None => print_numbers(tensors, out),
    }
}

/// The first place whose number isn't obtained.
fn find_over(tensors: &Tensors) -> Option<Place>
    ensures { result ≡ first_over (looked_up tensors.now) (places tensors.now.dim) }
{
    let mut at = first_place(tensors.dim());
    while let Some(place) = at {
        if bracket(tensors, place.i, place.j, place.a).is_none() {
            return Some(place);
        }
        at = next_place(tensors.dim(), place);
    }
    None
}

/// Says that a number of a bracket isn't obtained.
fn refuse_place<W: Sink>(place: Place, out: &mut W) -> u8
    ensures { Ends (record { status = 6; bytes = refusal (codes "over in bracket at ") (place_text place) })
        (W.state out.old) (W.state out.new) result }
{
    let mut text = LineText::new();
    put_place(&mut text, place);
    refuse(out, 6, b"over in bracket at ", text.bytes())
}

/// Puts `I J A` at the end of a line.
#[tactic(auto, unfolding(crate::specs::Brackets::place_text))]
fn put_place(line: &mut LineText, place: Place)
    requires { length line.old + 12 ≤ 512 }
    ensures text { line.new ≡ line.old ++ place_text place }
    ensures short { length line.new ≤ length line.old + 12 }
{
    let mut indices = [0u8; 12];
    let end = put_indices(&mut indices, 0, &[place.i, place.j, place.a]);
    line.put(&indices[..end]);
}

/// Prints the numbers of the brackets, all of which are obtained.
fn print_numbers<W: Sink>(tensors: &Tensors, out: &mut W) -> u8
    requires { first_over (looked_up tensors.now) (places tensors.now.dim) ≡ None }
    ensures { Ends (record { status = 0; bytes = numbers_text (looked_up tensors.now) (places tensors.now.dim) ++ codes "closed\n" })
        (W.state out.old) (W.state out.new) result }
{
    match write_closed(tensors, out) {
        Ok(()) => 0,
        Err(_) => 9,
    }
}

/// Writes the lines of the numbers, and `closed`.
fn write_closed<W: Sink>(tensors: &Tensors, out: &mut W) -> Result<(), Failed>
    requires { first_over (looked_up tensors.now) (places tensors.now.dim) ≡ None }
    ensures { Writes (numbers_text (looked_up tensors.now) (places tensors.now.dim) ++ codes "closed\n")
        (W.state out.old) (W.state out.new) result }
{
    write_numbers(tensors, out)?;
    write_all(out, b"closed\n")
}

/// Writes the lines of the numbers, each by one call where the sink takes it whole.
fn write_numbers<W: Sink>(tensors: &Tensors, out: &mut W) -> Result<(), Failed>
    requires { first_over (looked_up tensors.now) (places tensors.now.dim) ≡ None }
    ensures { Writes (numbers_text (looked_up tensors.now) (places tensors.now.dim)) (W.state out.old) (W.state out.new) result }
{
    let mut at = first_place(tensors.dim());
    while let Some(place) = at {
        write_number(tensors, place, out)?;
        at = next_place(tensors.dim(), place);
    }
    Ok(())
}

/// Writes the line of the number at a place, where it isn't 0.
fn write_number<W: Sink>(tensors: &Tensors, place: Place, out: &mut W) -> Result<(), Failed>
    requires place { IsPlace tensors.now.dim place }
    requires obtained { obtained_at (looked_up tensors.now) place ≢ None }
    ensures { Writes (number_text place (number_at (looked_up tensors.now) place)) (W.state out.old) (W.state out.new) result }
{
    match bracket(tensors, place.i, place.j, place.a) {
        Some(number) => write_line(place, number, out),
        None => Ok(()),
    }
}

/// Writes `I J A FRACTION`, where the fraction isn't 0.
#[tactic(auto, unfolding(crate::specs::Brackets::number_text))]
fn write_line<W: Sink>(place: Place, number: Frac, out: &mut W) -> Result<(), Failed>
    ensures { Writes (number_text place number) (W.state out.old) (W.state out.new) result }
{
    if number.is_zero() {
        return Ok(());
    }
    let mut line = LineText::new();
    put_place(&mut line, place);
    line.put(b" ");
    put_fraction(&mut line, number);
    line.put(b"\n");
    write_all(out, line.bytes())
}
