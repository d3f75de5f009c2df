ghost use Rattle.std.specs.Prelude.{◌≡◌, ◌<◌, ◌≤◌, ◌+◌, ◌*◌, ◌++◌, IsTrue, codes, decimal, length, map, take, Ok, None};
ghost use Rattle.airy_io.specs.Causes.{Writes};
ghost use Rattle.airy_math.specs.Keys.{euler};
ghost use Rattle.airy_math.specs.Jobs.{Wp};
ghost use Rattle.correlators.specs.Volumes.{part_of, parts_of};
ghost use Rattle.run_reports.specs.Report.{Ends, EndsOrWants, Report};
ghost use Rattle.run_reports.specs.Ends.{EndsBy, EndsByOrWants};
ghost use Rattle.airyrun.specs.Numbers.{IsDivision, IsQuotients, LeadsToVolume, joint, length_text};
ghost use Rattle.airyrun.specs.Numbers.{lengths_text, part_text, parts_text, takes_volume, terms_refused, volume_text};
ghost use Rattle.airyrun.specs.Valued.{IsValued};

use crate::valued::valued_table;
use airy_io::{Failed, LineText, Sink, write_all};
use airy_math::{Family, below_dim, planned_once};
use amp_plan::Plan;
use amp_terms::{Table, write_value};
use command_words::is_bound;
use correlators::{CorrErr, Term, counted, volume};
use itoa::Buffer;
use run_reports::{refuse, refuse_bound, refuse_key, refuse_memory};
use series_law::{job_uniqueness, same_tables};
use std::alloc::Global;

/// The greatest number of terms of a volume.
const MOST_TERMS: u64 = 100_000;

/// Does `volume G N`: prints the Weil-Petersson volume of a genus and a number of boundaries.
pub(crate) fn volume_of_pair<W: Sink>(alloc: Global, genus: u8, places: u8, out: &mut W) -> u8
    requires stable { 0 < euler genus places }
    requires some { 1 ≤ places }
    requires most { places ≤ 26 }
    ensures { EndsBy (LeadsToVolume genus places) (W.state out.old) (W.state out.new) result }
{
    let bound = 2 * genus as u32 + places as u32 - 2;
    if !is_bound(bound) {
        return refuse_bound(out, bound);
    }
    let terms = counted(genus, places);
    if terms > MOST_TERMS {
        return refuse_terms(out, terms);
    }
    match valued_table(alloc, Family::Wp, bound as u8, out) {
        Ok(valued) => print_volume(alloc, &valued.plan, &valued.table, genus, places, out),
        Err(status) => status,
    }
}

/// Refuses a number of terms.
fn refuse_terms<W: Sink>(out: &mut W, terms: u64) -> u8
    ensures { Ends (terms_refused terms) (W.state out.old) (W.state out.new) result }
{
    let mut buffer = Buffer::new();
    refuse(out, 5, b"terms ", buffer.format(terms).as_bytes())
}

/// Divides the Values of the pair's keys, and prints the volume.
fn print_volume<W: Sink>(
    alloc: Global,
    plan: &Plan,
    table: &Table,
    genus: u8,
    places: u8,
    out: &mut W,
) -> u8
    requires stable { 0 < euler genus places }
    requires some { 1 ≤ places }
    requires most { places ≤ 26 }
    requires takes { IsTrue (takes_volume genus places) }
    requires valued { IsValued Wp (euler genus places) plan.now table.now }
    ensures { EndsByOrWants (IsQuotients genus places) (W.state out.old) (W.state out.new) result }
{
    planned_once();
    below_dim();
    same_tables();
    job_uniqueness();
    match volume(alloc, plan, table, genus, places) {
        Ok(poly) => say_volume(&poly.terms, out),
        Err(refusal) => refuse_division(out, genus, places, refusal),
    }
}

/// Says why the Values of a pair's keys aren't divided.
#[tactic(auto, unfolding(crate::specs::Numbers::IsDivision))]
fn refuse_division<W: Sink>(out: &mut W, genus: u8, places: u8, refusal: CorrErr) -> u8
    requires { IsDivision genus places refusal }
    ensures { EndsByOrWants (IsQuotients genus places) (W.state out.old) (W.state out.new) result }
{
    match refusal {
        CorrErr::Over { key } => refuse_key(out, 6, b"over in volume at ", &key),
        CorrErr::NoMemory => refuse_memory(out),
        _ => unreachable!(),
    }
}

/// Writes the line of a volume.
fn say_volume<W: Sink>(terms: &[Term], out: &mut W) -> u8
    ensures { Ends (record { status = 0; bytes = volume_text (parts_of terms.now) }) (W.state out.old) (W.state out.new) result }
{
    match write_volume(terms, out) {
        Ok(()) => 0,
        Err(_) => 9,
    }
}

/// Writes the terms of a volume, joined by ` + `, or `0` where there is none.
#[tactic(auto, unfolding(crate::specs::Numbers::volume_text, correlators::specs::Volumes::parts_of))]
fn write_volume<W: Sink>(terms: &[Term], out: &mut W) -> Result<(), Failed>
    ensures { Writes (volume_text (parts_of terms.now)) (W.state out.old) (W.state out.new) result }
{
    match terms {
        [] => write_all(out, b"0\n"),
        [_, ..] => write_terms(terms, out),
    }
}

/// Writes the terms, each by one call where the sink takes it whole.
fn write_terms<W: Sink>(terms: &[Term], out: &mut W) -> Result<(), Failed>
    ensures { Writes (parts_text (parts_of terms.now)) (W.state out.old) (W.state out.new) result }
{
    let mut left = terms;
    while let Some((term, behind)) = left.split_first() {
        write_term(term, behind, out)?;
        left = behind;
    }
    Ok(())
}

/// Writes a term, and what stands behind it.
#[tactic(auto, unfolding(crate::specs::Numbers::part_text))]
fn write_term<W: Sink>(term: &Term, behind: &[Term], out: &mut W) -> Result<(), Failed>
    ensures { Writes (part_text (part_of term.now) ++ joint (parts_of behind.now)) (W.state out.old) (W.state out.new) result }
{
    let mut number = [0u8; 96];
    let end = write_value(term.coef, term.letter, &mut number);
    let mut line = LineText::new();
    line.put(&number[..end]);
    put_lengths(&mut line, 1, &term.powers);
    line.put(joint_of(behind));
    write_all(out, line.bytes())
}

/// What stands behind a term: ` + ` before another, and else the end of the line.
#[tactic(auto, unfolding(crate::specs::Numbers::joint, correlators::specs::Volumes::parts_of))]
fn joint_of(behind: &[Term]) -> &'static [u8]
    ensures value { result.now ≡ joint (parts_of behind.now) }
    ensures short { length result.now ≤ 3 }
{
    match behind {
        [] => b"\n",
        [_, ..] => b" + ",
    }
}

/// Puts ` Lk^m` for each power that isn't 0, counted from a place.
#[tactic(auto, unfolding(crate::specs::Numbers::lengths_text))]
fn put_lengths(line: &mut LineText, place: u8, powers: &[u8])
    requires places { place + length powers.now ≤ 99 }
    requires room { length line.old + 8 * length powers.now + 23 ≤ 512 }
    ensures text { line.new ≡ line.old ++ lengths_text place powers.now }
    ensures short { length line.new ≤ length line.old + 8 * length powers.now }
{
    if let Some((power, behind)) = powers.split_first() {
        put_length(line, place, *power);
        put_lengths(line, place + 1, behind);
    }
}

/// Puts ` Lk^m`, where the power m isn't 0.
#[tactic(auto, unfolding(crate::specs::Numbers::length_text))]
fn put_length(line: &mut LineText, place: u8, power: u8)
    requires place { place ≤ 99 }
    requires room { length line.old + 23 ≤ 512 }
    ensures text { line.new ≡ line.old ++ length_text place power }
    ensures short { length line.new ≤ length line.old + 8 }
{
    if power > 0 {
        line.put(b" L");
        line.put_number(place as u32);
        line.put(b"^");
        line.put_number(power as u32);
    }
}
