ghost use Rattle.std.specs.Prelude.{◌≡◌, ◌≢◌, ◌<◌, ◌≤◌, ◌++◌, IsTrue, codes};
ghost use Rattle.airy_math.specs.declared.Family.TheVariants.{Wp};
ghost use Rattle.frac128.specs.Fraction.{fraction_text};
ghost use Rattle.run_reports.specs.Report.{Ends, Report};
ghost use Rattle.run_reports.specs.Ends.{EndsBy};
ghost use Rattle.airyrun.specs.Numbers.{IsQuotient, LeadsToNumber, euler_of};
ghost use Rattle.airyrun.specs.Valued.{IsValued};
ghost use Rattle.run_reports.specs.StructureTables.{is_bound, structure_of};

use crate::valued::valued_table;
use airy_index::Key;
use airy_io::{LineText, Sink};
use airy_math::{Family, below_dim, planned_once};
use amp_plan::Plan;
use amp_terms::Table;
use command_words::is_bound;
use correlators::number;
use frac128::Frac;
use intersection_law::{norbury, witten};
use run_reports::{put_fraction, refuse_bound, refuse_key, say};
use series_law::{job_uniqueness, same_tables};
use std::alloc::Global;

/// Does `number FAMILY G D...`: prints the intersection number, or the Theta number, of a key.
pub(crate) fn number_of_family<W: Sink>(alloc: Global, family: Family, key: &Key, out: &mut W) -> u8
    requires family { family ≢ Wp }
    ensures { EndsBy (LeadsToNumber (structure_of family) key.now) (W.state out.old) (W.state out.new) result }
{
    let bound = key.euler() as u32;
    if !is_bound(bound) {
        return refuse_bound(out, bound);
    }
    match valued_table(alloc, family, bound as u8, out) {
        Ok(valued) => print_number(family, &valued.plan, &valued.table, key, out),
        Err(status) => status,
    }
}

/// Divides the Value of a key, and prints the number. Of a table in which each key has a Value, a division is refused only where one of its
/// steps leaves the range.
fn print_number<W: Sink>(family: Family, plan: &Plan, table: &Table, key: &Key, out: &mut W) -> u8
    requires family { family ≢ Wp }
    requires bound { IsTrue (is_bound (euler_of key.now)) }
    requires valued { IsValued (structure_of family) (euler_of key.now) plan.now table.now }
    ensures { EndsBy (IsQuotient (structure_of family) key.now) (W.state out.old) (W.state out.new) result }
{
    key.validity_fact();
    planned_once();
    below_dim();
    same_tables();
    job_uniqueness();
    witten();
    norbury();
    match number(plan, table, key) {
        Ok(number) => say_number(number, out),
        Err(_) => refuse_key(out, 6, b"over in number at ", key),
    }
}

/// Writes the line of a number.
fn say_number<W: Sink>(number: Frac, out: &mut W) -> u8
    ensures { Ends (record { status = 0; bytes = fraction_text number ++ codes "\n" }) (W.state out.old) (W.state out.new) result }
{
    let mut line = LineText::new();
    put_fraction(&mut line, number);
    line.put(b"\n");
    say(out, 0, line.bytes())
}
