ghost use Rattle.std.specs.Prelude.{◌≡◌, ◌<◌, ◌≤◌, ◌+◌, ◌*◌, IfOk, IfErr, OnOk, None, IsTrue};
ghost use Rattle.airy_math.specs.Tensors.{SameEntries};
ghost use Rattle.sparse_tensor.specs.Entries.{looked_up};
ghost use Rattle.named_families.specs.Families.{Names};
ghost use Rattle.command_words.specs.Asked.{IsPlaces};
ghost use Rattle.run_reports.specs.Report.{EndsOrWants};
ghost use Rattle.airyrun.specs.Relations.{family_over, family_tensors};
ghost use Rattle.run_reports.specs.Ends.{EndsBy};
ghost use Rattle.airyrun.specs.Run.{LeadsToFamilyRelations};
ghost use Rattle.run_reports.specs.StructureTables.{EndsTable, is_bound, structure_of, table_report};
ghost use Rattle.run_reports.specs.Structures.{has_letter};

use airy_io::Sink;
use airy_math::{Family, below_dim, planned_once};
use airy_relations::same_verdict;
use command_words::is_bound;
use fill_crew::Gate;
use named_families::{MakeErr, bgw_closes, bgw_cut, wk_closes, wk_cut, wp_closes, wp_cut};
use run_reports::{print_stored, refuse_bound, refuse_making, say_relations, tensors_of};
use series_law::same_tables;
use sparse_tensor::Tensors;
use std::alloc::Global;
use std::thread::Threads;

/// Does `table KIND X` for a named structure.
pub(crate) fn table_of_family<R: Threads + Sync, W: Sink, G: Gate + Sync>(
    rt: &R,
    alloc: Global,
    family: Family,
    bound: u32,
    workers: u8,
    gate: &G,
    out: &mut W,
) -> u8
    requires { workers ≤ 16 }
    ensures { EndsTable (structure_of family) bound (W.state out.old) (W.state out.new) result }
{
    if is_bound(bound) {
        made_table(rt, alloc, family, bound as u8, workers, gate, out)
    } else {
        refuse_bound(out, bound)
    }
}

/// Makes the tensors of a named structure, plans, fills, checks and prints their table.
fn made_table<R: Threads + Sync, W: Sink, G: Gate + Sync>(
    rt: &R,
    alloc: Global,
    family: Family,
    bound: u8,
    workers: u8,
    gate: &G,
    out: &mut W,
) -> u8
    requires workers { workers ≤ 16 }
    requires within { IsTrue (is_bound bound) }
    requires some { 0 < bound }
    requires most { bound ≤ 24 }
    ensures { EndsOrWants (table_report (structure_of family) bound) (W.state out.old) (W.state out.new) result }
{
    planned_once();
    below_dim();
    same_tables();
    match tensors_of(alloc, family, bound) {
        Ok(tensors) => print_stored(rt, alloc, tensors, bound, workers, gate, out),
        Err(refusal) => refuse_making(out, refusal),
    }
}

/// Does `relations N KIND` for a named structure.
pub(crate) fn relations_of_family<W: Sink>(
    alloc: Global,
    places: u8,
    family: Family,
    out: &mut W,
) -> u8
    requires { IsPlaces places }
    ensures { EndsBy (LeadsToFamilyRelations family places) (W.state out.old) (W.state out.new) result }
{
    same_verdict();
    below_dim();
    wk_closes();
    bgw_closes();
    wp_closes();
    match tensors_below(alloc, places, family) {
        Ok(tensors) => say_relations(&tensors, places, out),
        Err(refusal) => refuse_making(out, refusal),
    }
}

/// The tensors of a named structure with all indices that the relations in the places below N read: up to 2N, and for wp with the
/// exponents up to 2N + 1.
#[tactic(auto, unfolding(crate::specs::Relations::family_tensors, crate::specs::Relations::family_over, run_reports::specs::StructureTables::structure_of, run_reports::specs::Structures::has_letter, named_families::specs::Families::Names))]
fn tensors_below(alloc: Global, places: u8, family: Family) -> Result<Tensors, MakeErr>
    requires { IsPlaces places }
    ensures entries { IfOk result (λ t. SameEntries (looked_up t) (family_tensors family places)) }
    ensures letter { IfOk result (λ t. t.letter ≡ has_letter (structure_of family)) }
    ensures made { OnOk result (family_over family places ≡ None) }
    ensures over { IfErr result (λ e. Names e (family_over family places)) }
{
    let dim = 2 * places + 1;
    match family {
        Family::Wk => wk_cut(alloc, dim).map_err(|_| MakeErr::NoMemory),
        Family::Bgw => bgw_cut(alloc, dim).map_err(|_| MakeErr::NoMemory),
        Family::Wp => wp_cut(alloc, dim, dim),
    }
}
