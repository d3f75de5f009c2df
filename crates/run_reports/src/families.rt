ghost use Rattle.std.specs.Prelude.{◌≡◌, ◌<◌, ◌≤◌, IfOk, IfErr, OnOk, None};
ghost use Rattle.named_families.specs.Families.{Names};
ghost use Rattle.run_reports.specs.Report.{Ends};
ghost use Rattle.run_reports.specs.StructureTables.{ArePlanned, making_error, making_over, structure_of};

use crate::report::{refuse_memory, refuse_number};
use airy_io::Sink;
use airy_math::Family;
use named_families::{MakeErr, bgw, wk, wp};
use sparse_tensor::Tensors;
use std::alloc::Global;

/// The tensors of a named structure that its table up to the bound needs.
#[tactic(auto, unfolding(crate::specs::StructureTables::making_over, crate::specs::StructureTables::structure_of, crate::specs::Structures::has_letter, airy_math::specs::Jobs::planned_tensors, named_families::specs::Families::Names))]
pub fn tensors_of(alloc: Global, family: Family, bound: u8) -> Result<Tensors, MakeErr>
    requires some { 0 < bound }
    requires most { bound ≤ 24 }
    ensures planned { IfOk result (λ t. ArePlanned t (structure_of family) bound) }
    ensures made { OnOk result (making_over (structure_of family) bound ≡ None) }
    ensures over { IfErr result (λ e. Names e (making_over (structure_of family) bound)) }
{
    match family {
        Family::Wk => wk(alloc, bound).map_err(|_| MakeErr::NoMemory),
        Family::Bgw => bgw(alloc, bound).map_err(|_| MakeErr::NoMemory),
        Family::Wp => wp(alloc, bound),
    }
}

/// Says why the tensors of a named structure aren't made.
#[tactic(auto, unfolding(crate::specs::StructureTables::making_error, crate::specs::Tables::making_report))]
pub fn refuse_making<W: Sink>(out: &mut W, refusal: MakeErr) -> u8
    ensures { Ends (making_error refusal) (W.state out.old) (W.state out.new) result }
{
    match refusal {
        MakeErr::Over { k } => refuse_number(out, 6, b"over in c ", k as u32),
        MakeErr::NoMemory => refuse_memory(out),
    }
}
