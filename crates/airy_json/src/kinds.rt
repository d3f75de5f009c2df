ghost use Rattle.std.specs.Prelude.{◌≡◌, ◌<◌, ◌≤◌, ◌^◌, length, None, Some, IfOk, IfErr, OnOk};
ghost use Rattle.named_families.specs.Families.{Names};
ghost use Rattle.airy_json.specs.Reading.{kind_of, making_over, AreOfKind};
ghost use Rattle.airy_json.specs.Steps.{kind_seen, IsUnread};

use crate::refusals::JsonErr;
use airy_math::Family;
use named_families::{MakeErr, bgw, wk, wp};
use sparse_tensor::Tensors;
use std::alloc::Global;
use tensor_text::{TextErr, read_text};

/// The kind of a table: a named structure, or the tensors of a text.
#[derive(Drop)]
pub(crate) enum TableKind {
    Named(Family),
    Text(Tensors),
}

/// The kind that a text says: one of the three names, or else the tensors that the grammar gives to it.
#[tactic(auto, unfolding(crate::specs::Reading::kind_of))]
pub(crate) fn read_kind(alloc: Global, text: &str) -> Result<TableKind, JsonErr>
    requires { length text.now < 2 ^ 31 }
    ensures kind { IfOk result (λ kind. kind_of text.now ≡ Some (kind_seen kind)) }
    ensures cause { IfErr result (λ e. IsUnread e (kind_of text.now)) }
{
    match text {
        "wk" => Ok(TableKind::Named(Family::Wk)),
        "bgw" => Ok(TableKind::Named(Family::Bgw)),
        "wp" => Ok(TableKind::Named(Family::Wp)),
        _ => match read_text(alloc, text.as_bytes()) {
            Ok(tensors) => Ok(TableKind::Text(tensors)),
            Err(TextErr::NoMemory) => Err(JsonErr::NoMemory),
            Err(_) => Err(JsonErr::Kind),
        },
    }
}

/// The tensors of a kind's plan up to a bound from 1 to 24.
#[tactic(auto, unfolding(crate::specs::Reading::making_over, crate::specs::Reading::AreOfKind, crate::specs::Reading::kind_tensors, airy_math::specs::Jobs::planned_tensors, named_families::specs::Families::Names))]
pub(crate) fn tensors_of(alloc: Global, kind: TableKind, bound: u8) -> Result<Tensors, MakeErr>
    requires some { 0 < bound }
    requires most { bound ≤ 24 }
    ensures tensors { IfOk result (AreOfKind (kind_seen kind) bound) }
    ensures made { OnOk result (making_over (kind_seen kind) bound ≡ None) }
    ensures over { IfErr result (λ e. Names e (making_over (kind_seen kind) bound)) }
{
    match kind {
        TableKind::Named(Family::Wk) => wk(alloc, bound).map_err(|_| MakeErr::NoMemory),
        TableKind::Named(Family::Bgw) => bgw(alloc, bound).map_err(|_| MakeErr::NoMemory),
        TableKind::Named(Family::Wp) => wp(alloc, bound),
        TableKind::Text(tensors) => Ok(tensors),
    }
}
