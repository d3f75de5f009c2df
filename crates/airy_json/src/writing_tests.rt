ghost use Rattle.std.specs.Prelude.{◌≤◌, ◌<◌};

use crate::{canonical_text, table_json};
use airy_index::Shape;
use amp_plan::Plan;
use amp_terms::one_thread;
use frac128::Frac;
use named_families::{wk, wp};
use sparse_tensor::{PutErr, Tensors};
use std::alloc::Global;
use std::test::Fail;

/// Whether the document of the table of these tensors up to 1, of this kind, is this text.
fn writes(alloc: Global, kind: &str, tensors: Tensors, wanted: &str) -> Result<bool, Fail> {
    let Ok(plan) = Plan::make(alloc, tensors, 1) else {
        return Ok(false);
    };
    let table = one_thread(alloc, &plan)?;
    if table.first_not_value().is_some() {
        return Ok(false);
    }
    Ok(table_json(alloc, kind, &plan, &table)?.as_str() == wanted)
}

#[test]
fn a_named_structure(rt: HostRuntime) -> Result<(), Fail> {
    let wanted =
        "{\"bound\":1,\"cells\":[{\"g\":0,\"i\":[0,0,0],\"v\":\"1\"},{\"g\":1,\"i\":[1],\"v\":\"1/8\"}],\"kind\":\"wk\"}\n";
    assert!(rt; writes(rt.alloc(), "wk", wk(rt.alloc(), 1)?, wanted)?);
    Ok(())
}

/// The power of the letter, as in the amplitude 1/12 p of wp at 1,1 [0], isn't written.
fn writes_no_letter(alloc: Global) -> Result<bool, Fail> {
    let wanted =
        "{\"bound\":1,\"cells\":[{\"g\":0,\"i\":[0,0,0],\"v\":\"1\"},{\"g\":1,\"i\":[0],\"v\":\"1/12\"},{\"g\":1,\"i\":[1],\"v\":\"1/8\"}],\"kind\":\"wp\"}\n";
    match wp(alloc, 1) {
        Ok(tensors) => writes(alloc, "wp", tensors, wanted),
        Err(_) => Ok(false),
    }
}

#[test]
fn a_letter(rt: HostRuntime) -> Result<(), Fail> {
    assert!(rt; writes_no_letter(rt.alloc())?);
    Ok(())
}

/// Tensors with one index: A and D alone, with D below 0.
fn put_one_index(t: &mut Tensors) -> Result<(), PutErr> {
    t.put_a(0, 0, 0, Frac::whole(2))?;
    t.put_d(0, Frac::whole(-3))
}

#[tactic(auto, unfolding(sparse_tensor::specs::Grades::IsSmallLaw))]
fn writes_a_text_as_kind(alloc: Global) -> Result<bool, Fail> {
    let mut tensors = Tensors::empty(alloc, 1, Shape::All, false)?;
    put_one_index(&mut tensors)?;
    if tensors.dim() > 32 {
        return Ok(false);
    }
    let kind = canonical_text(alloc, &tensors)?;
    let wanted =
        "{\"bound\":1,\"cells\":[{\"g\":0,\"i\":[0,0,0],\"v\":\"2\"},{\"g\":1,\"i\":[0],\"v\":\"-3\"}],\"kind\":\"airy 1\\ndim 1\\nA 0 0 0 2\\nD 0 -3\\nend\\n\"}\n";
    Ok(
        kind.as_str() == "airy 1\ndim 1\nA 0 0 0 2\nD 0 -3\nend\n"
            && writes(alloc, kind.as_str(), tensors, wanted)?,
    )
}

#[test]
fn a_text_as_kind(rt: HostRuntime) -> Result<(), Fail> {
    assert!(rt; writes_a_text_as_kind(rt.alloc())?);
    Ok(())
}
