use crate::{Given, JsonErr, read_table};
use airy_io::{MemSource, SlowSource, SteadySource};
use amp_plan::PlanCause;
use std::alloc::{AllocError, Global};
use std::test::Fail;

const WK: &[u8] =
    b"{\"bound\":1,\"cells\":[{\"g\":0,\"i\":[0,0,0],\"v\":\"1\"},{\"g\":1,\"i\":[1],\"v\":\"1/8\"}],\"kind\":\"wk\"}";

/// How reading ended.
#[derive(Clone, Copy, PartialEq, Eq)]
enum End {
    Given,
    ReadFault,
    TooLong,
    NotJson,
    Form,
    Kind,
    Bound(u64),
    Make(u8),
    Cells(u8),
    OtherPlan,
    Cell(u32),
    NoMemory,
}

fn refusal_end(refusal: &JsonErr) -> End {
    match refusal {
        JsonErr::ReadFault => End::ReadFault,
        JsonErr::TooLong => End::TooLong,
        JsonErr::NotJson => End::NotJson,
        JsonErr::Form => End::Form,
        JsonErr::Kind => End::Kind,
        JsonErr::Bound { got } => End::Bound(*got),
        JsonErr::Make { k } => End::Make(*k),
        JsonErr::Plan {
            cause: PlanCause::Cells { level },
        } => End::Cells(*level),
        JsonErr::Plan { .. } => End::OtherPlan,
        JsonErr::Cell { place } => End::Cell(*place),
        JsonErr::NoMemory => End::NoMemory,
    }
}

fn end_of(answer: &Result<Given, JsonErr>) -> End {
    match answer {
        Ok(_) => End::Given,
        Err(refusal) => refusal_end(refusal),
    }
}

/// How reading these bytes ends.
fn reading(alloc: Global, bytes: Vec<u8>) -> End {
    let mut source = SteadySource { bytes, at: 0 };
    end_of(&read_table(alloc, &mut source))
}

fn joined(alloc: Global, before: &[u8], text: &[u8], behind: &[u8]) -> Result<Vec<u8>, AllocError> {
    let mut all = Vec::from_slice(alloc, before)?;
    all.extend_from_slice(text)?;
    all.extend_from_slice(behind)?;
    Ok(all)
}

/// Whether each text, between the two others, ends so.
fn end_so(
    alloc: Global,
    before: &[u8],
    behind: &[u8],
    rows: &[(&[u8], End)],
) -> Result<bool, AllocError> {
    for (text, wanted) in rows {
        if reading(alloc, joined(alloc, before, *text, behind)?) != *wanted {
            return Ok(false);
        }
    }
    Ok(true)
}

fn are_of_wk(given: &Given) -> bool {
    given.plan.bound() == 1
        && given.plan.len() == 2
        && given.values.len() == 2
        && given.values[0].parts() == (1, 1)
        && given.values[1].parts() == (1, 8)
}

/// Whether a source that gives one byte at a time gives the table of wk up to 1.
fn is_read_slowly(alloc: Global) -> Result<bool, AllocError> {
    let mut slow = SlowSource {
        bytes: Vec::from_slice(alloc, WK)?,
        at: 0,
    };
    match read_table(alloc, &mut slow) {
        Ok(given) => Ok(are_of_wk(&given)),
        Err(_) => Ok(false),
    }
}

#[test]
fn a_document_byte_by_byte(rt: HostRuntime) -> Result<(), Fail> {
    assert!(rt; is_read_slowly(rt.alloc())?);
    Ok(())
}

const TEXTS: [(&[u8], End); 10] = [
    (b"", End::NotJson),
    (b"\xef\xbb\xbf{}", End::NotJson),
    (b"\"\xff\"", End::NotJson),
    (b"{\"kind\":\"\\ud800\"}", End::NotJson),
    (b"{} {}", End::NotJson),
    (b"[]", End::Form),
    (b"{\"bound\":1,\"cells\":[]}", End::Form),
    (
        b"{\"bound\":1,\"cells\":[],\"kind\":\"wk\",\"v\":1}",
        End::Form,
    ),
    (b"{\"bound\":1,\"cells\":{},\"kind\":\"wk\"}", End::Form),
    (b"{\"bound\":1,\"cells\":[],\"kind\":[]}", End::Form),
];

const BOUNDS: [(&[u8], End); 10] = [
    (b"1.0", End::Form),
    (b"1e0", End::Form),
    (b"-0", End::Form),
    (b"-1", End::Form),
    (b"\"1\"", End::Form),
    (b"18446744073709551616", End::Form),
    (
        b"18446744073709551615",
        End::Bound(18_446_744_073_709_551_615),
    ),
    (b"0", End::Bound(0)),
    (b"25", End::Bound(25)),
    (b"01", End::NotJson),
];

fn are_forms_told(alloc: Global) -> Result<bool, AllocError> {
    Ok(
        end_so(alloc, b"", b"", TEXTS.as_slice())?
            && end_so(
                alloc,
                b"{\"bound\":",
                b",\"cells\":[],\"kind\":\"wk\"}",
                BOUNDS.as_slice(),
            )?,
    )
}

#[test]
fn forms(rt: HostRuntime) -> Result<(), Fail> {
    assert!(rt; are_forms_told(rt.alloc())?);
    Ok(())
}

const KINDS: [(&[u8], End); 6] = [
    (b"1,\"kind\":\"\"", End::Kind),
    (b"1,\"kind\":\"wk \"", End::Kind),
    (b"0,\"kind\":\"airy 1\\ndim 1\"", End::Kind),
    (b"14,\"kind\":\"wp\"", End::Make(20)),
    (b"24,\"kind\":\"airy 1\\ndim 32\\nend\"", End::Cells(3)),
    (b"1,\"kind\":\"wk\",\"kind\":\"bgw\"", End::Cell(1)),
];

const CELLS: [(&[u8], End); 12] = [
    (b"", End::Cell(0)),
    (b"{\"g\":0,\"i\":[0,0,0],\"v\":\"1\"}", End::Cell(1)),
    (
        b"{\"g\":0,\"i\":[0,0,0],\"v\":\"7\"},{\"g\":1,\"i\":[1],\"v\":\"+02/16\"}",
        End::Given,
    ),
    (
        b"{\"g\":0,\"i\":[0,0,0],\"v\":\"1\"},{\"g\":1,\"i\":[1],\"v\":\"1/8\"},1",
        End::Cell(2),
    ),
    (
        b"{\"g\":1,\"i\":[1],\"v\":\"1/8\"},{\"g\":0,\"i\":[0,0,0],\"v\":\"1\"}",
        End::Cell(0),
    ),
    (b"{\"g\":0,\"i\":[0,0],\"v\":\"1\"},1", End::Cell(0)),
    (b"{\"g\":0,\"i\":[0,0,0.0],\"v\":\"1\"},1", End::Cell(0)),
    (b"{\"g\":-0,\"i\":[0,0,0],\"v\":\"1\"},1", End::Cell(0)),
    (b"{\"g\":0,\"i\":[0,0,0],\"v\":1},1", End::Cell(0)),
    (b"{\"g\":0,\"i\":[0,0,0],\"v\":\"1/0\"},1", End::Cell(0)),
    (
        b"{\"g\":0,\"i\":[0,0,0],\"v\":\"1\",\"w\":0},1",
        End::Cell(0),
    ),
    (
        b"{\"g\":5,\"g\":0,\"v\":\"\",\"i\":[0,0,0],\"v\":\"1\"},1",
        End::Cell(1),
    ),
];

fn are_cells_told(alloc: Global) -> Result<bool, AllocError> {
    let one = b"{\"cells\":[{\"g\":1,\"i\":[0],\"v\":\"1/8\"},1],\"bound\":";
    Ok(
        end_so(alloc, one.as_slice(), b"}", KINDS.as_slice())?
            && end_so(
                alloc,
                b"{\"bound\":1,\"cells\":[",
                b"],\"kind\":\"wk\"}",
                CELLS.as_slice(),
            )?,
    )
}

#[test]
fn kinds_and_cells(rt: HostRuntime) -> Result<(), Fail> {
    assert!(rt; are_cells_told(rt.alloc())?);
    Ok(())
}

/// Whether a text that isn't canonical is a kind.
fn is_text_a_kind(alloc: Global) -> Result<bool, AllocError> {
    let text =
        b"{\"bound\":1,\"cells\":[{\"g\":0,\"i\":[0,0,0],\"v\":\"1\"},{\"g\":1,\"i\":[0],\"v\":\"-2\"}],\"kind\":\"airy 1\\r\\n\\n dim 01\\nend\"}";
    Ok(reading(alloc, Vec::from_slice(alloc, text.as_slice())?) == End::Given)
}

/// Whether the document, cut before each of its bytes, isn't JSON.
fn are_cuts_refused(alloc: Global) -> Result<bool, AllocError> {
    for len in 0..WK.len() {
        if reading(alloc, Vec::from_slice(alloc, &WK[..len])?) != End::NotJson {
            return Ok(false);
        }
    }
    Ok(true)
}

#[test]
fn cuts_and_another_text(rt: HostRuntime) -> Result<(), Fail> {
    assert!(rt; are_cuts_refused(rt.alloc())? && is_text_a_kind(rt.alloc())?);
    Ok(())
}

/// How a document whose cells are arrays in arrays ends, so many deep.
fn nested(alloc: Global, depth: usize) -> Result<End, AllocError> {
    let mut text = Vec::from_slice(alloc, b"{\"bound\":1,\"cells\":")?;
    text.extend_from_slice(vec![in alloc; b'['; depth]?.as_slice())?;
    text.extend_from_slice(vec![in alloc; b']'; depth]?.as_slice())?;
    text.extend_from_slice(b",\"kind\":\"wk\"}")?;
    Ok(reading(alloc, text))
}

#[test]
fn documents_that_nest(rt: HostRuntime) -> Result<(), Fail> {
    let alloc = rt.alloc();
    assert!(rt; nested(alloc, 126)? == End::Cell(0) && nested(alloc, 127)? == End::NotJson);
    Ok(())
}

/// How the document of wk ends behind so many spaces.
fn spaced(alloc: Global, spaces: usize) -> Result<End, AllocError> {
    let mut text = vec![in alloc; b' '; spaces]?;
    text.extend_from_slice(WK)?;
    Ok(reading(alloc, text))
}

fn are_longest_told(alloc: Global) -> Result<bool, AllocError> {
    let spaces = 16_777_216 - WK.len();
    Ok(spaced(alloc, spaces)? == End::Given && spaced(alloc, spaces + 1)? == End::TooLong)
}

#[test]
fn the_longest_document(rt: HostRuntime) -> Result<(), Fail> {
    assert!(rt; are_longest_told(rt.alloc())?);
    Ok(())
}

/// Whether a source that fails at its second call is told, with its fault.
fn is_fault_told(alloc: Global) -> Result<bool, AllocError> {
    let mut source = MemSource {
        bytes: Vec::from_slice(alloc, WK)?,
        at: 0,
        fail_at: vec![in alloc; 1u32]?,
        calls: 0,
        faults: 0,
    };
    Ok(end_of(&read_table(alloc, &mut source)) == End::ReadFault && source.faults == 1)
}

#[test]
fn a_source_that_fails(rt: HostRuntime) -> Result<(), Fail> {
    assert!(rt; is_fault_told(rt.alloc())?);
    Ok(())
}
