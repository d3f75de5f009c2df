ghost use Rattle.std.specs.Prelude.{◌<◌};

use crate::tests::{
    Case, LARGE, ONE_INDEX, ONE_INDEX_3, OPEN, TWO_INDICES, TWO_INDICES_1, WK_3, are_told,
    run_over, run_words, sink_of,
};
use airy_io::SlowSource;
use fill_crew::OpenGate;
use std::alloc::{AllocError, Global};
use std::test::Fail;
use std::thread::Threads;

/// The tables of named structures.
const TABLES: [Case; 8] = [
    ("table wk 1", b"", 0, b"0,3 [0 0 0] 1\n1,1 [1] 1/8\n"),
    (
        "table wk 2",
        b"",
        0,
        b"0,3 [0 0 0] 1\n1,1 [1] 1/8\n0,4 [0 0 0 1] 3\n1,2 [0 2] 5/8\n1,2 [1 1] 3/8\n",
    ),
    ("table wk 3", b"", 0, WK_3),
    ("table wk 000000003", b"", 0, WK_3),
    (
        "table bgw 3",
        b"",
        0,
        b"1,1 [0] 1/8\n1,2 [0 0] 1/8\n1,3 [0 0 0] 1/4\n2,1 [1] 9/128\n",
    ),
    ("table wk 0", b"", 5, b"refused: bound 0\n"),
    ("table wk 25", b"", 5, b"refused: bound 25\n"),
    ("table wk 999999999", b"", 5, b"refused: bound 999999999\n"),
];

#[test]
fn tables_of_named_structures(rt: HostRuntime) -> Result<(), Fail> {
    assert!(rt; are_told(&rt, rt.alloc(), &TABLES)?);
    Ok(())
}

/// Two copies of the structure with one index, up to 2.
const TWO_INDICES_2: &[u8] = b"\
    0,3 [0 0 0] 1\n0,3 [0 0 1] 1\n0,3 [0 1 1] 1\n0,3 [1 1 1] 2\n\
    1,1 [0] 1/8\n1,1 [1] 1/4\n\
    0,4 [0 0 0 0] 3\n0,4 [0 0 0 1] 3\n0,4 [0 0 1 1] 3\n0,4 [0 1 1 1] 3\n0,4 [1 1 1 1] 6\n\
    1,2 [0 0] 5/8\n1,2 [0 1] 5/8\n1,2 [1 1] 5/4\n";

/// A text whose lines end with carriage returns, and the same with one place named twice.
const RETURNS: &[u8] = b"airy 1\r\n# note\r\n\r\ndim 2\r\nC 0 0 1 1/2\r\nend\r\n";

const TWICE: &[u8] = b"airy 1\r\n# note\r\n\r\ndim 2\r\nC 0 0 1 1/2\r\nC 0 1 0 1/2\r\nend\r\n";

/// The tables of texts.
const TEXTS: [Case; 8] = [
    ("table - 3", ONE_INDEX, 0, ONE_INDEX_3),
    ("probe 3", ONE_INDEX, 0, ONE_INDEX_3),
    ("probe 1", ONE_INDEX, 0, b"0,3 [0 0 0] 1\n1,1 [0] 1/8\n"),
    ("table - 2", TWO_INDICES, 0, TWO_INDICES_2),
    ("probe 1", TWO_INDICES, 0, TWO_INDICES_1),
    (
        "table - 1",
        b"airy 1\ndim 1\nD 0 4/8\nend\n",
        0,
        b"0,3 [0 0 0] 0\n1,1 [0] 1/2\n",
    ),
    (
        "table - 1",
        RETURNS,
        0,
        b"0,3 [0 0 0] 0\n0,3 [0 0 1] 0\n0,3 [0 1 1] 0\n0,3 [1 1 1] 0\n1,1 [0] 0\n1,1 [1] 0\n",
    ),
    ("table - 25", b"", 5, b"refused: bound 25\n"),
];

#[test]
fn tables_of_texts(rt: HostRuntime) -> Result<(), Fail> {
    assert!(rt; are_told(&rt, rt.alloc(), &TEXTS)?);
    Ok(())
}

/// Whether a source that gives one byte at a time leads to the same.
fn is_slow<R: Threads + Sync>(rt: &R, alloc: Global, line: &str) -> Result<bool, AllocError> {
    let mut slow = SlowSource {
        bytes: Vec::from_slice(alloc, ONE_INDEX)?,
        at: 0,
    };
    let sink = sink_of(alloc, 200, &[])?;
    Ok(run_words(rt, alloc, line, &mut slow, &OpenGate, sink)?.is(0, ONE_INDEX_3))
}

#[test]
fn tables_of_a_slow_text(rt: HostRuntime) -> Result<(), Fail> {
    let table = is_slow(&rt, rt.alloc(), "table - 3")?;
    assert!(rt; table && is_slow(&rt, rt.alloc(), "probe 3")?);
    Ok(())
}

/// Texts that are refused.
const REFUSED_TEXTS: [Case; 14] = [
    ("table - 1", b"", 3, b"refused: line 1 Header\n"),
    ("probe 1", b"", 3, b"refused: line 1 Header\n"),
    ("session - 1 finish", b"", 3, b"refused: line 1 Header\n"),
    ("relations 1 -", b"", 3, b"refused: line 1 Header\n"),
    (
        "table - 1",
        b"airy 1\ndim 1\n",
        3,
        b"refused: line 3 NoEnd\n",
    ),
    (
        "table - 1",
        b"airy 1\ndim 1\nA 0 0 0 2/0\nend\n",
        3,
        b"refused: line 3 Number\n",
    ),
    (
        "table - 1",
        b"airy 1\ndim 1\nA 0 0 0 170141183460469231731687303715884105728\nend\n",
        3,
        b"refused: line 3 Number\n",
    ),
    ("table - 1", TWICE, 3, b"refused: line 6 Twice\n"),
    ("probe 1", TWICE, 3, b"refused: line 6 Twice\n"),
    (
        "table - 1",
        b"airy 1\ndim 33\nend\n",
        3,
        b"refused: line 2 Dim\n",
    ),
    (
        "table - 1",
        b"airy 1\ndim 2\nA 0 0 2 1\nend\n",
        3,
        b"refused: line 3 Index\n",
    ),
    (
        "table - 1",
        b"airy 1\ndim 1\nD 0\nend\n",
        3,
        b"refused: line 3 Count\n",
    ),
    (
        "table - 1",
        b"airy 1\ndim 1\nE 0 1\nend\n",
        3,
        b"refused: line 3 Word\n",
    ),
    (
        "table - 1",
        b"airy 1\ndim 1\nend\ndim 1\n",
        3,
        b"refused: line 4 After\n",
    ),
];

/// The text of one index up to some byte, with the status and the bytes of its table.
const CUTS: [(usize, u8, &[u8]); 5] = [
    (4, 3, b"refused: line 1 Header\n"),
    (48, 3, b"refused: line 7 NoEnd\n"),
    (49, 3, b"refused: line 6 Number\n"),
    (53, 3, b"refused: line 7 Word\n"),
    (54, 0, ONE_INDEX_3),
];

#[test]
fn refused_texts(rt: HostRuntime) -> Result<(), Fail> {
    assert!(rt; are_told(&rt, rt.alloc(), &REFUSED_TEXTS)?);
    Ok(())
}

/// Whether each of the cut texts leads to its status and bytes.
fn are_cut_texts<R: Threads + Sync>(rt: &R, alloc: Global) -> Result<bool, AllocError> {
    for (length, status, bytes) in CUTS.iter() {
        let text = ONE_INDEX.get(..*length).unwrap_or(b"");
        if !run_over(rt, alloc, "table - 3", text)?.is(*status, bytes) {
            return Ok(false);
        }
    }
    Ok(true)
}

#[test]
fn cut_texts(rt: HostRuntime) -> Result<(), Fail> {
    assert!(rt; are_cut_texts(&rt, rt.alloc())?);
    Ok(())
}

/// A text with one index and a comment that makes it so many bytes long.
fn long_text(alloc: Global, length: usize) -> Result<Vec<u8>, AllocError> {
    let mut text = Vec::from_slice(alloc, b"airy 1\ndim 1\nD 0 1/8\nend\n")?;
    for _ in text.len()..length {
        text.push(b'#')?;
    }
    Ok(text)
}

/// Whether a text leads to this status and these bytes, in a table and without its relations.
fn leads_to<R: Threads + Sync>(
    rt: &R,
    alloc: Global,
    text: &[u8],
    status: u8,
    bytes: &[u8],
) -> Result<bool, AllocError> {
    if !run_over(rt, alloc, "table - 1", text)?.is(status, bytes) {
        return Ok(false);
    }
    Ok(run_over(rt, alloc, "probe 1", text)?.is(status, bytes))
}

#[test]
fn the_longest_text(rt: HostRuntime) -> Result<(), Fail> {
    let text = long_text(rt.alloc(), 1_048_576)?;
    let bytes = b"0,3 [0 0 0] 0\n1,1 [0] 1/8\n";
    assert!(rt; leads_to(&rt, rt.alloc(), &text, 0, bytes)?);
    Ok(())
}

#[test]
fn a_longer_text(rt: HostRuntime) -> Result<(), Fail> {
    let text = long_text(rt.alloc(), 1_048_577)?;
    assert!(rt; leads_to(&rt, rt.alloc(), &text, 3, b"refused: text too long\n")?);
    Ok(())
}

#[test]
fn a_longer_note(rt: HostRuntime) -> Result<(), Fail> {
    let notes = vec![in rt.alloc(); b'#'; 1_048_577]?;
    assert!(rt; leads_to(&rt, rt.alloc(), &notes, 3, b"refused: text too long\n")?);
    Ok(())
}

/// A text in which a relation has a factor 2^64 twice.
const SQUARE: &[u8] =
    b"airy 1\ndim 2\nB 1 0 0 18446744073709551616\nD 0 18446744073709551616\nend\n";

/// A text that closes, in which a step at the greater pivot leaves the range. It is a structure with the entries A = 2^68 and B = 1
/// beside one with B = 2^60 alone, after the change of basis that adds 1/4 of the first index to the second.
const STEEP: &[u8] = b"\
    airy 1\ndim 2\n\
    A 0 0 0 295147905179352825856\nA 0 0 1 73786976294838206464\nA 0 1 1 18446744073709551616\n\
    A 1 0 0 73786976294838206464\nA 1 0 1 18446744073709551616\nA 1 1 1 4611686018427387904\n\
    B 0 0 0 1\nB 0 1 0 1/4\nB 1 0 0 1/4\nB 1 1 0 -4611686018427387903/16\nB 1 1 1 1152921504606846976\nend\n";

/// Relations that fail or leave the range, numbers that do, and orders that differ.
const CHECKS: [Case; 16] = [
    ("relations 3 wk", b"", 0, b"closed\n"),
    ("relations 3 bgw", b"", 0, b"closed\n"),
    ("relations 2 wp", b"", 0, b"closed\n"),
    ("relations 2 -", TWO_INDICES, 0, b"closed\n"),
    ("relations 1 -", b"airy 1\ndim 32\nend\n", 0, b"closed\n"),
    ("table - 1", OPEN, 4, b"refused: AA at 0 1 1: 1 and 0\n"),
    (
        "session - 1 finish",
        OPEN,
        4,
        b"refused: AA at 0 1 1: 1 and 0\n",
    ),
    (
        "relations 2 -",
        b"airy 1\ndim 2\nB 0 1 0 2\nB 1 1 1 1\nend\n",
        4,
        b"refused: BB at 0 1 1 0: 4 and 2\n",
    ),
    ("relations 2 -", SQUARE, 6, b"refused: over in D at 0 1\n"),
    ("table - 2", SQUARE, 6, b"refused: over in D at 0 1\n"),
    (
        "probe 2",
        SQUARE,
        6,
        b"refused: over at 1,2 [0 1] first 1\n",
    ),
    (
        "table - 3",
        STEEP,
        6,
        b"refused: over at 0,5 [0 0 0 1 1] first 1\n",
    ),
    ("table - 3", LARGE, 6, b"refused: over at 0,4 [0 0 0 0]\n"),
    ("probe 3", LARGE, 6, b"refused: over at 0,4 [0 0 0 0]\n"),
    (
        "probe 1",
        OPEN,
        7,
        b"refused: 0,3 [0 1 1] first 0 gives 1, first 1 gives 0\n",
    ),
    (
        "probe 3",
        OPEN,
        7,
        b"refused: 0,3 [0 1 1] first 0 gives 1, first 1 gives 0\n",
    ),
];

#[test]
fn relations_and_pivots_checked(rt: HostRuntime) -> Result<(), Fail> {
    assert!(rt; are_told(&rt, rt.alloc(), &CHECKS)?);
    Ok(())
}

/// Plans beyond a limit, and the first overflow of the longest table.
const LIMITS: [Case; 5] = [
    (
        "table - 3",
        b"airy 1\ndim 32\nend\n",
        5,
        b"refused: cells at level 3\n",
    ),
    (
        "probe 5",
        b"airy 1\ndim 32\nend\n",
        5,
        b"refused: cells at level 3\n",
    ),
    (
        "session - 3 finish",
        b"airy 1\ndim 32\nend\n",
        5,
        b"refused: cells at level 3\n",
    ),
    ("probe 0", b"", 5, b"refused: bound 0\n"),
    (
        "table wk 24",
        b"",
        6,
        b"refused: over at 10,6 [0 0 0 0 0 33]\n",
    ),
];

/// A digit of a number, for a power of ten.
fn digit(number: u32, power: u32) -> u8
    requires { 0 < power }
{
    b'0' + (number / power % 10) as u8
}

/// The text of ten indices in which each entry of B and of C is 1.
fn full_text(alloc: Global) -> Result<Vec<u8>, AllocError> {
    let mut text = Vec::from_slice(alloc, b"airy 1\ndim 10\n")?;
    for place in 0..1000u32 {
        let (i, j, k) = (digit(place, 100), digit(place, 10), digit(place, 1));
        text.extend_from_slice(&[b'B', b' ', i, b' ', j, b' ', k, b' ', b'1', b'\n'])?;
        if j <= k {
            text.extend_from_slice(&[b'C', b' ', i, b' ', j, b' ', k, b' ', b'1', b'\n'])?;
        }
    }
    text.extend_from_slice(b"end\n")?;
    Ok(text)
}

#[test]
fn limits_of_plans(rt: HostRuntime) -> Result<(), Fail> {
    assert!(rt; are_told(&rt, rt.alloc(), &LIMITS)?);
    Ok(())
}

#[test]
fn the_limit_of_needs(rt: HostRuntime) -> Result<(), Fail> {
    let text = full_text(rt.alloc())?;
    let told = run_over(&rt, rt.alloc(), "probe 6", &text)?;
    assert!(rt; told.is(5, b"refused: needs at 1,5 [4 4 4 7 7]\n"));
    Ok(())
}
