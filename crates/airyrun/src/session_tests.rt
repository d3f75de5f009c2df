use crate::tests::{Case, LARGE, ONE_INDEX, are_told, run_gated};
use fill_crew::{Gate, OpenGate, StopAfter};
use std::alloc::{AllocError, Global};
use std::test::Fail;
use std::thread::Threads;

/// Sessions whose replies are determined: no worker fills, or all asks stand behind `finish`, or the reply rests on the key alone.
const SESSIONS: [Case; 9] = [
    (
        "session wk 1 --workers=0 ask:0:0,0,0 finish ask:0:0,0,0",
        b"",
        0,
        b"not yet\n1\n",
    ),
    (
        "session wk 3 --workers=4 finish ask:0:1,0,0,0 ask:1:5 ask:3:7 ask:0:0,0,0,0",
        b"",
        0,
        b"3\nzero\nbeyond\nzero\n",
    ),
    (
        "session wk 3 --workers=0 ask:2:4 ask:1:255 ask:0:255,255,255,255,255,255 ask:1:2,1,0 finish ask:2:4 ask:1:2,1,0 ask:1:255",
        b"",
        0,
        b"not yet\nzero\nbeyond\nnot yet\n105/128\n15/4\nzero\n",
    ),
    (
        "session wk 3 --workers=2 ask:1:255 ask:2:0 ask:4:9",
        b"",
        0,
        b"zero\nzero\nbeyond\n",
    ),
    ("session wk 3 finish", b"", 0, b""),
    (
        "session bgw 3 finish ask:2:1 ask:0:0,0,0 ask:1:0,0",
        b"",
        0,
        b"9/128\nzero\n1/8\n",
    ),
    (
        "session wp 3 --workers=3 finish ask:2:0 ask:2:3 ask:2:4 ask:2:5 ask:0:0,0,0,0",
        b"",
        0,
        b"29/192 p^4\n203/192 p\n105/128\nzero\n2 p\n",
    ),
    (
        "session - 3 --workers=1 finish ask:2:0 ask:1:0,0,0 ask:1:1 ask:2:0,0 ask:2:9,0",
        ONE_INDEX,
        0,
        b"41/128\n23/8\nno such index\nbeyond\nbeyond\n",
    ),
    ("session wk 25 finish", b"", 5, b"refused: bound 25\n"),
];

/// A growth that is refused: the plan of a text with 32 indices has too many keys up to 3.
const REFUSED_GROWTH: [Case; 1] = [(
    "session - 2 --workers=0 grow:3 ask:1:0",
    b"airy 1\ndim 32\nend\n",
    0,
    b"not grown: cells at level 3\nnot yet\n",
)];

/// Sessions that raise their bound, or are refused for one.
const GROWTHS: [Case; 9] = [
    (
        "session wk 1 --workers=0 finish ask:0:0,0,0,1 grow:2 ask:0:0,0,0 ask:0:0,0,0,1 finish ask:0:0,0,0,1",
        b"",
        0,
        b"beyond\ngrown to 2\n1\nnot yet\n3\n",
    ),
    (
        "session wk 1 --workers=3 grow:02 grow:3 ask:1:9 finish ask:2:4 grow:5 finish ask:1:2,1,0",
        b"",
        0,
        b"grown to 2\ngrown to 3\nzero\n105/128\ngrown to 5\n15/4\n",
    ),
    (
        "session wp 1 finish ask:2:0 grow:3 finish ask:2:0 ask:2:4",
        b"",
        0,
        b"beyond\ngrown to 3\n29/192 p^4\n105/128\n",
    ),
    (
        "session - 1 grow:3 finish ask:0:0,0,0,0,0 grow:24",
        LARGE,
        0,
        b"grown to 3\nrests on 0,4 [0 0 0 0]\ngrown to 24\n",
    ),
    ("session wk 2 grow:2", b"", 2, b"refused: word 4\n"),
    ("session wk 2 grow:25", b"", 5, b"refused: bound 25\n"),
    ("session wk 0 grow:25 finish", b"", 5, b"refused: bound 0\n"),
    (
        "session wk 2 finish grow:24 grow:30 grow:999999999",
        b"",
        5,
        b"refused: bound 30\n",
    ),
    (
        "session - 1 grow:25 finish",
        b"no text",
        5,
        b"refused: bound 25\n",
    ),
];

#[test]
fn a_growth_that_is_refused(rt: HostRuntime) -> Result<(), Fail> {
    assert!(rt; are_told(&rt, rt.alloc(), &REFUSED_GROWTH)?);
    Ok(())
}

#[test]
fn sessions_that_grow(rt: HostRuntime) -> Result<(), Fail> {
    assert!(rt; are_told(&rt, rt.alloc(), &GROWTHS)?);
    Ok(())
}

#[test]
fn sessions_that_are_determined(rt: HostRuntime) -> Result<(), Fail> {
    assert!(rt; are_told(&rt, rt.alloc(), &SESSIONS)?);
    Ok(())
}

/// A script for a text with a number out of range, and its replies.
const LARGE_SCRIPT: &str =
    "finish ask:0:0,0,0 ask:0:0,0,0,0 ask:0:0,0,0,0,0 ask:1:0,0,0 ask:0:0,0,1";

const LARGE_REPLIES: &[u8] =
    b"85070591730234615865843651857942052864\nover\nrests on 0,4 [0 0 0 0]\n0\nno such index\n";

/// The line of that script with so many workers.
fn large_line(alloc: Global, crew: &str) -> Result<String, AllocError> {
    let mut line = String::from_str(alloc, "session - 3 --workers=")?;
    line.push_str(crew)?;
    line.push_str(" ")?;
    line.push_str(LARGE_SCRIPT)?;
    Ok(line)
}

/// Whether the replies are these for every crew, with this gate.
fn are_large<R: Threads + Sync, G: Gate + Sync>(
    rt: &R,
    alloc: Global,
    gate: &G,
) -> Result<bool, AllocError> {
    for crew in ["0", "1", "2", "8", "16"] {
        let line = large_line(alloc, crew)?;
        if !run_gated(rt, alloc, line.as_str(), LARGE, gate, 200)?.is(0, LARGE_REPLIES) {
            return Ok(false);
        }
    }
    Ok(true)
}

#[test]
fn sessions_of_every_crew(rt: HostRuntime) -> Result<(), Fail> {
    let open = are_large(&rt, rt.alloc(), &OpenGate)?;
    assert!(rt; open && are_large(&rt, rt.alloc(), &StopAfter { cells: 1 })?);
    Ok(())
}

#[test]
fn a_gate_that_lets_none_fill(rt: HostRuntime) -> Result<(), Fail> {
    let line = "session wk 1 --workers=1 ask:0:0,0,0 finish ask:0:0,0,0";
    let told = run_gated(&rt, rt.alloc(), line, b"", &StopAfter { cells: 0 }, 200)?;
    assert!(rt; told.is(0, b"not yet\n1\n"));
    Ok(())
}
