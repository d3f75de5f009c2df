use crate::tests::{
    Case, LARGE, ONE_INDEX, ONE_INDEX_3, OPEN, TWO_INDICES, TWO_INDICES_1, WK_3, count_lines,
    failing_text, first_lines, run_gated, run_words, sink_of, text_of,
};
use fill_crew::OpenGate;
use std::alloc::{AllocError, Global};
use std::test::Fail;
use std::thread::Threads;

/// Each command, and a refusal of each status.
const WRITERS: [Case; 17] = [
    ("table wk 1", b"", 0, b"0,3 [0 0 0] 1\n1,1 [1] 1/8\n"),
    ("table wk 3", b"", 0, WK_3),
    ("table - 3 --workers 0", ONE_INDEX, 0, ONE_INDEX_3),
    ("probe 1", TWO_INDICES, 0, TWO_INDICES_1),
    ("relations 3 bgw", b"", 0, b"closed\n"),
    (
        "session wk 1 finish ask:0:0,0,0 ask:1:1",
        b"",
        0,
        b"1\n1/8\n",
    ),
    (
        "session wk 3 --workers=0 ask:2:4 finish ask:2:4 ask:1:9 ask:4:9",
        b"",
        0,
        b"not yet\n105/128\nzero\nbeyond\n",
    ),
    (
        "session - 3 finish ask:0:0,0,0,0 ask:0:0,0,0,0,0 ask:1:1",
        LARGE,
        0,
        b"over\nrests on 0,4 [0 0 0 0]\nno such index\n",
    ),
    (
        "session wk 1 --workers=0 ask:1:1 grow:2 finish ask:0:0,0,0,1",
        b"",
        0,
        b"not yet\ngrown to 2\n3\n",
    ),
    ("table wk 0", b"", 5, b"refused: bound 0\n"),
    ("table", b"", 2, b"refused: word 2\n"),
    ("session wk 1", b"", 2, b"refused: word 4\n"),
    ("probe 1", b"", 3, b"refused: line 1 Header\n"),
    ("table - 1", OPEN, 4, b"refused: AA at 0 1 1: 1 and 0\n"),
    (
        "session - 1 finish",
        OPEN,
        4,
        b"refused: AA at 0 1 1: 1 and 0\n",
    ),
    ("table - 3", LARGE, 6, b"refused: over at 0,4 [0 0 0 0]\n"),
    (
        "probe 1",
        OPEN,
        7,
        b"refused: 0,3 [0 1 1] first 0 gives 1, first 1 gives 0\n",
    ),
];

/// Whether a sink that fails at a call has the lines before it, and ends the run with 9; and, behind the last call, the run is as ever.
fn is_cut<R: Threads + Sync>(
    rt: &R,
    alloc: Global,
    case: &Case,
    call: u32,
) -> Result<bool, AllocError> {
    let (line, text, status, bytes) = *case;
    let status = if call < count_lines(bytes) { 9 } else { status };
    let mut source = text_of(alloc, text)?;
    let sink = sink_of(alloc, 1000, &[call])?;
    let told = run_words(rt, alloc, line, &mut source, &OpenGate, sink)?;
    Ok(told.is(status, first_lines(bytes, call)))
}

/// Whether each case is so at each call.
fn are_cut<R: Threads + Sync>(rt: &R, alloc: Global, cases: &[Case]) -> Result<bool, AllocError> {
    for case in cases.iter() {
        for call in 0..=count_lines(case.3) {
            if !is_cut(rt, alloc, case, call)? {
                return Ok(false);
            }
        }
    }
    Ok(true)
}

#[test]
fn sinks_that_fail_at_each_call(rt: HostRuntime) -> Result<(), Fail> {
    assert!(rt; are_cut(&rt, rt.alloc(), &WRITERS)?);
    Ok(())
}

/// Whether a sink of each room below 20 has the first bytes, and ends the run with 9.
fn are_narrow<R: Threads + Sync>(rt: &R, alloc: Global) -> Result<bool, AllocError> {
    for room in 0..20usize {
        let told = run_gated(rt, alloc, "table wk 2", b"", &OpenGate, room)?;
        if WK_3.get(..room) != Some(told.bytes()) || told.status != 9 {
            return Ok(false);
        }
    }
    Ok(true)
}

#[test]
fn a_sink_without_room(rt: HostRuntime) -> Result<(), Fail> {
    assert!(rt; are_narrow(&rt, rt.alloc())?);
    Ok(())
}

/// Whether a source that fails at this call, the last of so many, ends the run with 8.
fn is_fault<R: Threads + Sync>(
    rt: &R,
    alloc: Global,
    line: &str,
    (call, calls): (u32, u32),
) -> Result<bool, AllocError> {
    let mut source = failing_text(alloc, OPEN, call)?;
    let sink = sink_of(alloc, 200, &[])?;
    let told = run_words(rt, alloc, line, &mut source, &OpenGate, sink)?;
    Ok(told.is(8, b"refused: read fault\n") && source.calls == calls)
}

/// Whether each job with a text ends so.
fn are_faults<R: Threads + Sync>(rt: &R, alloc: Global) -> Result<bool, AllocError> {
    for line in [
        "table - 1",
        "probe 1",
        "relations 1 -",
        "session - 1 finish",
    ] {
        if !is_fault(rt, alloc, line, (0, 1))? || !is_fault(rt, alloc, line, (1, 2))? {
            return Ok(false);
        }
    }
    Ok(true)
}

#[test]
fn sources_that_fail(rt: HostRuntime) -> Result<(), Fail> {
    assert!(rt; are_faults(&rt, rt.alloc())?);
    Ok(())
}
