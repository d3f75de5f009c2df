use crate::tests::{
    Case, LARGE, ONE_INDEX, ONE_INDEX_3, OPEN, WK_3, failing_text, sink_of, text_of, words_of,
};
use crate::top::serve;
use airy_io::{MemSink, Source};
use std::alloc::{AllocError, Global};
use std::process::ExitCode;
use std::test::Fail;
use std::thread::Threads;

/// A run of each status that words and text decide.
const ENDS: [Case; 8] = [
    ("table wk 3", b"", 0, WK_3),
    ("table - 3", ONE_INDEX, 0, ONE_INDEX_3),
    ("table wk", b"", 2, b"refused: word 3\n"),
    ("probe 1", b"", 3, b"refused: line 1 Header\n"),
    ("table - 1", OPEN, 4, b"refused: AA at 0 1 1: 1 and 0\n"),
    ("table wk 25", b"", 5, b"refused: bound 25\n"),
    ("probe 3", LARGE, 6, b"refused: over at 0,4 [0 0 0 0]\n"),
    (
        "probe 1",
        OPEN,
        7,
        b"refused: 0,3 [0 1 1] first 0 gives 1, first 1 gives 0\n",
    ),
];

/// Serves words from a source into a sink of which so many calls go well: whether that is the code, and these are the bytes.
fn serves<R: Threads + Sync, S: Source>(
    rt: &R,
    alloc: Global,
    line: &str,
    source: &mut S,
    fail_at: &[u32],
    want: (u8, &[u8]),
) -> Result<bool, AllocError> {
    let words = words_of(alloc, line)?;
    let mut sink = sink_of(alloc, 1000, fail_at)?;
    let code = code_of(rt, alloc, &words, source, &mut sink);
    Ok(code == ExitCode::from(want.0) && &sink.space[..sink.taken] == want.1)
}

/// The code of a program with these words.
fn code_of<R: Threads + Sync, S: Source>(
    rt: &R,
    alloc: Global,
    words: &[String],
    source: &mut S,
    sink: &mut MemSink,
) -> ExitCode {
    serve(rt, alloc, words, source, sink)
}

/// Whether each case ends with its status.
fn are_served<R: Threads + Sync>(
    rt: &R,
    alloc: Global,
    cases: &[Case],
) -> Result<bool, AllocError> {
    for (line, text, status, bytes) in cases.iter() {
        let mut source = text_of(alloc, text)?;
        if !serves(rt, alloc, line, &mut source, &[], (*status, *bytes))? {
            return Ok(false);
        }
    }
    Ok(true)
}

#[test]
fn the_exit_status_is_that_of_the_run(rt: HostRuntime) -> Result<(), Fail> {
    assert!(rt; are_served(&rt, rt.alloc(), &ENDS)?);
    Ok(())
}

#[test]
fn the_exit_status_of_a_source_that_fails(rt: HostRuntime) -> Result<(), Fail> {
    let mut source = failing_text(rt.alloc(), ONE_INDEX, 0)?;
    let want = (8u8, b"refused: read fault\n".as_slice());
    assert!(rt; serves(&rt, rt.alloc(), "probe 1", &mut source, &[], want)?);
    Ok(())
}

#[test]
fn the_exit_status_of_a_sink_that_fails(rt: HostRuntime) -> Result<(), Fail> {
    let mut source = text_of(rt.alloc(), ONE_INDEX)?;
    let want = (9u8, b"0,3 [0 0 0] 1\n".as_slice());
    assert!(rt; serves(&rt, rt.alloc(), "probe 1", &mut source, &[1], want)?);
    Ok(())
}
