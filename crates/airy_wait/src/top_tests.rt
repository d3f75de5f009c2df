use crate::top::{run_waiting, serve};
use airy_io::{MemSink, MemSource, Source, SteadySource};
use std::alloc::{AllocError, Global};
use std::process::ExitCode;
use std::sync::Wait;
use std::test::Fail;
use std::thread::Threads;

/// The words of a run, parted by blanks; what its source gives; the status that it answers; what it writes.
type Case = (&'static str, &'static [u8], u8, &'static [u8]);

/// The words of a line, which are parted by blanks.
fn words_of(alloc: Global, line: &str) -> Result<Vec<String>, AllocError> {
    let mut words = Vec::new(alloc);
    for word in line.split_whitespace() {
        words.push(String::from_str(alloc, word)?)?;
    }
    Ok(words)
}

/// A sink that fails at the calls with these numbers.
fn sink_of(alloc: Global, fail_at: &[u32]) -> Result<MemSink, AllocError> {
    Ok(MemSink {
        space: vec![in alloc; 0u8; 1 << 12]?,
        taken: 0,
        fail_at: Vec::from_slice(alloc, fail_at)?,
        calls: 0,
        faults: 0,
    })
}

/// The status of a run.
fn status_of<R: Threads + Wait + Sync, S: Source>(
    rt: &R,
    alloc: Global,
    words: &[String],
    source: &mut S,
    sink: &mut MemSink,
) -> u8 {
    run_waiting(rt, alloc, words, source, sink)
}

/// Whether words over a source, with a sink that fails at some calls, lead to this status and these bytes.
fn leads_to<R: Threads + Wait + Sync, S: Source>(
    rt: &R,
    alloc: Global,
    words: &[String],
    source: &mut S,
    fail_at: &[u32],
    want: (u8, &[u8]),
) -> Result<bool, AllocError> {
    let mut sink = sink_of(alloc, fail_at)?;
    let status = status_of(rt, alloc, words, source, &mut sink);
    Ok(status == want.0 && &sink.space[..sink.taken] == want.1)
}

fn steady(alloc: Global, text: &[u8]) -> Result<SteadySource, AllocError> {
    Ok(SteadySource {
        bytes: Vec::from_slice(alloc, text)?,
        at: 0,
    })
}

/// Whether a case answers its status and writes its bytes, with a sink that fails at some calls.
fn is_told<R: Threads + Wait + Sync>(
    rt: &R,
    alloc: Global,
    case: &Case,
    fail_at: &[u32],
) -> Result<bool, AllocError> {
    let words = words_of(alloc, case.0)?;
    let mut source = steady(alloc, case.1)?;
    leads_to(rt, alloc, &words, &mut source, fail_at, (case.2, case.3))
}

/// Whether each case does, where no call fails.
fn are_told<R: Threads + Wait + Sync>(
    rt: &R,
    alloc: Global,
    cases: &[Case],
) -> Result<bool, AllocError> {
    for case in cases.iter() {
        if !is_told(rt, alloc, case, &[])? {
            return Ok(false);
        }
    }
    Ok(true)
}

/// A text with one index and an entry 2^126, of which three are out of range.
const LARGE: &[u8] =
    b"airy 1\ndim 1\nA 0 0 0 85070591730234615865843651857942052864\nB 0 0 0 1\nend\n";

/// A text whose entries of A aren't those of operators that close.
const OPEN: &[u8] = b"airy 1\ndim 2\nA 0 1 1 1\nend\n";

/// A structure of two indices with a letter.
const LETTER: &[u8] =
    b"airy 2\ndim 2\nshape atmost 3 1 letter\nA 0 0 0 1\nD 0 1/12\nD 1 1/8\nend\n";

/// Replies, in the order of the words, whoever asks.
const REPLIES: [Case; 9] = [
    (
        "wk 3 2 2 0:1,0,0,0 1:5 3:7 0:0,0,0,0",
        b"",
        0,
        b"3\nzero\nbeyond\nzero\n",
    ),
    (
        "- 3 1 1 0:0,0,0,0 0:0,0,0,0,0",
        LARGE,
        0,
        b"over\nrests on 0,4 [0 0 0 0]\n",
    ),
    (
        "- 3 16 8 0:0,0,1 0:0,0,0 1:0,0,0 0:0,0,0,0,0 2:0,0",
        LARGE,
        0,
        b"no such index\n85070591730234615865843651857942052864\n0\nrests on 0,4 [0 0 0 0]\nbeyond\n",
    ),
    ("- 1 3 2 1:9 1:0 1:1", LETTER, 0, b"zero\n1/12 p\n1/8\n"),
    (
        "bgw 3 2 3 2:1 1:0 1:0,0,0 1:0,0 2:2",
        b"",
        0,
        b"9/128\n1/8\n1/4\n1/8\nzero\n",
    ),
    (
        "wp 2 3 2 0:0,0,0,0 1:1,0 1:0,0 1:2,0 1:1,2",
        b"",
        0,
        b"2 p\n1/2 p\n1/4 p^2\n5/8\nzero\n",
    ),
    (
        "wk 010 016 008 0:0,0,0 2:4 0:0,0,0",
        b"",
        0,
        b"1\n105/128\n1\n",
    ),
    ("wk 3 1 8 2:4", b"", 0, b"105/128\n"),
    (
        "wk 3 16 1 2:4 1:3,0,0 2:4",
        b"",
        0,
        b"105/128\n35/8\n105/128\n",
    ),
];

#[test]
fn replies_in_order(rt: HostRuntime) -> Result<(), Fail> {
    assert!(rt; are_told(&rt, rt.alloc(), &REPLIES)?);
    Ok(())
}

/// Words, bounds, texts and structures that are refused. A bound comes before the text.
const REFUSED: [Case; 21] = [
    ("", b"", 2, b"refused: word 1\n"),
    ("session wk 1", b"", 2, b"refused: word 1\n"),
    ("wk", b"", 2, b"refused: word 2\n"),
    ("wk x 0", b"", 2, b"refused: word 2\n"),
    ("wk 1 0 1 0:0,0,0", b"", 2, b"refused: word 3\n"),
    ("wk 1 17 1 0:0,0,0", b"", 2, b"refused: word 3\n"),
    ("wk 1 1 0 0:0,0,0", b"", 2, b"refused: word 4\n"),
    ("wk 1 1 9 0:0,0,0", b"", 2, b"refused: word 4\n"),
    ("wk 1 1 1", b"", 2, b"refused: word 5\n"),
    ("wk 1 1 1 0:0,0", b"", 2, b"refused: word 5\n"),
    ("wk 1 1 1 ask:0:0,0,0", b"", 2, b"refused: word 5\n"),
    ("wk 1 1 1 finish", b"", 2, b"refused: word 5\n"),
    ("wk 1 1 1 0:0,0,0 1:0 1:x", b"", 2, b"refused: word 7\n"),
    ("wk 0 1 1 0:0,0,0", b"", 5, b"refused: bound 0\n"),
    ("- 25 1 1 0:0,0,0", OPEN, 5, b"refused: bound 25\n"),
    ("- 1 1 1 0:0,0,0", b"", 3, b"refused: line 1 Header\n"),
    (
        "- 1 2 2 0:0,0,0",
        OPEN,
        4,
        b"refused: AA at 0 1 1: 1 and 0\n",
    ),
    (
        "- 1 2 2 0:0,0,0",
        b"airy 2\ndim 1\nA 0 0 0 1\nend\n",
        3,
        b"refused: line 3 Shape\n",
    ),
    (
        "- 3 1 1 0:0,0,0",
        b"airy 1\ndim 32\nend\n",
        5,
        b"refused: cells at level 3\n",
    ),
    ("wp 14 1 1 0:0,0,0", b"", 6, b"refused: over in c 20\n"),
    (
        "- 1 1 1 0:0,0,0",
        b"airy 1\ndim 2\nB 1 0 0 18446744073709551616\nD 0 18446744073709551616\nend\n",
        6,
        b"refused: over in D at 0 1\n",
    ),
];

#[test]
fn what_is_refused(rt: HostRuntime) -> Result<(), Fail> {
    assert!(rt; are_told(&rt, rt.alloc(), &REFUSED)?);
    Ok(())
}

/// `wk 3 2 CALLERS` with so many asks, every third of which is for 0,4 [0 0 0 1], and the others for 1,1 [0].
fn many_asks(alloc: Global, callers: &str, asks: usize) -> Result<Vec<String>, AllocError> {
    let mut words = words_of(alloc, "wk 3 2")?;
    words.push(String::from_str(alloc, callers)?)?;
    for k in 0..asks {
        let ask = if k % 3 == 0 { "0:0,0,0,1" } else { "1:0" };
        words.push(String::from_str(alloc, ask)?)?;
    }
    Ok(words)
}

/// The lines of the replies to them.
fn many_lines(alloc: Global, asks: usize) -> Result<Vec<u8>, AllocError> {
    let mut lines = Vec::new(alloc);
    for k in 0..asks {
        lines.extend_from_slice(if k % 3 == 0 { b"3\n" } else { b"zero\n" })?;
    }
    Ok(lines)
}

/// The numbers of callers.
const CALLERS: [&str; 8] = ["1", "2", "3", "4", "5", "6", "7", "8"];

/// Whether so many asks of so many callers lead to this status and these bytes.
fn are_asked<R: Threads + Wait + Sync>(
    rt: &R,
    alloc: Global,
    callers: &str,
    asks: usize,
    want: (u8, &[u8]),
) -> Result<bool, AllocError> {
    let words = many_asks(alloc, callers, asks)?;
    let mut source = steady(alloc, b"")?;
    leads_to(rt, alloc, &words, &mut source, &[], want)
}

/// Whether they do whatever the number of callers.
fn are_shared<R: Threads + Wait + Sync>(
    rt: &R,
    alloc: Global,
    asks: usize,
    want: (u8, &[u8]),
) -> Result<bool, AllocError> {
    for callers in CALLERS {
        if !are_asked(rt, alloc, callers, asks, want)? {
            return Ok(false);
        }
    }
    Ok(true)
}

// 256 asks are answered, whatever the number of callers; the last of 257 is refused.
#[test]
fn many_asks_are_shared_out(rt: HostRuntime) -> Result<(), Fail> {
    let lines = many_lines(rt.alloc(), 256)?;
    assert!(rt; are_shared(&rt, rt.alloc(), 256, (0, lines.as_slice()))?);
    Ok(())
}

#[test]
fn one_ask_more_is_refused(rt: HostRuntime) -> Result<(), Fail> {
    let want = (2u8, b"refused: word 261\n".as_slice());
    assert!(rt; are_shared(&rt, rt.alloc(), 257, want)?);
    Ok(())
}

/// Whether a source that fails at its second call ends the run with 8.
fn is_fault<R: Threads + Wait + Sync>(rt: &R, alloc: Global) -> Result<bool, AllocError> {
    let mut source = MemSource {
        bytes: Vec::from_slice(alloc, LARGE)?,
        at: 0,
        fail_at: Vec::from_slice(alloc, &[1])?,
        calls: 0,
        faults: 0,
    };
    let words = words_of(alloc, "- 3 1 1 0:0,0,0")?;
    let want = (8u8, b"refused: read fault\n".as_slice());
    leads_to(rt, alloc, &words, &mut source, &[], want)
}

#[test]
fn a_source_that_fails(rt: HostRuntime) -> Result<(), Fail> {
    assert!(rt; is_fault(&rt, rt.alloc())?);
    Ok(())
}

/// Each line is one call: the third of the first isn't written, nor the refusal's.
const CUT: [Case; 2] = [
    ("wk 3 2 2 0:1,0,0,0 1:5 3:7 0:0,0,0,0", b"", 9, b"3\nzero\n"),
    ("wk 0 1 1 0:0,0,0", b"", 9, b""),
];

#[test]
fn a_sink_that_fails(rt: HostRuntime) -> Result<(), Fail> {
    let behind = is_told(&rt, rt.alloc(), &CUT[0], &[2])?;
    assert!(rt; behind && is_told(&rt, rt.alloc(), &CUT[1], &[0])?);
    Ok(())
}

/// The code of a program with these words.
fn code_of<R: Threads + Wait + Sync>(
    rt: &R,
    alloc: Global,
    words: &[String],
    source: &mut SteadySource,
    sink: &mut MemSink,
) -> ExitCode {
    serve(rt, alloc, words, source, sink)
}

/// Whether missing words end the program with 2.
fn is_served<R: Threads + Wait + Sync>(rt: &R, alloc: Global) -> Result<bool, AllocError> {
    let words = words_of(alloc, "wk 1 1 1")?;
    let mut source = steady(alloc, b"")?;
    let mut sink = sink_of(alloc, &[])?;
    Ok(code_of(rt, alloc, &words, &mut source, &mut sink) == ExitCode::from(2))
}

#[test]
fn the_status_ends_the_program(rt: HostRuntime) -> Result<(), Fail> {
    assert!(rt; is_served(&rt, rt.alloc())?);
    Ok(())
}
