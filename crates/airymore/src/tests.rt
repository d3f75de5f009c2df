use crate::top::run_more;
use airy_io::{MemSink, MemSource, Source, SteadySource};
use fill_crew::OpenGate;
use std::alloc::{AllocError, Global};
use std::test::Fail;
use std::thread::Threads;

/// The words of a run, parted by blanks; what its source gives; the status that it answers; what it writes.
pub(crate) type Case = (&'static str, &'static [u8], u8, &'static [u8]);

/// The words of a line, which are parted by blanks.
fn words_of(alloc: Global, line: &str) -> Result<Vec<String>, AllocError> {
    let mut words = Vec::new(alloc);
    for word in line.split_whitespace() {
        words.push(String::from_str(alloc, word)?)?;
    }
    Ok(words)
}

/// A sink of that room that fails at the calls with these numbers.
fn sink_of(alloc: Global, room: usize, fail_at: &[u32]) -> Result<MemSink, AllocError> {
    Ok(MemSink {
        space: vec![in alloc; 0u8; room]?,
        taken: 0,
        fail_at: Vec::from_slice(alloc, fail_at)?,
        calls: 0,
        faults: 0,
    })
}

/// What a run answered, and its sink.
#[derive(Drop)]
struct Told {
    status: u8,
    sink: MemSink,
}

impl Told {
    /// Whether this is the status, and these are the bytes that were written.
    fn is(&self, status: u8, bytes: &[u8]) -> bool {
        self.status == status && &self.sink.space[..self.sink.taken] == bytes
    }
}

/// The status of a run.
fn status_of<R: Threads + Sync, S: Source>(
    rt: &R,
    alloc: Global,
    words: &[String],
    source: &mut S,
    sink: &mut MemSink,
) -> u8 {
    run_more(rt, alloc, words, source, sink, &OpenGate)
}

/// Runs the words of a line.
fn run_words<R: Threads + Sync, S: Source>(
    rt: &R,
    alloc: Global,
    line: &str,
    source: &mut S,
    mut sink: MemSink,
) -> Result<Told, AllocError> {
    let words = words_of(alloc, line)?;
    let status = status_of(rt, alloc, &words, source, &mut sink);
    Ok(Told { status, sink })
}

/// Runs the words of a line over a text, into a sink that fails at some calls.
fn run_over<R: Threads + Sync>(
    rt: &R,
    alloc: Global,
    line: &str,
    text: &[u8],
    fail_at: &[u32],
) -> Result<Told, AllocError> {
    let mut source = SteadySource {
        bytes: Vec::from_slice(alloc, text)?,
        at: 0,
    };
    run_words(
        rt,
        alloc,
        line,
        &mut source,
        sink_of(alloc, 1 << 16, fail_at)?,
    )
}

/// Whether each case answers its status and writes its bytes, into a sink that fails at some calls.
fn are_cut<R: Threads + Sync>(
    rt: &R,
    alloc: Global,
    cases: &[Case],
    fail_at: &[u32],
) -> Result<bool, AllocError> {
    for (line, text, status, bytes) in cases.iter() {
        if !run_over(rt, alloc, line, text, fail_at)?.is(*status, bytes) {
            return Ok(false);
        }
    }
    Ok(true)
}

/// Whether each case does, where no call fails.
pub(crate) fn are_told<R: Threads + Sync>(
    rt: &R,
    alloc: Global,
    cases: &[Case],
) -> Result<bool, AllocError> {
    are_cut(rt, alloc, cases, &[])
}

/// A text whose entries of A aren't those of operators that close.
const OPEN: &[u8] = b"airy 1\ndim 2\nA 0 1 1 1\nend\n";

/// A text with one index and an entry 2^126, of which three are out of range.
const LARGE: &[u8] =
    b"airy 1\ndim 1\nA 0 0 0 85070591730234615865843651857942052864\nB 0 0 0 1\nend\n";

/// Two copies of a structure with one index, after a change of basis.
const TWO_INDICES: &[u8] = b"\
    airy 1\ndim 2\n\
    A 0 0 0 1\nA 0 0 1 1\nA 0 1 1 1\nA 1 0 0 1\nA 1 0 1 1\nA 1 1 1 2\n\
    B 0 0 0 1\nB 0 1 0 1\nB 1 0 0 1\nB 1 1 1 1\n\
    C 0 0 0 1\nC 1 0 0 2\nC 1 0 1 -1\nC 1 1 1 1\n\
    D 0 1/8\nD 1 1/4\nend\n";

/// Its table up to 2.
const TWO_INDICES_2: &[u8] = b"\
    0,3 [0 0 0] 1\n0,3 [0 0 1] 1\n0,3 [0 1 1] 1\n0,3 [1 1 1] 2\n\
    1,1 [0] 1/8\n1,1 [1] 1/4\n\
    0,4 [0 0 0 0] 3\n0,4 [0 0 0 1] 3\n0,4 [0 0 1 1] 3\n0,4 [0 1 1 1] 3\n0,4 [1 1 1 1] 6\n\
    1,2 [0 0] 5/8\n1,2 [0 1] 5/8\n1,2 [1 1] 5/4\n";

/// The brackets of texts. In the last two a number is 2^127, and stands alone or behind another.
const BRACKETS: [Case; 6] = [
    (
        "brackets",
        b"airy 1\ndim 2\nB 1 0 0 1\nend\n",
        0,
        b"0 1 0 -1\nclosed\n",
    ),
    ("brackets", TWO_INDICES, 0, b"closed\n"),
    ("brackets", OPEN, 4, b"refused: AA at 0 1 1: 1 and 0\n"),
    (
        "brackets",
        b"airy 1\ndim 4\nB 0 1 3 1/2\nB 1 0 3 1/3\nB 1 2 3 -5\nend\n",
        0,
        b"0 1 3 1/6\n1 2 3 -5\nclosed\n",
    ),
    (
        "brackets",
        b"airy 1\ndim 3\nB 0 1 2 85070591730234615865843651857942052864\nB 1 0 2 -85070591730234615865843651857942052864\nend\n",
        6,
        b"refused: over in bracket at 0 1 2\n",
    ),
    (
        "brackets",
        b"airy 1\ndim 4\nB 0 1 3 1\nB 1 2 3 85070591730234615865843651857942052864\nB 2 1 3 -85070591730234615865843651857942052864\nend\n",
        6,
        b"refused: over in bracket at 1 2 3\n",
    ),
];

#[test]
fn brackets_of_texts(rt: HostRuntime) -> Result<(), Fail> {
    assert!(rt; are_told(&rt, rt.alloc(), &BRACKETS)?);
    Ok(())
}

/// A text whose relations hold. With the pivot 1 a step of 0,4 [0 0 0 1] leaves the range, three times 2^126; the amplitude is 0.
const FAR: &[u8] = b"airy 1\ndim 2\nB 1 0 0 85070591730234615865843651857942052864\nend\n";

/// Its quick table up to 2.
const FAR_2: &[u8] =
    b"0,3 [0 0 0] 0\n0,3 [0 0 1] 0\n0,3 [0 1 1] 0\n0,3 [1 1 1] 0\n1,1 [0] 0\n1,1 [1] 0\n\
0,4 [0 0 0 0] 0\n0,4 [0 0 0 1] 0\n0,4 [0 0 1 1] 0\n0,4 [0 1 1 1] 0\n0,4 [1 1 1 1] 0\n\
1,2 [0 0] 0\n1,2 [0 1] 0\n1,2 [1 1] 0\n";

/// Tables without a look at further pivots.
const QUICK: [Case; 5] = [
    ("quick 2 2", TWO_INDICES, 0, TWO_INDICES_2),
    ("quick 2 0", TWO_INDICES, 0, TWO_INDICES_2),
    ("quick 1 0", OPEN, 4, b"refused: AA at 0 1 1: 1 and 0\n"),
    ("quick 2 0", FAR, 0, FAR_2),
    ("quick 3 1", LARGE, 6, b"refused: over at 0,4 [0 0 0 0]\n"),
];

#[test]
fn quick_tables_of_texts(rt: HostRuntime) -> Result<(), Fail> {
    assert!(rt; are_told(&rt, rt.alloc(), &QUICK)?);
    Ok(())
}

/// Words, bounds and texts that are refused. A bound comes before the text.
const REFUSED: [Case; 8] = [
    ("", b"", 2, b"refused: word 1\n"),
    ("table wk 1", b"", 2, b"refused: word 1\n"),
    ("brackets 1", b"", 2, b"refused: word 2\n"),
    ("quick 1", b"", 2, b"refused: word 3\n"),
    ("quick 1 17", b"", 2, b"refused: word 3\n"),
    ("quick 25 0", b"", 5, b"refused: bound 25\n"),
    ("quick 24 0", b"", 3, b"refused: line 1 Header\n"),
    (
        "brackets",
        b"airy 1\ndim 1\nB 0 0 1 1\nend\n",
        3,
        b"refused: line 3 Index\n",
    ),
];

#[test]
fn refused_words_and_texts(rt: HostRuntime) -> Result<(), Fail> {
    assert!(rt; are_told(&rt, rt.alloc(), &REFUSED)?);
    Ok(())
}

/// Whether a source that fails at its first call ends the run of the line with 8.
fn is_fault<R: Threads + Sync>(rt: &R, alloc: Global, line: &str) -> Result<bool, AllocError> {
    let mut source = MemSource {
        bytes: Vec::from_slice(alloc, TWO_INDICES)?,
        at: 0,
        fail_at: Vec::from_slice(alloc, &[0])?,
        calls: 0,
        faults: 0,
    };
    let told = run_words(rt, alloc, line, &mut source, sink_of(alloc, 64, &[])?)?;
    Ok(told.is(8, b"refused: read fault\n"))
}

/// Whether each command that reads ends so.
fn are_faults<R: Threads + Sync>(rt: &R, alloc: Global) -> Result<bool, AllocError> {
    for line in ["brackets", "quick 2 0", "json - 1 0", "verify"] {
        if !is_fault(rt, alloc, line)? {
            return Ok(false);
        }
    }
    Ok(true)
}

#[test]
fn a_source_that_fails(rt: HostRuntime) -> Result<(), Fail> {
    assert!(rt; are_faults(&rt, rt.alloc())?);
    Ok(())
}

/// The second line of these is cut.
const CUT_AT_1: [Case; 2] = [
    (
        "brackets",
        b"airy 1\ndim 2\nB 1 0 0 1\nend\n",
        9,
        b"0 1 0 -1\n",
    ),
    ("quick 2 0", TWO_INDICES, 9, b"0,3 [0 0 0] 1\n"),
];

/// And all of these, which write one line by one call.
const CUT_AT_0: [Case; 2] = [("json bgw 1 0", b"", 9, b""), ("verify", b"", 9, b"")];

#[test]
fn a_sink_that_fails(rt: HostRuntime) -> Result<(), Fail> {
    let behind = are_cut(&rt, rt.alloc(), &CUT_AT_1, &[1])?;
    assert!(rt; behind && are_cut(&rt, rt.alloc(), &CUT_AT_0, &[0])?);
    Ok(())
}
