use crate::top::run;
use airy_io::{MemSink, MemSource, Source, SteadySource};
use fill_crew::{Gate, OpenGate};
use std::alloc::{AllocError, Global};
use std::thread::Threads;

/// The words of a run, parted by blanks; what its source gives; the status that it answers; what it writes.
pub(crate) type Case = (&'static str, &'static [u8], u8, &'static [u8]);

/// The lines of `table wk 3`.
pub(crate) const WK_3: &[u8] = b"\
    0,3 [0 0 0] 1\n\
    1,1 [1] 1/8\n\
    0,4 [0 0 0 1] 3\n\
    1,2 [0 2] 5/8\n\
    1,2 [1 1] 3/8\n\
    0,5 [0 0 0 0 2] 15\n\
    0,5 [0 0 0 1 1] 18\n\
    1,3 [0 0 3] 35/8\n\
    1,3 [0 1 2] 15/4\n\
    1,3 [1 1 1] 9/4\n\
    2,1 [4] 105/128\n";

/// A text with one index, whose entries are 1, 1, 1 and 1/8.
pub(crate) const ONE_INDEX: &[u8] =
    b"airy 1\ndim 1\nA 0 0 0 1\nB 0 0 0 1\nC 0 0 0 1\nD 0 1/8\nend\n";

/// Its table up to 3: in the last line one half of 5/8 + 1/64.
pub(crate) const ONE_INDEX_3: &[u8] = b"\
    0,3 [0 0 0] 1\n\
    1,1 [0] 1/8\n\
    0,4 [0 0 0 0] 3\n\
    1,2 [0 0] 5/8\n\
    0,5 [0 0 0 0 0] 15\n\
    1,3 [0 0 0] 23/8\n\
    2,1 [0] 41/128\n";

/// A text with one index and an entry 2^126, of which three are out of range.
pub(crate) const LARGE: &[u8] =
    b"airy 1\ndim 1\nA 0 0 0 85070591730234615865843651857942052864\nB 0 0 0 1\nend\n";

/// A text whose entries of A aren't those of operators that close.
pub(crate) const OPEN: &[u8] = b"airy 1\ndim 2\nA 0 1 1 1\nend\n";

/// Two copies of the structure with one index, after a change of basis.
pub(crate) const TWO_INDICES: &[u8] = b"\
    airy 1\ndim 2\n\
    A 0 0 0 1\nA 0 0 1 1\nA 0 1 1 1\nA 1 0 0 1\nA 1 0 1 1\nA 1 1 1 2\n\
    B 0 0 0 1\nB 0 1 0 1\nB 1 0 0 1\nB 1 1 1 1\n\
    C 0 0 0 1\nC 1 0 0 2\nC 1 0 1 -1\nC 1 1 1 1\n\
    D 0 1/8\nD 1 1/4\nend\n";

/// Its table up to 1.
pub(crate) const TWO_INDICES_1: &[u8] = b"\
    0,3 [0 0 0] 1\n0,3 [0 0 1] 1\n0,3 [0 1 1] 1\n0,3 [1 1 1] 2\n\
    1,1 [0] 1/8\n1,1 [1] 1/4\n";

/// The words of a line, which are parted by blanks; `''` stands for the empty word.
pub(crate) fn words_of(alloc: Global, line: &str) -> Result<Vec<String>, AllocError> {
    let mut words = Vec::new(alloc);
    for word in line.split_whitespace() {
        let word = if word == "''" { "" } else { word };
        words.push(String::from_str(alloc, word)?)?;
    }
    Ok(words)
}

/// A source of a text.
pub(crate) fn text_of(alloc: Global, text: &[u8]) -> Result<SteadySource, AllocError> {
    Ok(SteadySource {
        bytes: Vec::from_slice(alloc, text)?,
        at: 0,
    })
}

/// A source of a text that fails at one call.
pub(crate) fn failing_text(alloc: Global, text: &[u8], call: u32) -> Result<MemSource, AllocError> {
    Ok(MemSource {
        bytes: Vec::from_slice(alloc, text)?,
        at: 0,
        fail_at: Vec::from_slice(alloc, &[call])?,
        calls: 0,
        faults: 0,
    })
}

/// A sink of that room that fails at the calls with these numbers.
pub(crate) fn sink_of(alloc: Global, room: usize, fail_at: &[u32]) -> Result<MemSink, AllocError> {
    Ok(MemSink {
        space: vec![in alloc; 0u8; room]?,
        taken: 0,
        fail_at: Vec::from_slice(alloc, fail_at)?,
        calls: 0,
        faults: 0,
    })
}

/// What a run answered, and its sink.
#[derive(Drop)]
pub(crate) struct Told {
    pub status: u8,
    pub sink: MemSink,
}

impl Told {
    /// Whether this is the status, and these are the bytes that were written.
    pub(crate) fn is(&self, status: u8, bytes: &[u8]) -> bool {
        self.status == status && self.bytes() == bytes
    }

    /// The bytes that were written.
    pub(crate) fn bytes(&self) -> &[u8] {
        &self.sink.space[..self.sink.taken]
    }
}

/// The status of a run.
fn status_of<R: Threads + Sync, S: Source, G: Gate + Sync>(
    rt: &R,
    alloc: Global,
    words: &[String],
    source: &mut S,
    gate: &G,
    sink: &mut MemSink,
) -> u8 {
    run(rt, alloc, words, source, sink, gate)
}

/// Runs the words of a line.
pub(crate) fn run_words<R: Threads + Sync, S: Source, G: Gate + Sync>(
    rt: &R,
    alloc: Global,
    line: &str,
    source: &mut S,
    gate: &G,
    mut sink: MemSink,
) -> Result<Told, AllocError> {
    let words = words_of(alloc, line)?;
    let status = status_of(rt, alloc, &words, source, gate, &mut sink);
    Ok(Told { status, sink })
}

/// Runs the words of a line over a text, into so much room, with this gate.
pub(crate) fn run_gated<R: Threads + Sync, G: Gate + Sync>(
    rt: &R,
    alloc: Global,
    line: &str,
    text: &[u8],
    gate: &G,
    room: usize,
) -> Result<Told, AllocError> {
    let mut source = text_of(alloc, text)?;
    run_words(
        rt,
        alloc,
        line,
        &mut source,
        gate,
        sink_of(alloc, room, &[])?,
    )
}

/// Runs the words of a line over a text, into ample room, with the open gate.
pub(crate) fn run_over<R: Threads + Sync>(
    rt: &R,
    alloc: Global,
    line: &str,
    text: &[u8],
) -> Result<Told, AllocError> {
    run_gated(rt, alloc, line, text, &OpenGate, 1 << 16)
}

/// Whether a case answers its status and writes its bytes.
fn is_told<R: Threads + Sync>(rt: &R, alloc: Global, case: &Case) -> Result<bool, AllocError> {
    let (line, text, status, bytes) = *case;
    Ok(run_over(rt, alloc, line, text)?.is(status, bytes))
}

/// Whether each of the cases does.
pub(crate) fn are_told<R: Threads + Sync>(
    rt: &R,
    alloc: Global,
    cases: &[Case],
) -> Result<bool, AllocError> {
    for case in cases.iter() {
        if !is_told(rt, alloc, case)? {
            return Ok(false);
        }
    }
    Ok(true)
}

/// The first lines of a text.
pub(crate) fn first_lines(text: &[u8], count: u32) -> &[u8] {
    let mut left = count;
    for (at, byte) in text.iter().enumerate() {
        if left == 0 {
            return &text[..at];
        }
        if *byte == b'\n' {
            left -= 1;
        }
    }
    text
}

/// How many lines a text has.
pub(crate) fn count_lines(text: &[u8]) -> u32 {
    let mut count = 0u32;
    for byte in text.iter() {
        if *byte == b'\n' {
            count = count.saturating_add(1);
        }
    }
    count
}
