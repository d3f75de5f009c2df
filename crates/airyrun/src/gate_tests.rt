use crate::tests::{
    TWO_INDICES, TWO_INDICES_1, WK_3, first_lines, run_gated, run_over, sink_of, text_of, words_of,
};
use crate::top::run;
use airy_io::{Failed, MemSink, Sink, SteadySource};
use fill_crew::{Gate, OpenGate, StopAfter, StopAt, StopWorker};
use std::alloc::{AllocError, Global};
use std::sync::atomic::{AtomicU64, Ordering};
use std::test::Fail;
use std::thread::Threads;

/// The tables up to 8 of every crew.
const TO_8: [&str; 5] = [
    "table wk 8 --workers=0",
    "table wk 8 --workers=1",
    "table wk 8 --workers=2",
    "table wk 8 --workers=8",
    "table wk 8 --workers=16",
];

/// Whether each line writes these bytes, with this gate.
fn are_same<R: Threads + Sync, G: Gate + Sync>(
    rt: &R,
    alloc: Global,
    lines: &[&str],
    gate: &G,
    bytes: &[u8],
) -> Result<bool, AllocError> {
    for line in lines.iter() {
        if !run_gated(rt, alloc, line, b"", gate, 1 << 16)?.is(0, bytes) {
            return Ok(false);
        }
    }
    Ok(true)
}

/// Whether they do with the open gate, and with gates that stop the workers behind some cells.
fn are_same_stopped<R: Threads + Sync>(
    rt: &R,
    alloc: Global,
    lines: &[&str],
    bytes: &[u8],
) -> Result<bool, AllocError> {
    for cells in [0u32, 1, 7] {
        if !are_same(rt, alloc, lines, &StopAfter { cells }, bytes)? {
            return Ok(false);
        }
    }
    are_same(rt, alloc, lines, &OpenGate, bytes)
}

/// Whether they do with gates that stop at a rank, or stop one worker.
fn are_same_at<R: Threads + Sync>(
    rt: &R,
    alloc: Global,
    lines: &[&str],
    bytes: &[u8],
) -> Result<bool, AllocError> {
    for rank in [0u32, 5] {
        if !are_same(rt, alloc, lines, &StopAt { rank }, bytes)? {
            return Ok(false);
        }
    }
    are_same(rt, alloc, lines, &StopWorker { worker: 0 }, bytes)
}

#[test]
fn gates_and_crews_change_no_byte(rt: HostRuntime) -> Result<(), Fail> {
    let alone = run_over(&rt, rt.alloc(), "table wk 8 --workers=0", b"")?;
    let begins = alone.status == 0 && first_lines(alone.bytes(), 11) == WK_3;
    assert!(rt; begins && are_same_stopped(&rt, rt.alloc(), &TO_8, alone.bytes())?);
    Ok(())
}

#[test]
fn gates_at_a_rank_change_no_byte(rt: HostRuntime) -> Result<(), Fail> {
    let alone = run_over(&rt, rt.alloc(), "table wk 8 --workers=0", b"")?;
    assert!(rt; are_same_at(&rt, rt.alloc(), &TO_8, alone.bytes())?);
    Ok(())
}

#[test]
fn crews_of_a_longer_table(rt: HostRuntime) -> Result<(), Fail> {
    let alone = run_over(&rt, rt.alloc(), "table wk 10 --workers=0", b"")?;
    let lines = ["table wk 10 --workers=1", "table wk 10 --workers=8"];
    assert!(rt; alone.status == 0 && are_same_stopped(&rt, rt.alloc(), &lines, alone.bytes())?);
    Ok(())
}

/// Waits for so many turns at most until the flag is raised.
fn wait_for(flag: &AtomicU64) -> bool {
    for _ in 0..200_000_000u32 {
        if flag.load(Ordering::SeqCst) != 0 {
            return true;
        }
    }
    false
}

/// Holds each of two workers at its first cell until the other was asked, too.
#[derive(Drop)]
struct Pair {
    first: AtomicU64,
    second: AtomicU64,
    late: AtomicU64,
}

impl Gate for Pair {
    fn before(&self, worker: u8, _done: u32, _rank: u32) -> bool {
        let (own, other) = if worker == 0 {
            (&self.first, &self.second)
        } else {
            (&self.second, &self.first)
        };
        own.store(1, Ordering::SeqCst);
        if !wait_for(other) {
            self.late.store(1, Ordering::SeqCst);
        }
        true
    }
}

/// Whether both workers were asked, each while the gate held the other.
fn met(gate: &Pair) -> bool {
    gate.first.load(Ordering::SeqCst) == 1
        && gate.second.load(Ordering::SeqCst) == 1
        && gate.late.load(Ordering::SeqCst) == 0
}

/// Whether a run of two workers ends with the whole table, and asked both so.
fn is_shared<R: Threads + Sync>(
    rt: &R,
    alloc: Global,
    line: &str,
    text: &[u8],
    bytes: &[u8],
) -> Result<bool, AllocError> {
    let gate = Pair {
        first: AtomicU64::new(0),
        second: AtomicU64::new(0),
        late: AtomicU64::new(0),
    };
    let told = run_gated(rt, alloc, line, text, &gate, 200)?;
    Ok(told.is(0, bytes) && met(&gate))
}

#[test]
fn two_workers_at_once(rt: HostRuntime) -> Result<(), Fail> {
    let bytes = first_lines(WK_3, 2);
    assert!(rt; is_shared(&rt, rt.alloc(), "table wk 1 --workers=2", b"", bytes)?);
    Ok(())
}

#[test]
fn two_workers_at_once_over_a_text(rt: HostRuntime) -> Result<(), Fail> {
    assert!(rt;
        is_shared(
            &rt,
            rt.alloc(),
            "probe 1 --workers=2",
            TWO_INDICES,
            TWO_INDICES_1
        )?
    );
    Ok(())
}

#[test]
fn two_workers_at_once_on_a_large_structure(rt: HostRuntime) -> Result<(), Fail> {
    let bytes = b"cells 2\nneeds 0\nlast 1,1 [0] 1/4\nsolution\n";
    assert!(rt; is_shared(&rt, rt.alloc(), "bulk 1 1 1 --workers=2", b"", bytes)?);
    Ok(())
}

/// What a gate and a sink wait for.
#[derive(Drop)]
struct Flags {
    begun: AtomicU64,
    filled: AtomicU64,
    late: AtomicU64,
}

/// Holds the first cell until the sink's first write has begun.
#[derive(Drop)]
struct HeldGate<'a> {
    flags: &'a Flags,
}

impl Gate for HeldGate<'_> {
    fn before(&self, _worker: u8, done: u32, _rank: u32) -> bool {
        if done == 4 {
            self.flags.filled.store(1, Ordering::SeqCst);
        }
        if done == 0 && !wait_for(&self.flags.begun) {
            self.flags.late.store(1, Ordering::SeqCst);
        }
        true
    }
}

/// Holds its first write until the gate was asked with four cells filled.
#[derive(Drop)]
struct HeldSink<'a> {
    flags: &'a Flags,
    inner: MemSink,
}

impl Sink for HeldSink<'_> {
    ghost use Rattle.std.specs.Prelude.{Some, take};

    ghost state = { λ s. record { taken = Some (take s.inner.taken s.inner.space.items); faults = s.inner.faults } };

    fn write(&mut self, from: &[u8]) -> Result<usize, Failed> {
        self.flags.begun.store(1, Ordering::SeqCst);
        if !wait_for(&self.flags.filled) {
            self.flags.late.store(1, Ordering::SeqCst);
        }
        self.inner.write(from)
    }
}

/// The replies behind the first, where all cells are filled.
const OUTCOMES: [&[u8]; 5] = [b"1\n", b"1/8\n", b"3\n", b"5/8\n", b"3/8\n"];

/// Six replies: the first came before any cell was filled, and so did the one with this number among the others, where there is one.
fn replies_without(alloc: Global, missing: usize) -> Result<Vec<u8>, AllocError> {
    let mut bytes = Vec::from_slice(alloc, b"not yet\n")?;
    for (at, outcome) in OUTCOMES.iter().enumerate() {
        bytes.extend_from_slice(if at == missing { b"not yet\n" } else { outcome })?;
    }
    Ok(bytes)
}

/// Whether the first reply came before any cell was filled, and at least four of the five others are outcomes.
fn is_while_filled(alloc: Global, bytes: &[u8]) -> Result<bool, AllocError> {
    for missing in 0..=OUTCOMES.len() {
        if replies_without(alloc, missing)?.as_slice() == bytes {
            return Ok(true);
        }
    }
    Ok(false)
}

/// A script that asks five times behind its first ask.
const SIX_ASKS: &str =
    "session wk 2 --workers=1 ask:0:0,0,0 ask:0:0,0,0 ask:1:1 ask:0:0,0,0,1 ask:1:0,2 ask:1:1,1";

/// The status of the six asks, while a gate holds the first cell, and the sink its first write.
fn asked<R: Threads + Sync>(
    rt: &R,
    alloc: Global,
    flags: &Flags,
    out: &mut HeldSink<'_>,
) -> Result<u8, AllocError> {
    let words = words_of(alloc, SIX_ASKS)?;
    let mut source = text_of(alloc, b"")?;
    Ok(held_status(rt, alloc, &words, &mut source, out, &HeldGate { flags }))
}

fn held_status<R: Threads + Sync>(
    rt: &R,
    alloc: Global,
    words: &[String],
    source: &mut SteadySource,
    out: &mut HeldSink<'_>,
    gate: &HeldGate<'_>,
) -> u8 {
    run(rt, alloc, words, source, out, gate)
}

/// Whether none waited in vain, and what was written came while the cells were filled.
fn is_held<R: Threads + Sync>(
    rt: &R,
    alloc: Global,
    flags: &Flags,
    out: &mut HeldSink<'_>,
) -> Result<bool, AllocError> {
    let status = asked(rt, alloc, flags, out)?;
    if status != 0 || flags.late.load(Ordering::SeqCst) != 0 {
        return Ok(false);
    }
    is_while_filled(alloc, &out.inner.space[..out.inner.taken])
}

fn is_asked_while_filled<R: Threads + Sync>(rt: &R, alloc: Global) -> Result<bool, AllocError> {
    let flags = Flags {
        begun: AtomicU64::new(0),
        filled: AtomicU64::new(0),
        late: AtomicU64::new(0),
    };
    let mut out = HeldSink {
        flags: &flags,
        inner: sink_of(alloc, 200, &[])?,
    };
    is_held(rt, alloc, &flags, &mut out)
}

#[test]
fn asked_while_filled(rt: HostRuntime) -> Result<(), Fail> {
    assert!(rt; is_asked_while_filled(&rt, rt.alloc())?);
    Ok(())
}
