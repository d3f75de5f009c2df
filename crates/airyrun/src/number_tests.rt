use crate::tests::{Case, Told, are_told, run_over};
use std::alloc::{AllocError, Global};
use std::test::Fail;
use std::thread::Threads;

/// Intersection numbers and Theta numbers: multinomials in genus 0, `1/(24^g g!)` at one index, a string and a dilaton equation, and what
/// the literature prints; then the refusals.
const NUMBERS: [Case; 18] = [
    ("number wk 0 0 0 0", b"", 0, b"1\n"),
    ("number wk 0 2 0 1 0 0 0", b"", 0, b"3\n"),
    ("number wk 1 1", b"", 0, b"1/24\n"),
    ("number wk 2 4", b"", 0, b"1/1152\n"),
    ("number wk 3 7", b"", 0, b"1/82944\n"),
    ("number wk 2 5 0", b"", 0, b"1/1152\n"),
    ("number wk 2 1 4", b"", 0, b"1/384\n"),
    ("number wk 2 2 3", b"", 0, b"29/5760\n"),
    ("number wk 1 0", b"", 0, b"0\n"),
    ("number wk 1 255 255", b"", 0, b"0\n"),
    ("number bgw 1 0", b"", 0, b"1/8\n"),
    ("number bgw 2 1", b"", 0, b"3/128\n"),
    ("number bgw 3 2", b"", 0, b"15/1024\n"),
    (
        "number bgw 0 0 0 0 0 0 0 0 0 0 0 0 0 0 0 0 0 0 0 0 0 0 0 0 0 0 0",
        b"",
        0,
        b"0\n",
    ),
    ("number wk 12 0 0 0", b"", 5, b"refused: bound 25\n"),
    (
        "number wk 0 0 0 0 --workers=1",
        b"",
        2,
        b"refused: word 7\n",
    ),
    ("number wp 1 1", b"", 2, b"refused: word 2\n"),
    (
        "number wk 0 0 0 0 0 0 0 0 0 0 0 0 0 0 0 0 0 0 0 0 0 0 0 0 0 0 0 0 0",
        b"",
        2,
        b"refused: word 30\n",
    ),
];

/// Volumes as the literature has them, and the refusals.
const VOLUMES: [Case; 13] = [
    ("volume 0 3", b"", 0, b"1\n"),
    ("volume 1 1", b"", 0, b"1/12 p + 1/48 L1^2\n"),
    (
        "volume 1 2",
        b"",
        0,
        b"1/4 p^2 + 1/12 p L1^2 + 1/12 p L2^2 + 1/192 L1^4 + 1/96 L1^2 L2^2 + 1/192 L2^4\n",
    ),
    (
        "volume 0 4",
        b"",
        0,
        b"2 p + 1/2 L1^2 + 1/2 L2^2 + 1/2 L3^2 + 1/2 L4^2\n",
    ),
    (
        "volume 2 1",
        b"",
        0,
        b"29/192 p^4 + 169/2880 p^3 L1^2 + 139/23040 p^2 L1^4 + 29/138240 p L1^6 + 1/442368 L1^8\n",
    ),
    ("volume 0 26", b"", 5, b"refused: terms 58343356817424\n"),
    ("volume 0 12", b"", 5, b"refused: terms 293930\n"),
    ("volume 13 1", b"", 5, b"refused: bound 25\n"),
    ("volume 6 2", b"", 6, b"refused: over at 6,2 [0 0]\n"),
    ("volume 0 27", b"", 2, b"refused: word 3\n"),
    ("volume 0 2", b"", 2, b"refused: word 4\n"),
    ("volume -- 1 1", b"", 0, b"1/12 p + 1/48 L1^2\n"),
    ("volume 1 1 1", b"", 2, b"refused: word 4\n"),
];

/// Large structures.
const BULKS: [Case; 6] = [
    (
        "bulk 1 1 3",
        b"",
        0,
        b"cells 7\nneeds 11\nlast 2,1 [0] 33/32\nsolution\n",
    ),
    (
        "bulk 1 2 1",
        b"",
        0,
        b"cells 6\nneeds 0\nlast 1,1 [1] 5/8\nsolution\n",
    ),
    ("bulk 1 4 0", b"", 5, b"refused: bound 0\n"),
    ("bulk 1 4 25", b"", 5, b"refused: bound 25\n"),
    ("bulk 1 8 24", b"", 5, b"refused: cells at level 11\n"),
    ("bulk 1 9 1", b"", 2, b"refused: word 3\n"),
];

#[test]
fn numbers_of_families(rt: HostRuntime) -> Result<(), Fail> {
    assert!(rt; are_told(&rt, rt.alloc(), &NUMBERS)?);
    Ok(())
}

#[test]
fn volumes_of_pairs(rt: HostRuntime) -> Result<(), Fail> {
    assert!(rt; are_told(&rt, rt.alloc(), &VOLUMES)?);
    Ok(())
}

#[test]
fn large_structures(rt: HostRuntime) -> Result<(), Fail> {
    assert!(rt; are_told(&rt, rt.alloc(), &BULKS)?);
    Ok(())
}

/// Whether this is the summary of 1772 cells.
fn is_summary(told: &Told) -> bool {
    told.status == 0
        && told.bytes().starts_with(b"cells 1772\n")
        && told.bytes().ends_with(b"\nsolution\n")
}

/// Whether the summary of a large structure is the same for every number of workers.
fn is_steady<R: Threads + Sync>(rt: &R, alloc: Global) -> Result<bool, AllocError> {
    let alone = run_over(rt, alloc, "bulk 1 4 8 --workers=0", b"")?;
    if !is_summary(&alone)
        || !run_over(rt, alloc, "bulk 1 4 8 --workers=1", b"")?.is(0, alone.bytes())
    {
        return Ok(false);
    }
    Ok(run_over(rt, alloc, "bulk 1 4 8 --workers=8", b"")?.is(0, alone.bytes()))
}

#[test]
fn a_large_structure_by_any_crew(rt: HostRuntime) -> Result<(), Fail> {
    assert!(rt; is_steady(&rt, rt.alloc())?);
    Ok(())
}
