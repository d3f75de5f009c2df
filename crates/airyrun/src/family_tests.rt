use crate::tests::{Case, are_told, count_lines, run_gated};
use fill_crew::OpenGate;
use std::alloc::{AllocError, Global};
use std::test::Fail;
use std::thread::Threads;

/// The volumes of Weil and Petersson up to the Euler number 3, as the literature has them: each line is the coefficient of the
/// product of the `L_k^(2d_k)` times the product of the `(2d_k + 1)!`.
const WP_3: &[u8] = b"\
    0,3 [0 0 0] 1\n\
    1,1 [0] 1/12 p\n1,1 [1] 1/8\n\
    0,4 [0 0 0 0] 2 p\n0,4 [0 0 0 1] 3\n\
    1,2 [0 0] 1/4 p^2\n1,2 [0 1] 1/2 p\n1,2 [0 2] 5/8\n1,2 [1 1] 3/8\n\
    0,5 [0 0 0 0 0] 10 p^2\n0,5 [0 0 0 0 1] 18 p\n0,5 [0 0 0 0 2] 15\n0,5 [0 0 0 1 1] 18\n\
    1,3 [0 0 0] 14/9 p^3\n1,3 [0 0 1] 13/4 p^2\n1,3 [0 0 2] 5 p\n1,3 [0 0 3] 35/8\n1,3 [0 1 1] 9/2 p\n1,3 [0 1 2] 15/4\n1,3 [1 1 1] 9/4\n\
    2,1 [0] 29/192 p^4\n2,1 [1] 169/480 p^3\n2,1 [2] 139/192 p^2\n2,1 [3] 203/192 p\n2,1 [4] 105/128\n";

const CASES: [Case; 11] = [
    (
        "table wp 2",
        b"",
        0,
        b"0,3 [0 0 0] 1\n1,1 [0] 1/12 p\n1,1 [1] 1/8\n0,4 [0 0 0 0] 2 p\n0,4 [0 0 0 1] 3\n1,2 [0 0] 1/4 p^2\n1,2 [0 1] 1/2 p\n1,2 [0 2] 5/8\n1,2 [1 1] 3/8\n",
    ),
    ("table wp 3", b"", 0, WP_3),
    ("table wp 0", b"", 5, b"refused: bound 0\n"),
    ("table bgw 25", b"", 5, b"refused: bound 25\n"),
    ("table wp 12", b"", 6, b"refused: over at 6,2 [0 0]\n"),
    ("table wp 14", b"", 6, b"refused: over in c 20\n"),
    ("session wp 14 finish", b"", 6, b"refused: over in c 20\n"),
    ("table wpp 1", b"", 2, b"refused: word 2\n"),
    ("relations 32 bgw", b"", 0, b"closed\n"),
    ("relations 9 wp", b"", 0, b"closed\n"),
    ("relations 10 wp", b"", 6, b"refused: over in c 20\n"),
];

#[test]
fn named_structures(rt: HostRuntime) -> Result<(), Fail> {
    assert!(rt; are_told(&rt, rt.alloc(), &CASES)?);
    Ok(())
}

/// Tables with so many lines.
const LONG: [(&str, u32); 3] = [
    ("table wk 20", 31703),
    ("table bgw 24", 761),
    ("table wp 11", 3680),
];

/// Whether each of them is a table of so many lines.
fn are_long<R: Threads + Sync>(rt: &R, alloc: Global) -> Result<bool, AllocError> {
    for (line, count) in LONG.iter() {
        let told = run_gated(rt, alloc, line, b"", &OpenGate, 1 << 22)?;
        if told.status != 0 || count_lines(told.bytes()) != *count {
            return Ok(false);
        }
    }
    Ok(true)
}

#[test]
fn long_tables(rt: HostRuntime) -> Result<(), Fail> {
    assert!(rt; are_long(&rt, rt.alloc())?);
    Ok(())
}
