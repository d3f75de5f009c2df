use crate::tests::{Case, ONE_INDEX, ONE_INDEX_3, WK_3, are_told, run_over};
use std::alloc::{AllocError, Global};
use std::test::Fail;
use std::thread::Threads;

/// Words that are refused, with the number of the first that breaks a rule.
const REFUSED: [(&str, u8); 41] = [
    ("", 1),
    ("''", 1),
    ("tables wk 1", 1),
    ("-- table wk 1", 1),
    ("--workers=1 table wk 1", 1),
    ("table", 2),
    ("table xx 1", 2),
    ("table '' 1", 2),
    ("table --worker=1 wk 1", 2),
    ("table wk", 3),
    ("table wk ''", 3),
    ("table wk +1", 3),
    ("table wk -1", 3),
    ("table wk 1x", 3),
    ("table wk 1234567890", 3),
    ("table wk -- -1", 4),
    ("table wk 2 3", 4),
    ("table wk 2 3 4", 4),
    ("table -- wk -- 2", 4),
    ("table wk 2 -- --", 5),
    ("table wk 2 -- --workers=1", 5),
    ("table wk 2 --workers", 5),
    ("table wk 2 --workers 17", 5),
    ("table wk 2 --workers x", 5),
    ("table wk 2 --workers --workers", 5),
    ("table wk 2 --workers=17", 4),
    ("table wk 2 --workers=", 4),
    ("table wk 2 --workers=0001", 4),
    ("table wk 2 --workers=1 --workers=1", 5),
    ("table --workers 1 wk --workers 1 2", 5),
    ("probe", 2),
    ("probe wk", 2),
    ("probe 1 2", 3),
    ("relations", 2),
    ("relations 0 wk", 2),
    ("relations 33 wk", 2),
    ("relations 0003 wk", 2),
    ("relations 3", 3),
    ("relations 3 xx", 3),
    ("relations 3 wk wk", 4),
    ("relations 3 wk --workers=1", 4),
];

/// Words of a session that are refused.
const REFUSED_SCRIPTS: [(&str, u8); 40] = [
    ("session", 2),
    ("session xx 1 finish", 2),
    ("session wk", 3),
    ("session wk finish", 3),
    ("session wk 1", 4),
    ("session wk 1 --workers=1", 5),
    ("session wk 1 --", 5),
    ("session wk 1 ''", 4),
    ("session wk 1 finished", 4),
    ("session wk 1 Finish", 4),
    ("session wk 1 finish finish", 5),
    ("session wk 1 finish ask:0:0,0,0 finish", 6),
    ("session wk 1 -- finish -- finish", 6),
    ("session wk 1 -finish", 4),
    ("session wk 1 finish --worker=1", 5),
    ("session wk 1 finish --workers", 6),
    ("session wk 1 finish --workers=17", 5),
    ("session wk 1 finish --workers 17", 6),
    ("session wk 1 --workers=1 finish --workers=1", 6),
    ("session wk 1 ask", 4),
    ("session wk 1 ask:", 4),
    ("session wk 1 ask:0", 4),
    ("session wk 1 ask:1:", 4),
    ("session wk 1 ask::1", 4),
    ("session wk 1 ask:1:1:", 4),
    ("session wk 1 ask:1:1:1", 4),
    ("session wk 1 Ask:1:1", 4),
    ("session wk 1 :1:1", 4),
    ("session wk 1 ask:0:0,0,0,", 4),
    ("session wk 1 ask:0:,0,0,0", 4),
    ("session wk 1 ask:0:0,,0,0", 4),
    ("session wk 1 ask:0:0;0;0", 4),
    ("session wk 1 ask:+1:1", 4),
    ("session wk 1 ask:1:-1", 4),
    ("session wk 1 ask:256:1", 4),
    ("session wk 1 ask:1:256", 4),
    ("session wk 1 ask:0001:1", 4),
    ("session wk 1 ask:1:0001", 4),
    ("session wk 1 ask:0:0,0", 4),
    (
        "session wk 1 finish ask:0:0,0,0,0,0,0,0,0,0,0,0,0,0,0,0,0,0,0,0,0,0,0,0,0,0,0,0",
        5,
    ),
];

/// Whether the words are refused by this number of one digit.
fn is_refused<R: Threads + Sync>(
    rt: &R,
    alloc: Global,
    line: &str,
    number: u8,
) -> Result<bool, AllocError> {
    let mut written = *b"refused: word 0\n";
    written[14] = b'0'.wrapping_add(number);
    Ok(run_over(rt, alloc, line, b"")?.is(2, &written))
}

/// Whether each of them is refused by its number.
fn are_refused<R: Threads + Sync>(
    rt: &R,
    alloc: Global,
    cases: &[(&str, u8)],
) -> Result<bool, AllocError> {
    for (line, number) in cases.iter() {
        if !is_refused(rt, alloc, line, *number)? {
            return Ok(false);
        }
    }
    Ok(true)
}

#[test]
fn refused_words(rt: HostRuntime) -> Result<(), Fail> {
    assert!(rt; are_refused(&rt, rt.alloc(), &REFUSED)?);
    Ok(())
}

#[test]
fn refused_scripts(rt: HostRuntime) -> Result<(), Fail> {
    assert!(rt; are_refused(&rt, rt.alloc(), &REFUSED_SCRIPTS)?);
    Ok(())
}

/// Words with options in every place.
const ACCEPTED: [Case; 12] = [
    ("table --workers 0 wk 3", b"", 0, WK_3),
    ("table wk --workers=1 3", b"", 0, WK_3),
    ("table wk 3 --workers=016", b"", 0, WK_3),
    ("table -- wk 3", b"", 0, WK_3),
    ("table wk --workers=2 -- 3", b"", 0, WK_3),
    ("table wk 3 --", b"", 0, WK_3),
    ("table -- - 3", ONE_INDEX, 0, ONE_INDEX_3),
    ("probe --workers 3 3", ONE_INDEX, 0, ONE_INDEX_3),
    ("probe -- 3", ONE_INDEX, 0, ONE_INDEX_3),
    ("relations -- 3 wk", b"", 0, b"closed\n"),
    (
        "session wk --workers 0 1 -- finish ask:001:001",
        b"",
        0,
        b"1/8\n",
    ),
    (
        "session wk 1 ask:0:0,0,0,0,0,0,0,0,0,0,0,0,0,0,0,0,0,0,0,0,0,0,0,0,0,0 --workers 0",
        b"",
        0,
        b"beyond\n",
    ),
];

#[test]
fn options_at_every_place(rt: HostRuntime) -> Result<(), Fail> {
    assert!(rt; are_told(&rt, rt.alloc(), &ACCEPTED)?);
    Ok(())
}
