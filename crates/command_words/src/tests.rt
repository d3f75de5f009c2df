use crate::{Asked, Kind, Line, greatest_bound, lines_made, read_words};
use airy_math::Family;
use std::alloc::{AllocError, Global};
use std::test::Fail;

fn words_of(alloc: Global, texts: &[&str]) -> Result<Vec<String>, AllocError> {
    let mut words = Vec::new(alloc);
    for text in texts {
        words.push(String::from_str(alloc, text)?)?;
    }
    Ok(words)
}

/// The number of the first word that is refused, or 0.
fn refused_word(words: &[String]) -> u128 {
    match read_words(words) {
        Asked::Refused { before } => before as u128 + 1,
        _ => 0,
    }
}

/// The words of a command line, and the number of the first that is refused, or 0.
type Row = (u128, &'static [&'static str]);

/// Whether each row's first refused word has the row's number.
fn are_refused(alloc: Global, rows: &[Row]) -> Result<bool, AllocError> {
    for (number, texts) in rows {
        let words = words_of(alloc, texts)?;
        if refused_word(&words) != *number {
            return Ok(false);
        }
    }
    Ok(true)
}

/// Command lines of tables and relations.
const LINES: [Row; 27] = [
    (1, &[]),
    (1, &["frob", "wk", "1"]),
    (1, &["--", "table", "wk", "1"]),
    (2, &["table"]),
    (2, &["table", "xx", "--workers=17"]),
    (2, &["table", "-x", "1"]),
    (3, &["table", "wk"]),
    (3, &["table", "wk", "+1"]),
    (3, &["table", "wk", "1234567890"]),
    (4, &["table", "wk", "1", "2"]),
    (3, &["table", "--workers"]),
    (5, &["table", "wk", "2", "--workers", "17"]),
    (4, &["table", "wk", "2", "--workers=0001"]),
    (4, &["table", "wk", "--workers=1", "--workers", "2", "1"]),
    (3, &["table", "--", "--workers", "wk", "1"]),
    (3, &["table", "--", "--"]),
    (4, &["probe", "3", "--", "--"]),
    (2, &["relations", "--workers=1", "1", "wk"]),
    (2, &["relations", "0", "wk"]),
    (2, &["relations", "33", "wk"]),
    (4, &["relations", "1", "wk", "x"]),
    (4, &["relations", "--", "1"]),
    (0, &["table", "--", "-", "1"]),
    (0, &["table", "-", "--workers", "016", "000000099"]),
    (0, &["probe", "--workers=0", "24"]),
    (0, &["relations", "032", "-"]),
    (0, &["relations", "1", "bgw", "--"]),
];

#[test]
fn the_first_refused_word(rt: HostRuntime) -> Result<(), Fail> {
    assert!(rt; are_refused(rt.alloc(), &LINES)?);
    Ok(())
}

/// Command lines of sessions.
const SESSIONS: [Row; 27] = [
    (4, &["session", "wk", "1"]),
    (5, &["session", "wk", "1", "--"]),
    (4, &["session", "wk", "1", "ask:0:0,0"]),
    (4, &["session", "wk", "1", "ask:1:0:1", "finish"]),
    (5, &["session", "wk", "1", "finish", "finish"]),
    (6, &["session", "wk", "1", "finish", "--workers"]),
    (4, &["session", "wk", "2", "grow:2"]),
    (4, &["session", "wk", "2", "grow:"]),
    (4, &["session", "wk", "2", "grow"]),
    (4, &["session", "wk", "2", "grow:+3"]),
    (4, &["session", "wk", "2", "grow:3:4"]),
    (4, &["session", "wk", "2", "Grow:3"]),
    (4, &["session", "wk", "2", "grow:1000000000"]),
    (
        5,
        &["session", "wk", "2", "grow:999999999", "grow:1000000000"],
    ),
    (5, &["session", "wk", "2", "grow:3", "grow:3"]),
    (6, &["session", "wk", "2", "grow:5", "finish", "grow:4"]),
    (6, &["session", "wk", "1", "grow:2", "finish", "finish"]),
    (
        7,
        &["session", "wk", "1", "finish", "grow:2", "finish", "finish"],
    ),
    (5, &["session", "wk", "1", "finish", "finish", "grow:2"]),
    (5, &["session", "wk", "1", "grow:2", "--workers=17"]),
    (0, &["session", "wk", "1", "finish", "grow:2", "finish"]),
    (
        0,
        &[
            "session", "wk", "1", "--", "grow:2", "finish", "ask:1:0", "grow:24",
        ],
    ),
    (0, &["session", "wk", "1", "grow:02", "--workers=0"]),
    (0, &["session", "-", "0", "grow:1"]),
    (
        0,
        &[
            "session",
            "-",
            "2",
            "grow:25",
            "grow:000000026",
            "grow:999999999",
        ],
    ),
    (0, &["session", "wp", "1", "finish", "--"]),
    (0, &["session", "wk", "1", "--", "ask:1:0", "ask:255:255,0"]),
];

#[test]
fn the_first_refused_word_of_a_session(rt: HostRuntime) -> Result<(), Fail> {
    assert!(rt; are_refused(rt.alloc(), &SESSIONS)?);
    Ok(())
}

/// Command lines of numbers, volumes and large structures.
const NUMBERS: [Row; 44] = [
    (2, &["number"]),
    (2, &["number", "wp", "1", "0"]),
    (2, &["number", "-", "1", "0"]),
    (2, &["number", "--workers=1", "wk", "1", "1"]),
    (5, &["number", "wk", "1", "1", "--workers=1"]),
    (3, &["number", "wk", "256", "0"]),
    (4, &["number", "wk", "1"]),
    (5, &["number", "wk", "1", "--"]),
    (5, &["number", "wk", "1", "1", "256"]),
    (6, &["number", "wk", "1", "1", "--", "-1"]),
    (6, &["number", "wk", "0", "0", "0"]),
    (7, &["number", "wk", "0", "--", "0", "0"]),
    (5, &["number", "bgw", "0", "255"]),
    (
        30,
        &[
            "number", "wk", "0", "0", "0", "0", "0", "0", "0", "0", "0", "0", "0", "0", "0", "0",
            "0", "0", "0", "0", "0", "0", "0", "0", "0", "0", "0", "0", "0", "0",
        ],
    ),
    (
        0,
        &[
            "number", "wk", "0", "0", "0", "0", "0", "0", "0", "0", "0", "0", "0", "0", "0", "0",
            "0", "0", "0", "0", "0", "0", "0", "0", "0", "0", "0", "0", "0",
        ],
    ),
    (0, &["number", "bgw", "255", "1", "000"]),
    (0, &["number", "--", "wk", "1", "1"]),
    (0, &["number", "wk", "--", "1", "1"]),
    (0, &["number", "wk", "1", "--", "1"]),
    (0, &["number", "wk", "1", "1", "--"]),
    (2, &["volume"]),
    (3, &["volume", "1"]),
    (3, &["volume", "0", "27"]),
    (3, &["volume", "1", "0"]),
    (4, &["volume", "0", "2"]),
    (5, &["volume", "0", "--", "2"]),
    (4, &["volume", "1", "1", "1"]),
    (2, &["volume", "--workers", "1", "1", "1"]),
    (0, &["volume", "255", "026"]),
    (0, &["volume", "--", "0", "3"]),
    (0, &["volume", "1", "1", "--"]),
    (2, &["bulk", "1234567890", "1", "1"]),
    (3, &["bulk", "1", "9", "1"]),
    (3, &["bulk", "1", "0", "1"]),
    (4, &["bulk", "1", "1", "x"]),
    (4, &["bulk", "1", "1"]),
    (5, &["bulk", "1", "1", "3", "4"]),
    (5, &["bulk", "1", "2", "1", "--workers=17"]),
    (0, &["bulk", "999999999", "008", "1", "--workers", "16"]),
    (0, &["bulk", "--workers=0", "1", "2", "1"]),
    (0, &["bulk", "--", "1", "1", "3"]),
    (0, &["bulk", "1", "--", "1", "3"]),
    (0, &["bulk", "1", "1", "--", "3"]),
    (0, &["bulk", "1", "1", "3", "--"]),
];

#[test]
fn the_first_refused_word_of_a_number(rt: HostRuntime) -> Result<(), Fail> {
    assert!(rt; are_refused(rt.alloc(), &NUMBERS)?);
    Ok(())
}

/// Whether the words ask for this number.
fn asks_number(words: &[String], want: Family, genus: u8, indices: &[u8]) -> bool {
    match read_words(words) {
        Asked::Number { family, key } => {
            family == want && key.g() == genus && key.idx() == indices
        }
        _ => false,
    }
}

/// Whether they ask for this volume.
fn asks_volume(words: &[String], want: (u8, u8)) -> bool {
    match read_words(words) {
        Asked::Volume { genus, places } => (genus, places) == want,
        _ => false,
    }
}

/// Whether they ask for this large structure.
fn asks_bulk(words: &[String], want: (u32, u8, u32, u8)) -> bool {
    match read_words(words) {
        Asked::Bulk {
            seed,
            dim,
            bound,
            workers,
        } => (seed, dim, bound, workers) == want,
        _ => false,
    }
}

#[test]
fn a_number_is_read(rt: HostRuntime) -> Result<(), Fail> {
    let words = words_of(rt.alloc(), &["number", "bgw", "2", "3", "1", "2"])?;
    assert!(rt; asks_number(&words, Family::Bgw, 2, &[1, 2, 3]));
    Ok(())
}

#[test]
fn a_volume_is_read(rt: HostRuntime) -> Result<(), Fail> {
    let words = words_of(rt.alloc(), &["volume", "1", "2"])?;
    assert!(rt; asks_volume(&words, (1, 2)));
    Ok(())
}

#[test]
fn a_large_structure_is_read(rt: HostRuntime) -> Result<(), Fail> {
    let words = words_of(rt.alloc(), &["bulk", "7", "2", "--workers=5", "3"])?;
    assert!(rt; asks_bulk(&words, (7, 2, 3, 5)));
    Ok(())
}

/// Whether the lines are `finish`, a growth to 4, and an ask for 0,4 [0 0 0 1].
fn are_these(lines: &[Line]) -> bool {
    match lines {
        [Line::Finish, Line::Grow(bound), Line::Ask(key)] => {
            *bound == 4 && key.g() == 0 && key.idx() == [0, 0, 0, 1].as_slice()
        }
        _ => false,
    }
}

/// Whether the words ask for a session of Witten and Kontsevich up to 3 with four workers, and these lines.
fn asks_session(alloc: Global, words: &[String]) -> Result<bool, AllocError> {
    match read_words(words) {
        Asked::Session {
            kind,
            bound,
            workers,
            script,
        } => {
            let read = kind == Kind::Named(Family::Wk) && bound == 3 && workers == 4;
            if greatest_bound(bound, script) != Ok(4) {
                return Ok(false);
            }
            Ok(read && are_these(&lines_made(alloc, script)?))
        }
        _ => Ok(false),
    }
}

const A_SESSION: [&str; 7] = [
    "session",
    "wk",
    "3",
    "--workers=4",
    "finish",
    "grow:4",
    "ask:0:1,0,0,0",
];

#[test]
fn a_session_is_read(rt: HostRuntime) -> Result<(), Fail> {
    let words = words_of(rt.alloc(), &A_SESSION)?;
    assert!(rt; asks_session(rt.alloc(), &words)?);
    Ok(())
}

/// How far a session's bounds go, or 0 where the words ask for none.
fn reached(words: &[String]) -> Result<u8, u32> {
    match read_words(words) {
        Asked::Session { bound, script, .. } => greatest_bound(bound, script),
        _ => Ok(0),
    }
}

/// Sessions, and their greatest bounds, or the first that isn't from 1 to 24.
const REACHES: [(Result<u8, u32>, &[&str]); 6] = [
    (Ok(1), &["session", "wk", "1", "finish"]),
    (
        Ok(24),
        &["session", "wk", "1", "grow:5", "finish", "grow:24"],
    ),
    (Err(0), &["session", "wk", "0", "grow:25"]),
    (Err(30), &["session", "wk", "30", "grow:31"]),
    (Err(25), &["session", "wk", "2", "grow:25", "grow:26"]),
    (
        Err(999999999),
        &["session", "wk", "2", "grow:3", "finish", "grow:999999999"],
    ),
];

/// Whether each of them has that reach.
fn are_reached(alloc: Global) -> Result<bool, AllocError> {
    for (want, texts) in &REACHES {
        let words = words_of(alloc, texts)?;
        if reached(&words) != *want {
            return Ok(false);
        }
    }
    Ok(true)
}

#[test]
fn the_bound_that_is_reached(rt: HostRuntime) -> Result<(), Fail> {
    assert!(rt; are_reached(rt.alloc())?);
    Ok(())
}
