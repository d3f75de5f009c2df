use crate::{CurveNumbers, MoreAsked, read_more_words};
use airy_math::Family;
use command_words::Kind;
use std::alloc::{AllocError, Global};
use std::test::Fail;

fn words_of(alloc: Global, texts: &[&str]) -> Result<Vec<String>, AllocError> {
    let mut words = Vec::new(alloc);
    for text in texts {
        words.push(String::from_str(alloc, text)?)?;
    }
    Ok(words)
}

/// The number of the first word that is refused, or 0.
fn refused_word(words: &[String]) -> u128 {
    match read_more_words(words) {
        MoreAsked::Refused { before } => before as u128 + 1,
        _ => 0,
    }
}

/// The words of a command line, and the number of the first that is refused, or 0.
type Row = (u128, &'static [&'static str]);

/// Whether each row's first refused word has the row's number.
fn are_refused(alloc: Global, rows: &[Row]) -> Result<bool, AllocError> {
    for (number, texts) in rows {
        let words = words_of(alloc, texts)?;
        if refused_word(&words) != *number {
            return Ok(false);
        }
    }
    Ok(true)
}

const LINES: [Row; 52] = [
    (1, &[]),
    (1, &["frob"]),
    (1, &["table", "wk", "1"]),
    (1, &["Verify"]),
    (1, &["json-", "wk", "1", "0"]),
    (2, &["json"]),
    (2, &["json", "text", "1", "0"]),
    (2, &["json", "--", "1", "0"]),
    (3, &["json", "wk", "1234567890", "0"]),
    (4, &["json", "bgw", "1"]),
    (4, &["json", "wp", "1", "17"]),
    (5, &["json", "-", "1", "0", "0"]),
    (2, &["verify", "-"]),
    (1, &["--", "brackets"]),
    (1, &["Curve", "1", "0"]),
    (1, &["curve-relation", "1"]),
    (2, &["curve"]),
    (3, &["curve", "1"]),
    (2, &["curve", "1234567890", "0"]),
    (2, &["curve", "", "0"]),
    (2, &["curve", "+1", "0", "1/0"]),
    (2, &["curve", "--", "1", "0"]),
    (3, &["curve", "1", "17"]),
    (3, &["curve", "1", "0000"]),
    (3, &["curve", "1", "--workers=1"]),
    (4, &["curve", "1", "0", "1/0"]),
    (4, &["curve", "1", "0", "-"]),
    (
        5,
        &[
            "curve",
            "1",
            "0",
            "1",
            "170141183460469231731687303715884105728",
        ],
    ),
    (6, &["curve", "1", "0", "1", "2/3", "1p", "x"]),
    (
        28,
        &[
            "curve", "1", "0", "1", "1", "1", "1", "1", "1", "1", "1", "1", "1", "1", "1", "1",
            "1", "1", "1", "1", "1", "1", "1", "1", "1", "1", "1", "1",
        ],
    ),
    (
        28,
        &[
            "curve", "1", "0", "1", "1", "1", "1", "1", "1", "1", "1", "1", "1", "1", "1", "1",
            "1", "1", "1", "1", "1", "1", "1", "1", "1", "1", "1", "x",
        ],
    ),
    (
        27,
        &[
            "curve", "1", "0", "1", "1", "1", "1", "1", "1", "1", "1", "1", "1", "1", "1", "1",
            "1", "1", "1", "1", "1", "1", "1", "1", "1", "1", "x", "1", "1",
        ],
    ),
    (2, &["curve-relations"]),
    (2, &["curve-relations", "0"]),
    (2, &["curve-relations", "33", "1"]),
    (3, &["curve-relations", "1", "1//2"]),
    (
        27,
        &[
            "curve-relations",
            "1",
            "1",
            "1",
            "1",
            "1",
            "1",
            "1",
            "1",
            "1",
            "1",
            "1",
            "1",
            "1",
            "1",
            "1",
            "1",
            "1",
            "1",
            "1",
            "1",
            "1",
            "1",
            "1",
            "1",
            "1",
            "1",
        ],
    ),
    (2, &["brackets", ""]),
    (2, &["brackets", "1", "2"]),
    (2, &["quick"]),
    (3, &["quick", "1"]),
    (2, &["quick", "x", "17"]),
    (3, &["quick", "1", "17"]),
    (4, &["quick", "1", "0", "0"]),
    (0, &["curve", "999999999", "016"]),
    (
        0,
        &[
            "curve",
            "000000000",
            "0",
            "+170141183460469231731687303715884105727/00002",
            "-0",
        ],
    ),
    (
        0,
        &[
            "curve", "1", "0", "1", "1", "1", "1", "1", "1", "1", "1", "1", "1", "1", "1", "1",
            "1", "1", "1", "1", "1", "1", "1", "1", "1", "1", "1",
        ],
    ),
    (0, &["curve-relations", "001"]),
    (
        0,
        &[
            "curve-relations",
            "32",
            "-1",
            "-1",
            "-1",
            "-1",
            "-1",
            "-1",
            "-1",
            "-1",
            "-1",
            "-1",
            "-1",
            "-1",
            "-1",
            "-1",
            "-1",
            "-1",
            "-1",
            "-1",
            "-1",
            "-1",
            "-1",
            "-1",
            "-1",
            "-1",
        ],
    ),
    (0, &["brackets"]),
    (0, &["quick", "25", "000"]),
    (0, &["verify"]),
];

#[test]
fn the_first_refused_word(rt: HostRuntime) -> Result<(), Fail> {
    assert!(rt; are_refused(rt.alloc(), &LINES)?);
    Ok(())
}

fn are_numbers(u: &CurveNumbers) -> bool {
    match u.as_slice() {
        [first, second] => first.parts() == (-2, 3) && second.parts() == (2, 15),
        _ => false,
    }
}

fn is_curve(words: &[String]) -> bool {
    match read_more_words(words) {
        MoreAsked::Curve { bound, workers, u } => bound == 24 && workers == 3 && are_numbers(&u),
        _ => false,
    }
}

fn are_relations(words: &[String]) -> bool {
    match read_more_words(words) {
        MoreAsked::CurveRelations { places, u } => places == 7 && are_numbers(&u),
        _ => false,
    }
}

fn are_brackets(words: &[String]) -> bool {
    matches!(read_more_words(words), MoreAsked::Brackets)
}

fn is_quick(words: &[String]) -> bool {
    match read_more_words(words) {
        MoreAsked::Quick { bound, workers } => bound == 11 && workers == 16,
        _ => false,
    }
}

fn is_document(words: &[String], of: Kind) -> bool {
    match read_more_words(words) {
        MoreAsked::Json {
            kind,
            bound,
            workers,
        } => kind == of && bound == 12 && workers == 3,
        _ => false,
    }
}

#[test]
fn documents_asked_for(rt: HostRuntime) -> Result<(), Fail> {
    let family = words_of(rt.alloc(), &["json", "bgw", "12", "03"])?;
    let text = words_of(rt.alloc(), &["json", "-", "012", "3"])?;
    let verify = words_of(rt.alloc(), &["verify"])?;
    assert!(rt;
        is_document(&family, Kind::Named(Family::Bgw))
            && is_document(&text, Kind::Text)
            && matches!(read_more_words(&verify), MoreAsked::Verify)
    );
    Ok(())
}

#[test]
fn what_is_asked_for(rt: HostRuntime) -> Result<(), Fail> {
    let curve = words_of(rt.alloc(), &["curve", "024", "3", "-2/3", "+04/30"])?;
    let relations = words_of(rt.alloc(), &["curve-relations", "07", "-2/3", "2/15"])?;
    let brackets = words_of(rt.alloc(), &["brackets"])?;
    let quick = words_of(rt.alloc(), &["quick", "11", "16"])?;
    assert!(rt;
        is_curve(&curve) && are_relations(&relations) && are_brackets(&brackets) && is_quick(&quick)
    );
    Ok(())
}
