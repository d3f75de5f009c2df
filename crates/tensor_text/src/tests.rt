use crate::{LineKind, TextErr, read_bytes, read_tensors, read_text, read_value, write_tensors};
use airy_io::{Failed, MemSink, MemSource, SlowSource, SteadySource};
use sparse_tensor::{Law, Shape, Tensors};
use std::alloc::{AllocError, Global};
use std::test::Fail;

const ONES: &[u8] = b"airy 1\ndim 1\nA 0 0 0 1\nB 0 0 0 1\nC 0 0 0 1\nD 0 1/8\nend\n";

fn steady(alloc: Global, text: &[u8]) -> Result<SteadySource, AllocError> {
    Ok(SteadySource {
        bytes: Vec::from_slice(alloc, text)?,
        at: 0,
    })
}

fn tensors_of(alloc: Global, text: &[u8]) -> Result<Tensors, Fail> {
    let mut source = steady(alloc, text)?;
    Ok(read_tensors(alloc, &mut source)?)
}

/// Whether a text has this refusal.
fn is_refused(alloc: Global, text: &[u8], wanted: TextErr) -> Result<bool, AllocError> {
    let mut source = steady(alloc, text)?;
    Ok(read_tensors(alloc, &mut source).err() == Some(wanted))
}

fn room(alloc: Global, fail_at: Vec<u32>) -> Result<MemSink, AllocError> {
    Ok(MemSink {
        space: vec![in alloc; 0u8; 256]?,
        taken: 0,
        fail_at,
        calls: 0,
        faults: 0,
    })
}

/// Whether writing the tensors, where the calls `fail_at` fail, ends so and leaves this text.
fn is_written(
    alloc: Global,
    tensors: &Tensors,
    fail_at: Vec<u32>,
    end: Result<(), Failed>,
    text: &[u8],
) -> bool {
    if tensors.dim() > 32 {
        return false;
    }
    match room(alloc, fail_at) {
        Ok(mut sink) => {
            write_tensors(tensors, &mut sink) == end && &sink.space[..sink.taken] == text
        }
        Err(_) => false,
    }
}

fn are_ones(tensors: &Tensors) -> bool {
    tensors.dim() == 1
        && tensors.shape() == Shape::All
        && tensors.a(0, 0, 0).parts() == (1, 1)
        && tensors.b(0, 0, 0).parts() == (1, 1)
        && tensors.c(0, 0, 0).parts() == (1, 1)
        && tensors.d(0).parts() == (1, 8)
}

fn ones_byte_by_byte(alloc: Global) -> Result<Tensors, Fail> {
    let mut slow = SlowSource {
        bytes: Vec::from_slice(alloc, ONES)?,
        at: 0,
    };
    Ok(read_tensors(alloc, &mut slow)?)
}

fn ones_come_back(alloc: Global) -> Result<bool, Fail> {
    let tensors = ones_byte_by_byte(alloc)?;
    Ok(are_ones(&tensors) && is_written(alloc, &tensors, Vec::new(alloc), Ok(()), ONES))
}

#[test]
fn ones_are_read_byte_by_byte_and_written_again(rt: HostRuntime) -> Result<(), Fail> {
    assert!(rt; ones_come_back(rt.alloc())?);
    Ok(())
}

const BROKEN: [(&[u8], u32, LineKind); 14] = [
    (b"", 1, LineKind::Header),
    (b"# note\nairy 3\n", 2, LineKind::Header),
    (b"airy 1\n#", 3, LineKind::Dim),
    (b"airy 1\n\ndim 33\n", 3, LineKind::Dim),
    (b"airy 1\ndim 1\n", 3, LineKind::NoEnd),
    (b"airy 1\ndim 1\nD 0 1\nEND\n", 4, LineKind::Word),
    (b"airy 1\ndim 1\nA 0 0 9\n", 3, LineKind::Count),
    (b"airy 1\ndim 1\nend 1\n", 3, LineKind::Count),
    (b"airy 1\ndim 2\nB 0 02 0 x\n", 3, LineKind::Index),
    (b"airy 1\ndim 1\nA 0 0 0 2/0\nend\n", 3, LineKind::Number),
    (
        b"airy 1\ndim 1\nD 0 170141183460469231731687303715884105728\nend\n",
        3,
        LineKind::Number,
    ),
    (b"airy 1\ndim 1\nB 0 0 0 1\nB 0 0 0 1\n", 4, LineKind::Twice),
    (
        b"airy 1\r\n# note\r\n\r\ndim 2\r\nC 0 0 1 1/2\r\nC 0 1 0 1/2\r\nend\r\n",
        6,
        LineKind::Twice,
    ),
    (b"airy 1\ndim 1\nend\n\nend\n", 5, LineKind::After),
];

fn are_refused(alloc: Global, texts: &[(&[u8], u32, LineKind)]) -> Result<bool, AllocError> {
    for (text, line, kind) in texts {
        let wanted = TextErr::Line {
            line: *line,
            kind: *kind,
        };
        if !is_refused(alloc, *text, wanted)? {
            return Ok(false);
        }
    }
    Ok(true)
}

#[test]
fn the_first_refused_line(rt: HostRuntime) -> Result<(), Fail> {
    assert!(rt; are_refused(rt.alloc(), &BROKEN)?);
    Ok(())
}

const UNSHAPED: [(&[u8], u32, LineKind); 17] = [
    (b"airy 2\ndim 0\nshape\n", 2, LineKind::Dim),
    (b"airy 2\ndim 1\n# note\n", 4, LineKind::Shape),
    (b"airy 2\ndim 1\nend\n", 3, LineKind::Shape),
    (b"airy 2\ndim 1\nshape\n", 3, LineKind::Shape),
    (b"airy 2\ndim 1\nSHAPE all\n", 3, LineKind::Shape),
    (b"airy 2\ndim 1\nshape none\n", 3, LineKind::Shape),
    (b"airy 2\ndim 1\nshape all letter\n", 3, LineKind::Shape),
    (b"airy 2\ndim 1\nshape exact 3\n", 3, LineKind::Shape),
    (
        b"airy 2\ndim 1\nshape exact 3 1 letter\n",
        3,
        LineKind::Shape,
    ),
    (b"airy 2\ndim 1\nshape exact 100 1\n", 3, LineKind::Shape),
    (b"airy 2\ndim 1\nshape exact 3 -001\n", 3, LineKind::Shape),
    (b"airy 2\ndim 1\nshape exact +-3 1\n", 3, LineKind::Shape),
    (b"airy 2\ndim 1\nshape atmost 3 -\n", 3, LineKind::Shape),
    (b"airy 2\ndim 1\nshape atmost 3 1 a\n", 3, LineKind::Shape),
    (
        b"airy 2\ndim 1\nshape atmost 3 1 letter letter\n",
        3,
        LineKind::Shape,
    ),
    (b"airy 2\ndim 1\nshape all\nshape all\n", 4, LineKind::Word),
    (b"airy 1\ndim 1\nshape all\nend\n", 3, LineKind::Word),
];

#[test]
fn shape_lines_that_are_refused(rt: HostRuntime) -> Result<(), Fail> {
    assert!(rt; are_refused(rt.alloc(), &UNSHAPED)?);
    Ok(())
}

const UNGRADED: [(&[u8], u32, LineKind); 10] = [
    (
        b"airy 2\ndim 2\nshape exact 3 1\nB 0 0 0\n",
        4,
        LineKind::Count,
    ),
    (
        b"airy 2\ndim 2\nshape exact 3 1\nB 0 0 2 1\n",
        4,
        LineKind::Index,
    ),
    (
        b"airy 2\ndim 2\nshape exact 3 1\nB 0 0 0 1/0\n",
        4,
        LineKind::Number,
    ),
    (
        b"airy 2\ndim 2\nshape exact 3 1\nB 0 0 0 1\n",
        4,
        LineKind::Grade,
    ),
    (
        b"airy 2\ndim 2\nshape exact 3 1\nA 0 0 1 1\n",
        4,
        LineKind::Grade,
    ),
    (
        b"airy 2\ndim 3\nshape exact 3 1\nC 2 0 0 1\nC 1 0 0 1\n",
        5,
        LineKind::Grade,
    ),
    (
        b"airy 2\ndim 3\nshape atmost 3 1\nD 0 1\nD 1 1\nD 2 1\n",
        6,
        LineKind::Grade,
    ),
    (
        b"airy 2\ndim 2\nshape exact 3 1\nB 0 1 0 1\nB 0 1 0 1\n",
        5,
        LineKind::Twice,
    ),
    (
        b"airy 2\ndim 2\nshape exact 3 1\nB 0 0 0 0\n",
        5,
        LineKind::NoEnd,
    ),
    (
        b"airy 2\ndim 2\nshape exact 3 1\nend\nB 0 0 0 1\n",
        5,
        LineKind::After,
    ),
];

#[test]
fn entries_that_break_the_grading(rt: HostRuntime) -> Result<(), Fail> {
    assert!(rt; are_refused(rt.alloc(), &UNGRADED)?);
    Ok(())
}

/// How many cuts of the text of ones in a row have one refusal.
const CUTS: [(u32, u32, LineKind); 14] = [
    (6, 1, LineKind::Header),
    (6, 2, LineKind::Dim),
    (2, 3, LineKind::NoEnd),
    (8, 3, LineKind::Count),
    (2, 4, LineKind::NoEnd),
    (8, 4, LineKind::Count),
    (2, 5, LineKind::NoEnd),
    (8, 5, LineKind::Count),
    (2, 6, LineKind::NoEnd),
    (4, 6, LineKind::Count),
    (1, 7, LineKind::NoEnd),
    (1, 6, LineKind::Number),
    (2, 7, LineKind::NoEnd),
    (2, 7, LineKind::Word),
];

/// Whether that many cuts of the text of ones, the shortest of this size, have this refusal.
fn are_cuts_refused(
    alloc: Global,
    size: usize,
    count: u32,
    wanted: TextErr,
) -> Result<bool, AllocError> {
    for more in 0..count {
        let cut = ONES
            .get(..size.saturating_add(more as usize))
            .unwrap_or(ONES);
        if !is_refused(alloc, cut, wanted)? {
            return Ok(false);
        }
    }
    Ok(true)
}

/// Whether these are the refusals of all proper cuts of the text of ones.
fn are_all_cuts_refused(alloc: Global, cuts: &[(u32, u32, LineKind)]) -> Result<bool, AllocError> {
    let mut size: usize = 0;
    for (count, line, kind) in cuts {
        let wanted = TextErr::Line {
            line: *line,
            kind: *kind,
        };
        if !are_cuts_refused(alloc, size, *count, wanted)? {
            return Ok(false);
        }
        size = size.saturating_add(*count as usize);
    }
    Ok(size == ONES.len() - 1)
}

#[test]
fn a_text_cut_at_each_byte(rt: HostRuntime) -> Result<(), Fail> {
    assert!(rt; are_all_cuts_refused(rt.alloc(), &CUTS)?);
    Ok(())
}

fn are_noted(tensors: &Tensors) -> bool {
    tensors.dim() == 2
        && tensors.c(0, 1, 0).parts() == (1, 2)
        && tensors.c(1, 0, 0).parts() == (0, 1)
}

#[test]
fn notes_blanks_and_zeros(rt: HostRuntime) -> Result<(), Fail> {
    let text =
        b"\t\n#\xff\x00 any bytes\nairy\t1\r\n\r\n dim  02 \r\nC 0 00 1 +2/4\r\nC 0 1 0 -0\nend";
    let tensors = tensors_of(rt.alloc(), text.as_slice())?;
    assert!(rt; are_noted(&tensors));
    Ok(())
}

fn has_parts(word: &[u8], num: i128, den: i128) -> bool {
    match read_value(word) {
        Some(value) => value.parts() == (num, den),
        None => false,
    }
}

fn are_values() -> bool {
    has_parts(b"+0006/0008", 3, 4)
        && has_parts(
            b"-170141183460469231731687303715884105727",
            -170141183460469231731687303715884105727,
            1,
        )
        && has_parts(b"0000000000000000000000000000000000000000000001", 1, 1)
        && has_parts(b"-0", 0, 1)
}

fn are_no_values() -> bool {
    read_value(b"9999999999999999999999999999999999999999") == None
        && read_value(b"+-1") == None
        && read_value(b"1/2/3") == None
        && read_value(b"1/") == None
}

#[test]
fn values(rt: HostRuntime) {
    assert!(rt; are_values());
    assert!(rt; are_no_values());
}

fn failing_source(alloc: Global) -> Result<MemSource, AllocError> {
    let fail_at = vec![in alloc; 1u32]?;
    Ok(MemSource {
        bytes: Vec::from_slice(alloc, ONES)?,
        at: 0,
        fail_at,
        calls: 0,
        faults: 0,
    })
}

#[test]
fn a_source_that_fails_in_mid_text(rt: HostRuntime) -> Result<(), Fail> {
    let mut source = failing_source(rt.alloc())?;
    assert!(rt; read_tensors(rt.alloc(), &mut source).err() == Some(TextErr::ReadFault));
    assert!(rt; source.faults == 1);
    Ok(())
}

/// Whether the text of that many signs of a note has this refusal.
fn is_note_refused(alloc: Global, len: usize, wanted: TextErr) -> Result<bool, AllocError> {
    let bytes = vec![in alloc; b'#'; len]?;
    is_refused(alloc, bytes.as_slice(), wanted)
}

#[test]
fn the_longest_text(rt: HostRuntime) -> Result<(), Fail> {
    let no_header = TextErr::Line {
        line: 2,
        kind: LineKind::Header,
    };
    assert!(rt; is_note_refused(rt.alloc(), 1_048_576, no_header)?);
    assert!(rt; is_note_refused(rt.alloc(), 1_048_577, TextErr::TooLong)?);
    Ok(())
}

fn disordered(alloc: Global) -> Result<Tensors, Fail> {
    let text =
        b"airy 1\ndim 12\nD 11 1\nC 2 1 0 -7\nB 0 1 0 3\nA 10 0 0 5\nD 0 1/8\nB 0 0 1 2\nA 0 11 1 -2/6\nend\n";
    tensors_of(alloc, text.as_slice())
}

/// Whether the tensors are written in the canonical order.
fn is_ordered(alloc: Global, tensors: &Tensors) -> bool {
    let ordered =
        b"airy 1\ndim 12\nA 0 1 11 -1/3\nA 10 0 0 5\nB 0 0 1 2\nB 0 1 0 3\nC 2 0 1 -7\nD 0 1/8\nD 11 1\nend\n";
    is_written(alloc, tensors, Vec::new(alloc), Ok(()), ordered.as_slice())
}

/// Whether a sink that fails at its call 3 is left with the lines before.
fn is_cut_short(alloc: Global, tensors: &Tensors) -> bool {
    let text = b"airy 1\ndim 12\nA 0 1 11 -1/3\n".as_slice();
    match vec![in alloc; 3u32] {
        Ok(fail_at) => is_written(alloc, tensors, fail_at, Err(Failed), text),
        Err(_) => false,
    }
}

fn has_canonical_order(alloc: Global) -> Result<bool, Fail> {
    let tensors = disordered(alloc)?;
    Ok(tensors.dim() == 12 && is_ordered(alloc, &tensors) && is_cut_short(alloc, &tensors))
}

#[test]
fn the_canonical_order(rt: HostRuntime) -> Result<(), Fail> {
    assert!(rt; has_canonical_order(rt.alloc())?);
    Ok(())
}

/// Texts, the law of each with whether indices keep it exactly and whether there is a letter, and what is written again.
const LAWS: [(&[u8], i32, i32, bool, bool, &[u8]); 4] = [
    (
        b"airy 2\ndim 3\nshape exact +3 01\nD 1 1/8\nC 2 0 0 1\nB 1 1 1 3\nB 0 1 0 1\nB 0 0 0 -0\nA 0 0 0 1\nend",
        3,
        1,
        true,
        false,
        b"airy 2\ndim 3\nshape exact 3 1\nA 0 0 0 1\nB 0 1 0 1\nB 1 1 1 3\nC 2 0 0 1\nD 1 1/8\nend\n",
    ),
    (
        b"airy 2\ndim 2\nshape exact 1 -0\nC 1 0 0 1\nB 1 0 1 3\nD 0 1/8\nend\n",
        1,
        0,
        true,
        false,
        b"airy 2\ndim 2\nshape exact 1 0\nB 1 0 1 3\nC 1 0 0 1\nD 0 1/8\nend\n",
    ),
    (
        b"# note\nairy 2\ndim 2\n\nshape atmost 3 1 letter\nA 0 0 0 1\nD 0 1/12\nD 1 1/8\nend\n",
        3,
        1,
        false,
        true,
        b"airy 2\ndim 2\nshape atmost 3 1 letter\nA 0 0 0 1\nD 0 1/12\nD 1 1/8\nend\n",
    ),
    (
        b"airy 2\ndim 32\nshape\tatmost -99 -09\nB 0 0 31 1\nend\n",
        -99,
        -9,
        false,
        false,
        b"airy 2\ndim 32\nshape atmost -99 -9\nB 0 0 31 1\nend\n",
    ),
];

fn shape_of(per_g: i32, per_n: i32, exact: bool) -> Shape {
    let law = Law { per_g, per_n };
    if exact {
        Shape::Exact(law)
    } else {
        Shape::AtMost(law)
    }
}

/// Whether a text has this shape, and a letter or none, and is written again as that one.
fn is_shaped(
    alloc: Global,
    text: &[u8],
    shape: Shape,
    letter: bool,
    written: &[u8],
) -> Result<bool, Fail> {
    let tensors = tensors_of(alloc, text)?;
    Ok(
        tensors.shape() == shape
            && tensors.letter() == letter
            && is_written(alloc, &tensors, Vec::new(alloc), Ok(()), written),
    )
}

fn are_laws(alloc: Global, rows: &[(&[u8], i32, i32, bool, bool, &[u8])]) -> Result<bool, Fail> {
    for (text, per_g, per_n, exact, letter, written) in rows {
        let shape = shape_of(*per_g, *per_n, *exact);
        if !is_shaped(alloc, *text, shape, *letter, *written)? {
            return Ok(false);
        }
    }
    Ok(true)
}

#[test]
fn laws_are_read_and_written_again(rt: HostRuntime) -> Result<(), Fail> {
    assert!(rt; are_laws(rt.alloc(), &LAWS)?);
    Ok(())
}

#[test]
fn every_shape_is_written_without_one(rt: HostRuntime) -> Result<(), Fail> {
    let text = b"airy 2\ndim 1\nshape all\nA 0 0 0 1\nB 0 0 0 1\nC 0 0 0 1\nD 0 1/8\nend\n";
    assert!(rt; is_shaped(rt.alloc(), text.as_slice(), Shape::All, false, ONES)?);
    Ok(())
}

/// ONES behind a line of 1,048,577 spaces.
fn long_text(alloc: Global) -> Result<Vec<u8>, AllocError> {
    let mut text = vec![in alloc; b' '; 1_048_577]?;
    text.push(b'\n')?;
    text.extend_from_slice(ONES)?;
    Ok(text)
}

fn is_long_text_read(alloc: Global) -> Result<bool, Fail> {
    let text = long_text(alloc)?;
    if text.len() > 2_000_000 {
        return Ok(false);
    }
    Ok(are_ones(&read_text(alloc, text.as_slice())?))
}

fn is_empty_text_refused(alloc: Global) -> bool {
    let kind = LineKind::Header;
    read_text(alloc, b"").err() == Some(TextErr::Line { line: 1, kind })
}

#[test]
fn texts_in_memory(rt: HostRuntime) -> Result<(), Fail> {
    assert!(rt; is_empty_text_refused(rt.alloc()) && is_long_text_read(rt.alloc())?);
    Ok(())
}

/// How many bytes are read of a source of five, where at most so many may come.
fn bytes_read(alloc: Global, most: usize) -> Result<usize, Fail> {
    let mut source = steady(alloc, b"12345")?;
    if most > 100 {
        return Ok(0);
    }
    Ok(read_bytes(alloc, &mut source, most)?.len())
}

fn is_too_long(alloc: Global, most: usize) -> Result<bool, AllocError> {
    let mut source = steady(alloc, b"12345")?;
    Ok(most <= 100 && read_bytes(alloc, &mut source, most).err() == Some(TextErr::TooLong))
}

#[test]
fn bytes_up_to_a_limit(rt: HostRuntime) -> Result<(), Fail> {
    let alloc = rt.alloc();
    assert!(rt; bytes_read(alloc, 6)? == 5 && bytes_read(alloc, 5)? == 5 && is_too_long(alloc, 4)?);
    Ok(())
}
