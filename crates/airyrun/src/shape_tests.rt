use crate::tests::{Case, WK_3, are_told};
use std::test::Fail;

/// Witten and Kontsevich with the indices up to 4, as a text with their law: all that a table up to 3 can need.
const WK_TEXT: &[u8] = b"\
    airy 2\ndim 5\nshape exact 3 1\nA 0 0 0 1\nB 0 1 0 3\nB 0 2 1 5\nB 0 3 2 7\nB 0 4 3 9\nB 1 0 0 1\n\
    B 1 1 1 3\nB 1 2 2 5\nB 1 3 3 7\nB 1 4 4 9\nB 2 0 1 1\nB 2 1 2 3\nB 2 2 3 5\nB 2 3 4 7\nB 3 0 2 1\n\
    B 3 1 3 3\nB 3 2 4 5\nB 4 0 3 1\nB 4 1 4 3\nC 2 0 0 1\nC 3 0 1 1\nC 4 0 2 1\nC 4 1 1 1\nD 1 1/8\n\
    end\n";

/// Brezin, Gross and Witten with the indices 0 and 1.
const BGW_TEXT: &[u8] = b"\
    airy 2\ndim 2\nshape exact 1 0\nB 0 0 0 1\nB 0 1 1 3\nB 1 0 1 1\nC 1 0 0 1\nD 0 1/8\nend\n";

/// Their table up to 3.
const BGW_3: &[u8] = b"1,1 [0] 1/8\n1,2 [0 0] 1/8\n1,3 [0 0 0] 1/4\n2,1 [1] 9/128\n";

/// Weil and Petersson with the indices up to 2 and their letter.
const WP_TEXT: &[u8] = b"\
    airy 2\ndim 3\nshape atmost 3 1 letter\nA 0 0 0 1\nB 0 0 0 2/3\nB 0 0 1 14/45\nB 0 0 2 124/945\n\
    B 0 1 0 3\nB 0 1 1 2\nB 0 1 2 14/15\nB 0 2 1 5\nB 0 2 2 10/3\nB 1 0 0 1\nB 1 0 1 2/3\n\
    B 1 0 2 14/45\nB 1 1 1 3\nB 1 1 2 2\nB 1 2 2 5\nB 2 0 1 1\nB 2 0 2 2/3\nB 2 1 2 3\nC 0 0 0 14/45\n\
    C 0 0 1 124/945\nC 0 0 2 254/4725\nC 0 1 1 254/4725\nC 0 1 2 292/13365\nC 0 2 2 5657908/638512875\n\
    C 1 0 0 2/3\nC 1 0 1 14/45\nC 1 0 2 124/945\nC 1 1 1 124/945\nC 1 1 2 254/4725\nC 1 2 2 292/13365\n\
    C 2 0 0 1\nC 2 0 1 2/3\nC 2 0 2 14/45\nC 2 1 1 14/45\nC 2 1 2 124/945\nC 2 2 2 254/4725\nD 0 1/12\n\
    D 1 1/8\nend\n";

/// Their table up to 2.
const WP_2: &[u8] = b"\
    0,3 [0 0 0] 1\n1,1 [0] 1/12 p\n1,1 [1] 1/8\n\
    0,4 [0 0 0 0] 2 p\n0,4 [0 0 0 1] 3\n\
    1,2 [0 0] 1/4 p^2\n1,2 [0 1] 1/2 p\n1,2 [0 2] 5/8\n1,2 [1 1] 3/8\n";

/// A structure of two indices with a letter.
const LETTER: &[u8] =
    b"airy 2\ndim 2\nshape atmost 3 1 letter\nA 0 0 0 1\nD 0 1/12\nD 1 1/8\nend\n";

/// The same without the letter.
const NO_LETTER: &[u8] = b"airy 2\ndim 2\nshape atmost +03 01\nA 0 0 0 1\nD 0 1/12\nD 1 1/8\nend\n";

/// Texts with a shape: the named structures cut to what a table needs print what their names do; and the lines that are refused.
const SHAPES: [Case; 15] = [
    ("probe 3", WK_TEXT, 0, WK_3),
    ("probe 3 --workers=0", BGW_TEXT, 0, BGW_3),
    ("table bgw 3", b"", 0, BGW_3),
    ("probe 2", WP_TEXT, 0, WP_2),
    ("table wp 2", b"", 0, WP_2),
    (
        "table - 1",
        LETTER,
        0,
        b"0,3 [0 0 0] 1\n1,1 [0] 1/12 p\n1,1 [1] 1/8\n",
    ),
    (
        "table - 1",
        NO_LETTER,
        0,
        b"0,3 [0 0 0] 1\n1,1 [0] 1/12\n1,1 [1] 1/8\n",
    ),
    (
        "session - 1 finish ask:1:9 ask:1:0 ask:1:1",
        LETTER,
        0,
        b"zero\n1/12 p\n1/8\n",
    ),
    ("relations 2 -", LETTER, 0, b"closed\n"),
    (
        "table - 1",
        b"airy 2\ndim 2\nshape exact 3 1\nB 0 0 0 1\nend\n",
        3,
        b"refused: line 4 Grade\n",
    ),
    (
        "table - 1",
        b"airy 2\ndim 1\nA 0 0 0 1\nend\n",
        3,
        b"refused: line 3 Shape\n",
    ),
    (
        "probe 1",
        b"airy 2\ndim 1\nshape all letter\nA 0 0 0 1\nend\n",
        3,
        b"refused: line 3 Shape\n",
    ),
    (
        "table - 1",
        b"airy 1\ndim 1\nshape all\nend\n",
        3,
        b"refused: line 3 Word\n",
    ),
    (
        "table - 1",
        b"airy 2\ndim 1\nshape all\nD 0 1/2\nend\n",
        0,
        b"0,3 [0 0 0] 0\n1,1 [0] 1/2\n",
    ),
    (
        "table - 2",
        b"airy 2\ndim 1\nshape exact 9 9\nend\n",
        0,
        b"",
    ),
];

#[test]
fn texts_with_a_shape(rt: HostRuntime) -> Result<(), Fail> {
    assert!(rt; are_told(&rt, rt.alloc(), &SHAPES)?);
    Ok(())
}
