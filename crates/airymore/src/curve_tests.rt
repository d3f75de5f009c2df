use crate::tests::{Case, are_told};
use std::test::Fail;

/// The table of the first numbers of Weil and Petersson: their volumes up to the Euler number 3, as the literature has them, with 1 in
/// the place of pi squared.
const PETERSSON_3: &[u8] = b"\
    0,3 [0 0 0] 1\n\
    1,1 [0] 1/12\n1,1 [1] 1/8\n\
    0,4 [0 0 0 0] 2\n0,4 [0 0 0 1] 3\n\
    1,2 [0 0] 1/4\n1,2 [0 1] 1/2\n1,2 [0 2] 5/8\n1,2 [1 1] 3/8\n\
    0,5 [0 0 0 0 0] 10\n0,5 [0 0 0 0 1] 18\n0,5 [0 0 0 0 2] 15\n0,5 [0 0 0 1 1] 18\n\
    1,3 [0 0 0] 14/9\n1,3 [0 0 1] 13/4\n1,3 [0 0 2] 5\n1,3 [0 0 3] 35/8\n1,3 [0 1 1] 9/2\n1,3 [0 1 2] 15/4\n1,3 [1 1 1] 9/4\n\
    2,1 [0] 29/192\n2,1 [1] 169/480\n2,1 [2] 139/192\n2,1 [3] 203/192\n2,1 [4] 105/128\n";

/// 2^126 is 85070591730234615865843651857942052864.
const CASES: [Case; 20] = [
    (
        "curve 2 2 -2/3 2/15",
        b"",
        0,
        b"0,3 [0 0 0] 1\n1,1 [0] 1/12\n1,1 [1] 1/8\n0,4 [0 0 0 0] 2\n0,4 [0 0 0 1] 3\n1,2 [0 0] 1/4\n1,2 [0 1] 1/2\n1,2 [0 2] 5/8\n1,2 [1 1] 3/8\n",
    ),
    ("curve 3 16 -2/3 2/15 -4/315 2/2835", b"", 0, PETERSSON_3),
    (
        "curve 1 0 1",
        b"",
        0,
        b"0,3 [0 0 0] 1\n1,1 [0] -1/8\n1,1 [1] 1/8\n",
    ),
    // without numbers it is the table of Witten and Kontsevich, with zeros between its lines
    (
        "curve 2 1",
        b"",
        0,
        b"0,3 [0 0 0] 1\n1,1 [0] 0\n1,1 [1] 1/8\n0,4 [0 0 0 0] 0\n0,4 [0 0 0 1] 3\n1,2 [0 0] 0\n1,2 [0 1] 0\n1,2 [0 2] 5/8\n1,2 [1 1] 3/8\n",
    ),
    ("curve-relations 2 1", b"", 0, b"closed\n"),
    ("curve-relations 6", b"", 0, b"closed\n"),
    ("curve-relations 4 1 1", b"", 0, b"closed\n"),
    // the bound
    ("curve 0 0 1", b"", 5, b"refused: bound 0\n"),
    ("curve 25 0 1", b"", 5, b"refused: bound 25\n"),
    // a product of two numbers, and a sum
    (
        "curve 2 0 85070591730234615865843651857942052864",
        b"",
        6,
        b"refused: over in c 2\n",
    ),
    (
        "curve 2 0 9223372036854775808 -85070591730234615865843651857942052864",
        b"",
        6,
        b"refused: over in c 2\n",
    ),
    // three times a number, and an eighth of one
    (
        "curve 1 0 85070591730234615865843651857942052864",
        b"",
        6,
        b"refused: over in c 1\n",
    ),
    (
        "curve 1 0 1/85070591730234615865843651857942052864",
        b"",
        6,
        b"refused: over in c 1\n",
    ),
    // three times the 24th number; a 25th is a word too many
    (
        "curve-relations 12 0 0 0 0 0 0 0 0 0 0 0 0 0 0 0 0 0 0 0 0 0 0 0 85070591730234615865843651857942052864",
        b"",
        6,
        b"refused: over in c 24\n",
    ),
    (
        "curve-relations 12 0 0 0 0 0 0 0 0 0 0 0 0 0 0 0 0 0 0 0 0 0 0 0 0 0",
        b"",
        2,
        b"refused: word 27\n",
    ),
    ("curve 1 0 1/0", b"", 2, b"refused: word 4\n"),
    // ten times a number, in a sum of a relation
    (
        "curve-relations 2 0 0 21267647932558653966460912964485513216",
        b"",
        6,
        b"refused: over in BC at 0 1 0 1\n",
    ),
    // a plan beyond its limits
    ("curve 24 0", b"", 5, b"refused: cells at level 21\n"),
    // an eighth of c_2, in the amplitude of a key
    (
        "curve 2 0 0 1/85070591730234615865843651857942052863",
        b"",
        6,
        b"refused: over at 1,2 [0 0]\n",
    ),
    ("curve-relations 1 -1/2", b"", 0, b"closed\n"),
];

#[test]
fn curves(rt: HostRuntime) -> Result<(), Fail> {
    assert!(rt; are_told(&rt, rt.alloc(), &CASES)?);
    Ok(())
}
