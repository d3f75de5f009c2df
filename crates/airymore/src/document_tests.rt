use crate::tests::{Case, are_told};
use std::test::Fail;

/// The document of the table of wk up to 1.
const WK_1: &[u8] =
    b"{\"bound\":1,\"cells\":[{\"g\":0,\"i\":[0,0,0],\"v\":\"1\"},{\"g\":1,\"i\":[1],\"v\":\"1/8\"}],\"kind\":\"wk\"}\n";

/// That of bgw up to 1.
const BGW_1: &[u8] =
    b"{\"bound\":1,\"cells\":[{\"g\":1,\"i\":[0],\"v\":\"1/8\"}],\"kind\":\"bgw\"}\n";

/// That of wp up to 1.
const WP_1: &[u8] =
    b"{\"bound\":1,\"cells\":[{\"g\":0,\"i\":[0,0,0],\"v\":\"1\"},{\"g\":1,\"i\":[0],\"v\":\"1/12\"},{\"g\":1,\"i\":[1],\"v\":\"1/8\"}],\"kind\":\"wp\"}\n";

/// A text with a letter, and the document of its table up to 1.
const LETTERED: &[u8] = b"airy 2\ndim 1\nshape atmost 3 1 letter\nA 0 0 0 1\nD 0 1/12\nend\n";

const LETTERED_1: &[u8] =
    b"{\"bound\":1,\"cells\":[{\"g\":0,\"i\":[0,0,0],\"v\":\"1\"},{\"g\":1,\"i\":[0],\"v\":\"1/12\"}],\"kind\":\"airy 2\\ndim 1\\nshape atmost 3 1 letter\\nA 0 0 0 1\\nD 0 1/12\\nend\\n\"}\n";

/// A text of which a number of 0,4 [0 0 0 0], three times 2^126, leaves the range.
const LARGE: &[u8] =
    b"airy 1\ndim 1\nA 0 0 0 85070591730234615865843651857942052864\nB 0 0 0 1\nend\n";

/// Documents that are written, and tables that are refused before.
const WRITTEN: [Case; 9] = [
    ("json wk 1 0", b"", 0, WK_1),
    ("json wk 1 2", b"", 0, WK_1),
    ("json bgw 1 0", b"", 0, BGW_1),
    ("json wp 1 1", b"", 0, WP_1),
    ("json - 1 0", LETTERED, 0, LETTERED_1),
    ("json wk 25 0", b"", 5, b"refused: bound 25\n"),
    ("json - 1 0", b"", 3, b"refused: line 1 Header\n"),
    (
        "json - 1 0",
        b"airy 1\ndim 2\nA 0 1 1 1\nend\n",
        4,
        b"refused: AA at 0 1 1: 1 and 0\n",
    ),
    ("json - 3 1", LARGE, 6, b"refused: over at 0,4 [0 0 0 0]\n"),
];

#[test]
fn written_documents(rt: HostRuntime) -> Result<(), Fail> {
    assert!(rt; are_told(&rt, rt.alloc(), &WRITTEN)?);
    Ok(())
}

/// Documents of a solution, and others.
const VERIFIED: [Case; 14] = [
    ("verify", WK_1, 0, b"solution\n"),
    ("verify", BGW_1, 0, b"solution\n"),
    ("verify", WP_1, 0, b"solution\n"),
    ("verify", LETTERED_1, 0, b"solution\n"),
    (
        "verify",
        b"{\"kind\":\"wk\",\"bound\":1,\"cells\":[{\"g\":0,\"i\":[0,0,0],\"v\":\"1\"},{\"g\":1,\"i\":[1],\"v\":\"1/9\"}]}",
        7,
        b"refused: 1,1 [1] first 1 gives 1/8, table has 1/9\n",
    ),
    (
        "verify",
        b"{\"bound\":2,\"cells\":[{\"g\":0,\"i\":[0,0,0],\"v\":\"85070591730234615865843651857942052864\"},{\"g\":1,\"i\":[0],\"v\":\"0\"},{\"g\":0,\"i\":[0,0,0,0],\"v\":\"0\"},{\"g\":1,\"i\":[0,0],\"v\":\"0\"}],\"kind\":\"airy 1\\ndim 1\\nA 0 0 0 85070591730234615865843651857942052864\\nB 0 0 0 1\\nend\\n\"}",
        6,
        b"refused: over at 0,4 [0 0 0 0] first 0\n",
    ),
    (
        "verify",
        b"{\"bound\":1,\"cells\":[{\"g\":0,\"i\":[0,0,0],\"v\":\"1\"}],\"kind\":\"wk\"}",
        3,
        b"refused: cell 1\n",
    ),
    ("verify", b"", 3, b"refused: not json\n"),
    ("verify", b"{}", 3, b"refused: form\n"),
    (
        "verify",
        b"{\"bound\":1,\"cells\":[],\"kind\":\"kdv\"}",
        3,
        b"refused: kind\n",
    ),
    (
        "verify",
        b"{\"bound\":18446744073709551615,\"cells\":[],\"kind\":\"wk\"}",
        5,
        b"refused: bound 18446744073709551615\n",
    ),
    (
        "verify",
        b"{\"bound\":14,\"cells\":[],\"kind\":\"wp\"}",
        6,
        b"refused: over in c 20\n",
    ),
    (
        "verify",
        b"{\"bound\":3,\"cells\":[],\"kind\":\"airy 1\\ndim 32\\nend\\n\"}",
        5,
        b"refused: cells at level 3\n",
    ),
    ("verify -", b"", 2, b"refused: word 2\n"),
];

#[test]
fn verified_documents(rt: HostRuntime) -> Result<(), Fail> {
    assert!(rt; are_told(&rt, rt.alloc(), &VERIFIED)?);
    Ok(())
}
