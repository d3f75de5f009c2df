use airy_index::Key;
use frac128::Frac;

/// How the check of every pivot of a table ends.
#[derive(Drop)]
pub enum CheckEnd {
    /// The first key in plan order without a Value. A step of its pivot sum at the least index leaves the range.
    NotValue {
        key: Key,
    },
    /// A step of the key's pivot sum at this index leaves the range.
    Over {
        key: Key,
        pivot: u8,
    },
    /// The key's pivot sums at two of its indices differ: the first, the least index, gives the table's Value v1, the second gives v2.
    Orders {
        key: Key,
        first: u8,
        v1: Frac,
        second: u8,
        v2: Frac,
    },
    /// Every pivot sum of every key is the table's Value.
    Solution,
}
