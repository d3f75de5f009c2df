use airy_index::Key;
use frac128::Frac;

/// How the verification of given values ends.
#[derive(Drop)]
pub enum VerifyEnd {
    /// Every pivot sum of every key over these values is the key's value.
    Solution,
    /// A step of the key's pivot sum at this index leaves the range.
    Over {
        key: Key,
        pivot: u8,
    },
    /// The key's pivot sum at this index is another number than the value that was given.
    Differs {
        key: Key,
        pivot: u8,
        sum: Frac,
        given: Frac,
    },
}
