use airy_index::Key;

/// What a table of tensors that meet the five relations says of the solutions of their constraints.
#[derive(Drop)]
pub enum Agreed {
    /// Every rank has a Value: the series of the table is a solution.
    Solution,
    /// The first key in plan order without a Value.
    NotValue { key: Key },
}
