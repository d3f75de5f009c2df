use airy_index::Key;

/// A line of a session.
#[derive(Drop)]
pub enum Line {
    /// Asks for what a key has.
    Ask(Key),
    /// Waits until every cell is filled.
    Finish,
    /// Raises the bound of the session to this one.
    Grow(u8),
}
