/// Why a session gives no answer.
#[derive(Clone, Copy, Debug, PartialEq, Eq)]
pub enum SessionErr {
    /// The sink failed. A prefix of the lines was written.
    WriteFault,
    /// Want of memory, before the first line or at a `grow`. So many lines were written, those before it.
    NoMemory { lines: usize },
}
