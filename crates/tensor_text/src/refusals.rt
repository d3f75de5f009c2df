/// The check that a line of a text is the first to fail.
#[derive(Clone, Copy, Debug, PartialEq, Eq)]
pub enum LineKind {
    /// The first line that counts is neither `airy 1` nor `airy 2`, or there is none.
    Header,
    /// The second line that counts isn't `dim N` with N from 1 to 32, or there is none.
    Dim,
    /// The header is `airy 2`, and the third line that counts isn't a shape line, or there is none.
    Shape,
    /// The first word of a later line is none of `A`, `B`, `C`, `D` and `end`.
    Word,
    /// The line hasn't as many words as its first word wants.
    Count,
    /// One of its indices isn't a number below dim.
    Index,
    /// Its value isn't a value.
    Number,
    /// Its value isn't 0, and the entry breaks the grading of the shape.
    Grade,
    /// Its value isn't 0, and an earlier line stored an entry at the same place.
    Twice,
    /// The text ends without `end`.
    NoEnd,
    /// A line that counts follows `end`.
    After,
}

/// Why a text gives no tensors.
#[derive(Clone, Copy, Debug, PartialEq, Eq)]
pub enum TextErr {
    /// The source failed.
    ReadFault,
    /// The text has more than 1,048,576 bytes.
    TooLong,
    /// The first refused line, counted from 1, and the first check that it fails.
    Line { line: u32, kind: LineKind },
    /// Want of memory.
    NoMemory,
}
