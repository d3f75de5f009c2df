use amp_plan::PlanCause;

/// Why a document gives no plan and values.
#[derive(Drop)]
pub enum JsonErr {
    /// The source failed.
    ReadFault,
    /// The document has more than 16,777,216 bytes.
    TooLong,
    /// It isn't JSON.
    NotJson,
    /// It isn't an object with exactly the members `bound`, a whole number in digits alone, `cells`, an array, and `kind`, a string.
    Form,
    /// `kind` is none of `wk`, `bgw` and `wp`, and not a text that the grammar reads.
    Kind,
    /// `bound` is 0 or above 24.
    Bound { got: u64 },
    /// A step for the number `c_k` of Weil and Petersson leaves the range.
    Make { k: u8 },
    /// The plan passes the limit of its cells or of its needs.
    Plan { cause: PlanCause },
    /// The first place, from 0, at which `cells` isn't the list of the planned keys' cells.
    Cell { place: u32 },
    /// Want of memory.
    NoMemory,
}
