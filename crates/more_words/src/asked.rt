use crate::numbers::CurveNumbers;
use command_words::Kind;

/// What the words ask for.
#[derive(Drop)]
pub enum MoreAsked {
    /// `curve X WORKERS U...`: the table of the curve of the numbers U, with so many workers.
    Curve {
        bound: u32,
        workers: u8,
        u: CurveNumbers,
    },
    /// `curve-relations N U...`: the relations of that curve's tensors, in so many places.
    CurveRelations {
        places: u8,
        u: CurveNumbers,
    },
    /// `brackets`: the brackets of the operators of the text of the source.
    Brackets,
    /// `quick X WORKERS`: the table of the text of the source, where its relations hold, without a look at any further pivot.
    Quick {
        bound: u32,
        workers: u8,
    },
    /// `json KIND X WORKERS`: the JSON document of a table, made with so many workers.
    Json {
        kind: Kind,
        bound: u32,
        workers: u8,
    },
    /// `verify`: whether the values of the JSON document of the source are a solution.
    Verify,
    /// How many words stand before the first that breaks a rule.
    Refused {
        before: usize,
    },
}
