use crate::options::Left;
use airy_index::Key;
use airy_math::Family;

/// What a table or a check is of.
#[derive(Clone, Copy, Debug, PartialEq, Eq)]
pub enum Kind {
    /// A named structure.
    Named(Family),
    /// The text of the source.
    Text,
}

/// What the words ask for.
#[derive(Drop)]
pub enum Asked<'a> {
    /// `table KIND X`, with so many workers.
    Table {
        kind: Kind,
        bound: u32,
        workers: u8,
    },
    /// `session KIND X`, with so many workers, and the words of the script.
    Session {
        kind: Kind,
        bound: u32,
        workers: u8,
        script: Left<'a>,
    },
    /// `probe X`, with so many workers.
    Probe {
        bound: u32,
        workers: u8,
    },
    /// `relations N KIND`.
    Relations {
        places: u8,
        kind: Kind,
    },
    /// `number FAMILY G D...`: one number of `wk` or `bgw`, by its key.
    Number {
        family: Family,
        key: Key,
    },
    /// `volume G N`, with N from 1 to 26, where 2G - 2 + N is above 0.
    Volume {
        genus: u8,
        places: u8,
    },
    /// `bulk SEED DIM X`, with DIM from 1 to 8, and with so many workers.
    Bulk {
        seed: u32,
        dim: u8,
        bound: u32,
        workers: u8,
    },
    /// How many words stand before the first that breaks a rule.
    Refused {
        before: usize,
    },
}
