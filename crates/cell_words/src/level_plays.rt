ghost use Rattle.cell_words.specs.Levels.{Keeps, first_view, Looked, Wrote, Raised, Reads, new_asker, joined, spent};

use crate::level_view::View;
use amp_plan::Plan;
use atomic_table::{Join, Play, Split, TableRule};

/// The rule of the board.
pub struct Levels;

impl TableRule<(), View, Plan> for Levels {
    ghost holds = { λ _. Keeps };

    ghost first = { first_view };
}

/// A load of the count.
pub struct LookStep;

impl Play<(), View> for LookStep {
    ghost then = { Looked };
}

/// A store of the next value word.
pub struct Write;

impl Play<(), View> for Write {
    ghost then = { Wrote };
}

/// A store of the count raised by 1.
pub struct Raise;

impl Play<(), View> for Raise {
    ghost then = { Raised };
}

/// A load of a value word.
pub struct Read;

impl Play<(), View> for Read {
    ghost then = { Reads };
}

/// A new asker, and an asker's view that goes into another.
pub struct Part;

impl Split<View> for Part {
    ghost left = { λ v. v };

    ghost right = { new_asker };
}

impl Join<View> for Part {
    ghost both = { joined };

    ghost spent = { spent };
}
