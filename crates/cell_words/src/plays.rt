// The rule of the countdown board, and what its steps tell.
ghost use Rattle.cell_words.specs.Countdown.{Keeps, first_view, Looked, Claimed, Wrote, Filled};
ghost use Rattle.cell_words.specs.Countdown.{Signed, Read, left_part, right_part, joined, spent};

use crate::view::{Base, View};
use atomic_table::{Join, Play, Split, TableRule};

pub struct Counts;

impl TableRule<(), View, Base> for Counts {
    ghost holds = { λ _. Keeps };

    ghost first = { λ k. first_view k.plan k.seats k.carried.items };
}

/// A load of a state word.
pub struct Load;

impl Play<(), View> for Load {
    ghost then = { Looked };
}

/// A compare and exchange of a state word, from 0 to CLAIMED.
pub struct Exchange;

impl Play<(), View> for Exchange {
    ghost then = { Claimed };
}

/// A store of a value word.
pub struct Write;

impl Play<(), View> for Write {
    ghost then = { Wrote };
}

/// A store of FILLED.
pub struct Mark;

impl Play<(), View> for Mark {
    ghost then = { Filled };
}

/// A state word is lowered by 1.
pub struct Sign;

impl Play<(), View> for Sign {
    ghost then = { Signed };
}

/// A load of a value word.
pub struct Word;

impl Play<(), View> for Word {
    ghost then = { Read };
}

/// A portion moves to a new seat, and a seat takes all portions of another.
pub struct Parts;

impl Split<View> for Parts {
    ghost left = { left_part };

    ghost right = { right_part };
}

impl Join<View> for Parts {
    ghost both = { joined };

    ghost spent = { spent };
}
