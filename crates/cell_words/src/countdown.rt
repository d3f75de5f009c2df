// The countdown board and its seats.
ghost use Rattle.std.specs.Prelude.{◌≡◌, ℕ, ◌*◌, ◌<◌, ◌≤◌, None, replicate, vec_len};
ghost use Rattle.cell_words.specs.Layout.{cells};
ghost use Rattle.cell_words.specs.Starts.{starts};

use crate::plays::Counts;
use crate::view::{Base, View};
use atomic_table::{Seat, Table};
use std::alloc::Global;

pub(crate) const CLAIMED_WORD: u64 = 1 << 63;

pub(crate) const FILLED_WORD: u64 = (1 << 63) + 1;

/// A board whose cells count the needs that are still to sign.
#[derive(Drop)]
pub struct Countdown {
    pub(crate) table: Table<(), View, Base, Counts, Global>,
    pub(crate) base: Base,
    pub(crate) blank: amp_terms::Table,
    pub(crate) receipts: Vec<Vec<u32>>,
    pub(crate) ready: Vec<u32>,
    ghost some_seat: { 0 < base.seats },
    ghost starts: { ready.items ≡ starts base.plan base.carried.items },
    ghost spare: { (blank ≡ replicate (cells base.plan) None) × (vec_len receipts ≡ base.seats) },
    ghost sized: { (5 * cells base.plan ≤ table.shared.table_id.words) × (0 < table.shared.table_id.words)
        × (table.shared.table_id.slots ≡ 0) × (cells base.plan ≤ 200000) },
}

/// One caller's token on one countdown board.
#[derive(Drop)]
pub struct CountSeat {
    pub(crate) place: Option<Seat<(), View>>,
    pub(crate) number: u8,
    pub(crate) held: Option<u32>,
    pub(crate) done: Vec<u32>,
}

impl Countdown {
    ghost use Rattle.cell_words.specs.Seats.{plan_of, carried_of};

    /// The ranks that aren't carried and whose needs are all carried, ascending.
    pub fn ready_at_start(&self) -> &[u32]
        ensures { result.now ≡ starts (plan_of self.now) (carried_of self.now) }
    {
        self.ready.as_slice()
    }
}

impl CountSeat {
    ghost use Rattle.cell_words.specs.Seats.{number_of, held_of, done_of};

    /// Its number.
    pub fn number(&self) -> u8
        ensures { result ≡ number_of self.now }
    {
        self.number
    }

    /// The rank that it has claimed and not yet filled.
    pub fn held(&self) -> Option<u32>
        ensures { result ≡ held_of self.now }
    {
        self.held
    }

    /// Its receipts: the ranks that it filled, in order. On a board that goes on from a table those of seat number 0 begin with the carried
    /// ranks, ascending, which count as filled and which no seat of this board wrote.
    pub fn done(&self) -> &[u32]
        ensures { result.now ≡ done_of self.now }
    {
        self.done.as_slice()
    }
}
