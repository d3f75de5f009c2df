// What a seat of a countdown board knows and did. No value of these types is made, but of Base.
use amp_plan::Plan;
use std::collections::LinkedList;

/// What a seat did to one rank.
pub struct Act {
    pub rank: u64,
    pub written: u64,
    pub filled: bool,
    pub signed: u64,
    pub freed: LinkedList<u64>,
}

/// The acts of one seat number.
pub struct Portion {
    pub number: u64,
    pub acts: LinkedList<Act>,
}

pub struct View {
    pub plan: Plan,
    pub seats: u64,
    pub portions: LinkedList<Portion>,
    pub seen: LinkedList<u64>,
    pub looks: u64,
    pub latest: Option<(u64, u64)>,
}

/// What no look changes of a seat.
pub struct Standing {
    pub number: u64,
    pub held: Option<u64>,
    pub done: LinkedList<u64>,
}

/// What a board is made over.
#[derive(Drop)]
pub struct Base {
    pub plan: Plan,
    pub seats: u64,
    pub carried: Vec<u32>,
}
