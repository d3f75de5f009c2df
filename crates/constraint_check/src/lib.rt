//! The check of every pivot of a table: its series solves the constraints, or the first pivot that fails is named.
#![tactic(auto)]

mod crew;
mod ends;
mod keys;
mod pivots;

pub use crew::check_crew;
pub use ends::CheckEnd;
pub use keys::check_table;
pub use pivots::{Failure, Pivots, first_failing};

#[cfg(test)]
mod tests;
