//! Workers that fill the cells of a board.
#![tactic(auto)]

mod crew;
mod deques;
mod gate;
mod levels;
mod sweeps;
#[cfg(test)]
mod tests;

pub use crew::fill_beside;
pub use gate::{Gate, OpenGate, StopAfter, StopAt, StopWorker};
pub use levels::level_beside;
pub use sweeps::{fill_all, sweep};
