//! Boards of cells that many callers fill and read, each cell once.
#![tactic(auto)]

mod alone;
mod cells;
mod claim;
mod close;
mod closed;
mod count_cells;
mod countdown;
mod deal;
mod ends;
mod fill;
mod filler;
mod frontier;
mod laws;
mod level_plays;
mod level_view;
mod levels;
mod make;
mod plays;
mod reader;
mod resume;
mod steps;
#[cfg(test)]
mod tests;
mod view;
mod words;

pub use cells::{Cells, Look};
pub use claim::Claim;
pub use closed::{BoardErr, Closed, ResumeErr};
pub use countdown::{CountSeat, Countdown};
pub use filler::{level_alone, level_sweep};
pub use frontier::{FillSeat, Frontier, LevelSeat};
pub use laws::grown_tables;
pub use levels::{level_end, level_outcome};
