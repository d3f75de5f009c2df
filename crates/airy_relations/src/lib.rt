//! The five relations of a quantum Airy structure, checked place by place.
#![tactic(auto)]

mod checks;
mod laws;
mod rows;
mod sides;
mod steps;
mod verdict;

pub use checks::check;
pub use laws::{no_difference, same_verdict};
pub use verdict::{Rel, Verdict};

#[cfg(test)]
mod tests;
