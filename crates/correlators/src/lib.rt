//! Single intersection numbers and Weil-Petersson volumes from a table of amplitudes.
#![tactic(auto)]

mod coefficients;
mod counting;
mod divisions;
mod lists;
mod numbers;
mod polynomial;
mod refusals;
mod volumes;

pub use counting::counted;
pub use numbers::number;
pub use polynomial::{Poly, Term};
pub use refusals::CorrErr;
pub use volumes::volume;

#[cfg(test)]
mod tests;
