//! Items in order, each with a small number, so that those with one number are met in order without a look at the others.
#![tactic(auto)]

mod chains;

pub use chains::Chains;

#[cfg(test)]
mod tests;
