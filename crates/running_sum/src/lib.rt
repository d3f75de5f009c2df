//! Sums and products of fractions that are reduced once at the end: what is obtained is what the steps in lowest terms obtain.
//!
//! A step is made without a reduction where the sizes of its numbers say that the step in lowest terms is in range, and in
//! lowest terms where they don't. Terms of words, the commonest, are multiplied in registers.
#![tactic(auto)]

ghost use Rattle.running_sum.specs.Certified.{CertifiedLaw};

mod sizes;
mod terms;
mod unreduced;
mod weight;
mod words;

pub use terms::{long_joined, long_once, long_twice, word_joined, word_once, word_twice};
pub use unreduced::Unreduced;
pub use weight::Weight;
pub use words::Word;

/// A law: multiples of one fraction 1/D are added, in any order, where D and the sum of their sizes are in range, and fractions
/// are multiplied where the products of their numbers are.
#[tactic(auto, using(crate::proofs::CertifiedLaw::certified_law))]
pub fn certified_law()
    ensures { CertifiedLaw }
{}

#[cfg(test)]
mod tests;
