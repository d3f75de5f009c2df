//! The words of the command line of `airymore`: what they ask for, or the first of them that breaks a rule.
//!
//! There are no options: each word stands for the place that its number gives it. Word 1 is the command. The words are read from left
//! to right, and no memory is taken.
#![tactic(auto)]

mod asked;
mod laws;
mod numbers;
mod places;
#[cfg(test)]
mod tests;
mod words;

pub use asked::MoreAsked;
pub use laws::first_refused_word;
pub use numbers::CurveNumbers;
pub use places::{Left, next_long, next_short, next_word};
pub use words::read_more_words;
