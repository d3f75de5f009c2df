//! The words of a command line: what they ask for, or the first of them that breaks a rule.
//!
//! The words are read from left to right, and no memory is taken. Word 1 is the command. Of the later words, `--` makes all
//! behind it plain, `--workers N` or `--workers=N` may stand once in the commands that list it, and the plain words fill the
//! places of the command in order. Words that keep these rules, but ask for a key or a pair that isn't stable, are refused behind
//! all of them.
#![tactic(auto)]

mod asked;
mod bounds;
mod laws;
mod line;
mod numbers;
mod options;
mod places;
mod scripts;
#[cfg(test)]
mod tests;
mod words;

pub use asked::{Asked, Kind};
pub use bounds::{greatest_bound, is_bound};
pub use laws::first_refused_word;
pub use line::Line;
pub use numbers::{read_long, read_short};
pub use options::{Left, Mode};
pub use places::read_kind;
pub use scripts::{lines_made, read_asked};
pub use words::read_words;
