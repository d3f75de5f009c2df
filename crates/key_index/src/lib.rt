//! An index of keys by their codes. The code of a key is a number that adds up over its genus and its indices, so that a
//! walk over keys carries it by additions, and finds the rank of a key without making it.
#![tactic(auto)]

mod codes;
mod index;
mod slots;

pub use codes::genus_code;
pub use index::KeyIndex;

#[cfg(test)]
mod tests;
