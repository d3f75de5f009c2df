//! The text of tensors, both ways: a reader that gives exactly what the grammar gives, and a writer of the one canonical text.
#![tactic(auto)]

mod entries;
mod letters;
mod lines;
mod places;
mod reading;
mod refusals;
mod shapes;
mod text;
mod values;
mod words;
mod writing;

pub use reading::{read_bytes, read_tensors};
pub use refusals::{LineKind, TextErr};
pub use text::read_text;
pub use values::read_value;
pub use writing::write_tensors;

#[cfg(test)]
mod tests;
