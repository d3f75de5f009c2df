//! Lists of indices: the keys that tensors have at an Euler number, the measures of lists, and all splits of one.
#![tactic(auto)]

mod chosen;
mod letter;
mod listing;
mod measure;
mod rest;
mod split_list;
mod window;

pub use chosen::Chosen;
pub use letter::letter_at;
pub use listing::{Stop, add_level};
pub use measure::{Measure, covers_excess, law_excess, per_n};
pub use rest::{Rest, without};
pub use split_list::{Listed, SplitList, chain_of, splits_to_list};
