//! What a run answers and writes: statuses and the lines of refusals, tables that are filled, checked and printed, and their summaries.
#![tactic(auto)]

mod families;
mod given;
mod pivots;
mod relations;
mod report;
mod tables;
mod texts;

pub use families::{refuse_making, tensors_of};
pub use given::words_given;
pub use pivots::{refuse_orders, refuse_pivot};
pub use relations::{say_relations, say_verdict};
pub use report::{
    put_fraction, refuse, refuse_bound, refuse_key, refuse_memory, refuse_number, refuse_word, say,
};
pub use tables::{Form, Summary, print_formed, print_stored, print_table, refuse_plan};
pub use texts::{InputErr, read_bounded, refuse_input, refuse_text};
