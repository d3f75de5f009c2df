//! Tables as JSON documents: written, read, and verified against the constraints.
#![tactic(auto)]

mod canonical;
mod cells;
mod forms;
mod kinds;
mod reading;
mod refusals;
mod verify_ends;
mod verifying;
mod writing;

pub use canonical::canonical_text;
pub use reading::{Given, read_table};
pub use refusals::JsonErr;
pub use verify_ends::VerifyEnd;
pub use verifying::{same_verified, verified_job, verified_values, verify_values};
pub use writing::table_json;

#[cfg(test)]
mod reading_tests;
#[cfg(test)]
mod verify_tests;
#[cfg(test)]
mod writing_tests;
