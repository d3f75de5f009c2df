//! Large valid tensors from a number: diagonal ones, moved by changes of basis.
#![tactic(auto)]

mod bulk;
mod draws;
mod full;
mod full_tensors;
mod putting;
mod room;
mod slots;

pub use bulk::bulk_tensors;
pub use full_tensors::{BulkErr, FullTensors};

#[cfg(test)]
mod tests;
