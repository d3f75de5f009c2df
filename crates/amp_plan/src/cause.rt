use airy_index::Key;
use sparse_tensor::Tensors;

/// Why no plan is made.
#[derive(Drop)]
pub enum PlanCause {
    /// The bound is 0 or above 24.
    Bound { got: u8 },
    /// More than 200,000 keys are planned: the Euler number of the 200,001st.
    Cells { level: u8 },
    /// The needs, added up in plan order, pass 4,000,000: the first key at which they do.
    Edges { key: Key },
    /// Want of memory.
    NoMemory,
}

/// A refused plan hands its tensors back.
#[derive(Drop)]
pub struct PlanErr {
    pub cause: PlanCause,
    pub tensors: Tensors,
}
