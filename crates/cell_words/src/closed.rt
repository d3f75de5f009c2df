use amp_plan::Plan;
use amp_terms::Table;

/// Want of memory for a board. The plan comes back.
#[derive(Drop)]
pub struct BoardErr {
    pub plan: Plan,
}

/// Want of memory for a board that is to be resumed. The plan and the table come back.
#[derive(Drop)]
pub struct ResumeErr {
    pub plan: Plan,
    pub table: Table,
}

/// What a board leaves: its plan, the outcomes of the cells that were filled, and the ranks that each seat filled, by its number, where
/// seats keep them. On a board that went on from a table the receipts of seat number 0 begin with the carried ranks, ascending, which
/// count as filled and which no seat of this board wrote.
#[derive(Drop)]
pub struct Closed {
    pub plan: Plan,
    pub table: Table,
    pub receipts: Vec<Vec<u32>>,
}
