ghost use Rattle.std.specs.Prelude.{IsTrue, ◌↔◌, ◌≢◌, ◌<◌};

/// Whether a worker may fill a cell.
pub trait Gate {
    /// Asked before each cell: `done` counts the cells that this worker has filled. On false the worker ends.
    fn before(&self, worker: u8, done: u32, rank: u32) -> bool;
}

/// Lets every worker fill every cell.
#[derive(Clone, Copy, Debug, PartialEq, Eq)]
pub struct OpenGate;

impl Gate for OpenGate {
    fn before(&self, _worker: u8, _done: u32, _rank: u32) -> bool
        ensures { IsTrue result }
    {
        true
    }
}

/// Lets each worker fill so many cells.
#[derive(Clone, Copy, Debug, PartialEq, Eq)]
pub struct StopAfter {
    pub cells: u32,
}

impl Gate for StopAfter {
    fn before(&self, _worker: u8, done: u32, _rank: u32) -> bool
        ensures { IsTrue result ↔ (done < self.now.cells) }
    {
        done < self.cells
    }
}

/// Lets each worker fill cells until it meets one rank.
#[derive(Clone, Copy, Debug, PartialEq, Eq)]
pub struct StopAt {
    pub rank: u32,
}

impl Gate for StopAt {
    fn before(&self, _worker: u8, _done: u32, rank: u32) -> bool
        ensures { IsTrue result ↔ (rank ≢ self.now.rank) }
    {
        rank != self.rank
    }
}

/// Lets all workers but one fill every cell.
#[derive(Clone, Copy, Debug, PartialEq, Eq)]
pub struct StopWorker {
    pub worker: u8,
}

impl Gate for StopWorker {
    fn before(&self, worker: u8, _done: u32, _rank: u32) -> bool
        ensures { IsTrue result ↔ (worker ≢ self.now.worker) }
    {
        worker != self.worker
    }
}
