//! Where a worker's entry and leave can be watched from outside.

/// A caller's own view of the workers: it is told when each begins and ends, and answers nothing.
pub trait Gate: Sync {
    /// Worker `worker`, counted from 1, is about to settle its first row.
    fn enter(&self, worker: u32);
    /// Worker `worker` has settled its last row.
    fn leave(&self, worker: u32);
}

/// A gate that does nothing.
#[derive(Clone, Copy)]
pub struct FreeGate;

impl Gate for FreeGate {
    fn enter(&self, _worker: u32) {}

    fn leave(&self, _worker: u32) {}
}
