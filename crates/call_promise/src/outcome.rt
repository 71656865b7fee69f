//! How a run ended.

use fault_line::Fault;
use pota_base::Status;

/// What a run tells its caller.
#[derive(Clone, Copy, Debug, PartialEq, Eq)]
pub struct Outcome {
    pub status: Status,
    /// How many batches of the log were closed without a fault.
    pub batches: u32,
    /// None exactly where there is a verdict.
    pub fault: Option<Fault>,
}
