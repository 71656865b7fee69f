//! What an input is once it was read.
use crate::places::Places;
use event_log::Log;
use fault_kinds::Refusal;

/// What an input is once it was read.
#[derive(Debug, Drop)]
pub enum Standing {
    /// Bytes without a fault, which are this log, and how its faults are told.
    Whole(Log, Places),
    /// Bytes with this fault first.
    Faulty(Refusal),
    /// Bytes without a fault, behind which a read failed.
    Failed,
}
