//! What the bytes of an input are.

use crate::places::Places;
use event_log::Log;
use fault_kinds::Refusal;

/// What bytes that are kept, or the logs that were merged, are once they were judged.
#[derive(Debug, Drop)]
pub enum Judged {
    /// They are this log, all its clocks filled in, and how a fault at a line of it is told.
    Whole(Log, Places),
    /// They have this fault.
    Faulty(Refusal),
    /// They have no fault, and a read failed behind them.
    Failed,
}
