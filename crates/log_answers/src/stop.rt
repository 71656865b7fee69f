//! How a log that was checked ended.
ghost use Rattle.std.specs.Prelude.{◌≡◌};
ghost use Rattle.log_answers.specs.declared.stop.StopCause.TheVariants.{Memory};

use fault_kinds::Refusal;

/// Why a log has no verdict.
#[derive(Clone, Copy, Debug, PartialEq, Eq)]
pub enum StopCause {
    /// It is refused.
    Refused(Refusal),
    /// It could not be read.
    Read,
    /// A report could not be written.
    Write,
    /// There was no memory.
    Memory,
}

/// Why a log has no verdict, and how many of its batches were closed without a fault before.
#[derive(Clone, Copy, Debug, PartialEq, Eq)]
pub struct Stop {
    pub batches: u32,
    pub cause: StopCause,
}

impl Stop {
    /// There was no memory.
    pub fn without_memory() -> Stop
        ensures { result ≡ record { batches = 0; cause = Memory } }
    {
        Stop {
            batches: 0,
            cause: StopCause::Memory,
        }
    }
}

/// The verdict on a whole log.
#[derive(Clone, Copy, Debug, PartialEq, Eq)]
pub struct Verdict {
    /// How many batches the log has.
    pub batches: u32,
    /// Whether the formula is true at the initial cut.
    pub truth: bool,
}
