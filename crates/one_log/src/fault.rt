//! Why no log is written.
ghost use Rattle.std.specs.Prelude.{◌≡◌};
ghost use Rattle.one_log.specs.Faults.{status_of};

use fault_kinds::Refusal;

/// Why no log is written.
#[derive(Clone, Copy, Debug, PartialEq, Eq)]
pub enum Fault {
    /// The words are refused.
    Usage,
    /// The word at this place, from 0 on, stands behind a `--keep` and names what the log does not
    /// have.
    Unknown { word: usize },
    /// The input is faulty.
    Refused(Refusal),
    /// The text of the log has more than 64 MiB.
    TooLong,
    /// The input could not be read.
    Read,
    /// The log could not be written.
    Write,
    /// There was no memory.
    Memory,
}

impl Fault {
    /// The exit status: that of `pota` where it has the fault too, and 8 where it hasn't.
    pub fn status(&self) -> u8
        ensures { result ≡ status_of self.now }
    {
        match self {
            Fault::Usage => 2,
            Fault::Unknown { .. } => 2,
            Fault::Refused(_) => 4,
            Fault::Read => 5,
            Fault::Write => 6,
            Fault::Memory => 7,
            Fault::TooLong => 8,
        }
    }
}
