//! Why a run gave no verdict.
ghost use Rattle.std.specs.Prelude.{◌≡◌};
ghost use Rattle.fault_line.specs.Faults.{status_of, fault_of_refusal};

use event_log::LogFault;
use fault_kinds::{ImportFault, MergeFault, Refusal};
use pota_base::Status;
use rctl_grammar::FormulaFault;

/// Why a run gave no verdict.
#[derive(Clone, Copy, Debug, PartialEq, Eq)]
pub enum Fault {
    /// The words are refused.
    Usage,
    /// The formula's text is faulty, or the formula is outside the class.
    Formula(FormulaFault),
    /// The log is faulty.
    Log(LogFault),
    /// The text of two-line records is faulty.
    Import(ImportFault),
    /// The logs that are to be merged are faulty.
    Merge(MergeFault),
    /// The log could not be read.
    Read,
    /// The report could not be written.
    Write,
    /// There was no memory.
    Memory,
}

impl Fault {
    /// Why a log is refused.
    pub fn of_refusal(refusal: Refusal) -> Fault
        ensures { result ≡ fault_of_refusal refusal }
    {
        match refusal {
            Refusal::Formula(fault) => Fault::Formula(fault),
            Refusal::Log(fault) => Fault::Log(fault),
            Refusal::Import(fault) => Fault::Import(fault),
            Refusal::Merge(fault) => Fault::Merge(fault),
        }
    }

    /// The status of a run that ended so.
    pub fn status(&self) -> Status
        ensures { result ≡ status_of self.now }
    {
        match self {
            Fault::Usage => Status::Usage,
            Fault::Formula(_) => Status::Formula,
            Fault::Log(_) => Status::Log,
            Fault::Import(_) => Status::Log,
            Fault::Merge(_) => Status::Log,
            Fault::Read => Status::ReadFault,
            Fault::Write => Status::WriteFault,
            Fault::Memory => Status::OutOfMemory,
        }
    }
}
