//! Why there is no view.
ghost use Rattle.std.specs.Prelude.{◌≡◌};
ghost use Rattle.view_top.specs.Faults.{status_of};

use event_log::LogFault;
use report::ReportFault;

/// Why there is no view.
#[derive(Clone, Copy, Debug, PartialEq, Eq)]
pub enum Fault {
    /// The words are no view's name.
    Usage,
    /// The log is faulty.
    Log(LogFault),
    /// Nothing stands behind the log, as where the formula of the report was refused.
    NoReport,
    /// What stands behind the log is not one report or more.
    Report(ReportFault),
    /// The input has 1 GiB or more.
    TooLong,
    /// The last report has other processes than the log, or other numbers of events.
    OtherLog,
    /// The input could not be read.
    Read,
    /// The view could not be written.
    Write,
    /// There was no memory.
    Memory,
}

impl Fault {
    /// The exit status: that of `pota` where it has the fault too, and 8 or 10 where it hasn't.
    pub fn status(&self) -> u8
        ensures { result ≡ status_of self.now }
    {
        match self {
            Fault::Usage => 2,
            Fault::Log(_) => 4,
            Fault::Read => 5,
            Fault::Write => 6,
            Fault::Memory => 7,
            Fault::NoReport | Fault::Report(_) | Fault::TooLong => 8,
            Fault::OtherLog => 10,
        }
    }
}
