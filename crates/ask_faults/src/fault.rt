//! Why there is no answer to questions.
ghost use Rattle.ask_faults.specs.Faults.{status_of};
ghost use Rattle.std.specs.Prelude.{◌≡◌};

use ask_questions::NumberedFault;
use asked_observation::UnknownName;
use fault_kinds::Refusal;
use over_answers::NumberedStop;
use pota_base::Bytes;

/// Why there is no answer.
#[derive(Debug, Drop)]
pub enum Fault {
    /// The words are refused.
    Usage,
    /// A question can't be read, or there are too many to be asked together.
    Question(NumberedFault),
    /// A question has a name that the log does not have.
    Unknown(UnknownName),
    /// A question over processes has no answer on the log.
    Over(NumberedStop),
    /// The log is faulty, or a counter of a question falls in it; and the text of the log's line,
    /// as far as it is shown.
    Refused(Refusal, Bytes),
    /// The input could not be read.
    Read,
    /// The document could not be written.
    Write,
    /// There was no memory.
    Memory,
}

impl Fault {
    /// The exit status: that of `pota` where it has the fault too.
    pub fn status(&self) -> u8
        ensures { result ≡ status_of self.now }
    {
        match self {
            Fault::Usage => 2,
            Fault::Question(_) => 3,
            Fault::Unknown(_) => 3,
            Fault::Over(_) => 3,
            Fault::Refused(_, _) => 4,
            Fault::Read => 5,
            Fault::Write => 6,
            Fault::Memory => 7,
        }
    }
}
