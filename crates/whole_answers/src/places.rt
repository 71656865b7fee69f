//! How a fault at a line of a log that stands whole is told.
ghost use Rattle.std.specs.Prelude.{◌≡◌};
ghost use Rattle.form_readings.specs.Sources.{origin_at};
ghost use Rattle.log_rules.specs.Due.{placed};
ghost use Rattle.whole_answers.specs.inside.Places.{place_by, placed_result};

use event_log::LogFault;
use fault_kinds::Refusal;
use log_answers::{Stop, StopCause, Verdict};
use log_merge::{MergeCode, MergeFault, Origin};
use pota_base::List;

/// How a fault at a line of a log is told.
#[derive(Debug, Drop)]
pub enum Places {
    /// At that line.
    Lines,
    /// Where the event of that number comes from.
    Origins(List<Origin>),
}

// Where the event of this number comes from.
fn origin_at(origins: &[Origin], number: u32) -> Origin
    ensures { result ≡ origin_at origins.now number }
{
    let place = number.saturating_sub(1) as usize;
    if place < origins.len() {
        origins[place]
    } else {
        Origin { source: 0, line: 0 }
    }
}

impl Places {
    // A fault of the log.
    fn place(&self, fault: LogFault) -> Refusal
        ensures { result ≡ place_by self.now fault }
    {
        match self {
            Places::Lines => Refusal::Log(fault),
            Places::Origins(origins) => {
                let origin = origin_at(origins.as_slice(), fault.line);
                Refusal::Merge(MergeFault {
                    code: MergeCode::Log(fault.code),
                    source: origin.source,
                    line: origin.line,
                })
            }
        }
    }

    // Why the log is refused.
    fn refusal(&self, refusal: Refusal) -> Refusal
        ensures { result ≡ placed (place_by self.now) refusal }
    {
        match refusal {
            Refusal::Log(fault) => self.place(fault),
            Refusal::Formula(fault) => Refusal::Formula(fault),
            Refusal::Import(fault) => Refusal::Import(fault),
            Refusal::Merge(fault) => Refusal::Merge(fault),
        }
    }

    /// How the check of the log ended, with a fault of it told at its place.
    pub fn told(&self, ended: Result<Verdict, Stop>) -> Result<Verdict, Stop>
        ensures { result ≡ placed_result (place_by self.now) ended }
    {
        match ended {
            Ok(verdict) => Ok(verdict),
            Err(stop) => Err(match stop.cause {
                StopCause::Refused(refusal) => Stop {
                    batches: stop.batches,
                    cause: StopCause::Refused(self.refusal(refusal)),
                },
                StopCause::Read => stop,
                StopCause::Write => stop,
                StopCause::Memory => stop,
            }),
        }
    }
}
