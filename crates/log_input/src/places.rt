//! How a fault at a line of a log that stands whole is told.
ghost use Rattle.std.specs.Prelude.{◌≡◌};
ghost use Rattle.form_readings.specs.Sources.{origin_at};
ghost use Rattle.log_input.specs.Places.{place_by};

use event_log::LogFault;
use fault_kinds::{MergeCode, MergeFault, Refusal};
use log_merge::Origin;
use pota_base::List;

/// How a fault at a line of a log is told.
#[derive(Debug, Drop)]
pub enum Places {
    /// At that line.
    Lines,
    /// Where the event of that number comes from.
    Origins(List<Origin>),
}

// Where the event of this number comes from.
fn origin_at(origins: &[Origin], number: u32) -> Origin
    ensures { result ≡ origin_at origins.now number }
{
    let place = number.saturating_sub(1) as usize;
    if place < origins.len() {
        origins[place]
    } else {
        Origin { source: 0, line: 0 }
    }
}

impl Places {
    /// A fault of the log.
    pub fn place(&self, fault: LogFault) -> Refusal
        ensures { result ≡ place_by self.now fault }
    {
        match self {
            Places::Lines => Refusal::Log(fault),
            Places::Origins(origins) => {
                let origin = origin_at(origins.as_slice(), fault.line);
                Refusal::Merge(MergeFault {
                    code: MergeCode::Log(fault.code),
                    source: origin.source,
                    line: origin.line,
                })
            }
        }
    }
}
