//! Lines that are not read so, as faults of the log.

ghost use Rattle.std.specs.Prelude.{◌≡◌};
ghost use Rattle.std.specs.Option.{option_map};
ghost use Rattle.event_log.specs.inside.Lines.{RefusedAs, IsFaultOf};
ghost use Rattle.event_log.specs.inside.Feeding.{placed_at};

use crate::item::{LogCode, LogFault};
use log_lines::LineError;
use pota_base::{NoMemory, Refused};

/// What was read. A line that was malformed has this fault.
pub fn refused<T: Drop>(read: Result<T, LineError>, code: LogCode) -> Result<T, Refused<LogCode>>
    ensures { RefusedAs read code result }
{
    match read {
        Ok(value) => Ok(value),
        Err(LineError::Malformed) => Err(Refused::Fault(code)),
        Err(LineError::NoMemory) => Err(Refused::NoMemory),
    }
}

/// The fault of what was judged.
pub fn fault_of(judged: Result<(), Refused<LogCode>>) -> Result<Option<LogCode>, NoMemory>
    ensures { IsFaultOf judged result }
{
    match judged {
        Ok(()) => Ok(None),
        Err(Refused::Fault(code)) => Ok(Some(code)),
        Err(Refused::NoMemory) => Err(NoMemory),
    }
}

/// The fault as one of the line of this number.
pub fn fault_at(line: u32, fault: Option<LogCode>) -> Option<LogFault>
    ensures { result ≡ option_map (placed_at line) fault }
{
    fault.map(|code| LogFault { code, line })
}
