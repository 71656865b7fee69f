//! An input whose log is judged as it comes.
ghost use Rattle.std.specs.Prelude.{◌-◌, [], IfOk};
ghost use Rattle.log_rules.specs.Judgement.{Judgement, judged};
ghost use Rattle.log_trace.specs.Judging.{Keeps, MayFollow, without_formula};
ghost use Rattle.view_top.specs.Viewing.{most_bytes};
ghost use Rattle.view_top.specs.inside.Inputs.{IsDone, IsOpen, JudgesTo};

use event_log::{Fed, LogFault, Reader};
use input_reading::{Intake, Turn};
use log_trace::LogTrace;
use pota_base::{List, NoMemory, Refused};
use std::alloc::Global;

/// The input is read until it has so many bytes.
const MOST_BYTES: usize = 1_073_741_824;

/// What came of an input so far: its log, judged line by line, and the bytes behind it.
#[derive(Drop)]
pub struct Input {
    alloc: Global,
    pub reader: Reader,
    pub log: LogTrace,
    /// The fault that is due of the log, behind which nothing is taken.
    pub fault: Option<LogFault>,
    /// The bytes behind the log.
    pub behind: List<u8>,
    /// How many bytes came.
    count: usize,
}

// Judges the log's items of one piece. The answer is the fault that is due: of an item, else of the
// piece's bytes.
fn judge(alloc: Global, log: &mut LogTrace, fed: Fed) -> Result<Option<LogFault>, NoMemory>
    requires { (j : Judgement) × Keeps log.old j × MayFollow j fed.items }
    ensures { IfOk result (λ fault. (j : Judgement) → Keeps log.old j → MayFollow j fed.items
        → JudgesTo log.new (judged without_formula j fed.items) fed.fault fault) }
{
    let Fed { items, fault } = fed;
    match log.take_all(alloc, items) {
        Ok(()) => Ok(fault),
        Err(Refused::Fault(fault)) => Ok(Some(fault)),
        Err(Refused::NoMemory) => Err(NoMemory),
    }
}

impl Input {
    /// No byte came. It takes no memory.
    pub fn new(alloc: Global) -> Input
        ensures { IsOpen result [] }
    {
        Input {
            alloc,
            reader: Reader::new(alloc),
            log: LogTrace::new(alloc),
            fault: None,
            behind: List::new(alloc),
            count: 0,
        }
    }
}

impl Intake for Input {
    ghost open_ = { λ input bytes. IsOpen input bytes };

    ghost done = { λ input bytes. IsDone input bytes };

    ghost room = { λ input. most_bytes - input.count };

    fn take(&mut self, piece: &[u8]) -> Result<Turn, NoMemory> {
        let (fed, behind) = self.reader.feed_log(piece)?;
        self.fault = judge(self.alloc, &mut self.log, fed)?;
        if self.fault.is_some() {
            return Ok(Turn::Done);
        }
        self.behind.extend_from_slice(behind)?;
        self.count += piece.len();
        if self.count < MOST_BYTES {
            Ok(Turn::More)
        } else {
            Ok(Turn::Done)
        }
    }
}
