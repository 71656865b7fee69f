//! The reader of a log in pieces.

ghost use Rattle.std.specs.Prelude.{◌≡◌, [], IfOk, OnErr, IsErr};

use crate::feeder::Feeder;
use crate::item::{Fed, LogCode, LogFault};
use pota_base::{List, NoMemory};
use std::alloc::Global;

/// Reads the text of a log in pieces, whatever their lengths. What it gives are functions of the
/// bytes so far.
///
/// After a fault it gives no items and the same fault. After want of memory it answers want of
/// memory.
#[derive(Debug, Drop)]
pub struct Reader {
    alloc: Global,
    feeder: Feeder,
    fault: Option<LogFault>,
    spent: bool,
}

impl Reader {
    ghost use Rattle.event_log.specs.LogText.{onto};
    ghost use Rattle.event_log.specs.Faults.{FedIs, end_fault};
    ghost use Rattle.event_log.specs.Feeding.{Past};
    ghost use Rattle.event_log.specs.Reader.{HasRead, IsSpent, ReadsLog};

    /// A reader that has read nothing. It takes no memory.
    pub fn new(alloc: Global) -> Reader
        ensures { HasRead result [] }
    {
        Reader {
            alloc,
            feeder: Feeder::new(alloc),
            fault: None,
            spent: false,
        }
    }

    /// Reads one piece more. Gives the items that the bytes so far complete and that were not given
    /// before, and the first fault among the bytes so far.
    pub fn feed(&mut self, piece: &[u8]) -> Result<Fed, NoMemory>
        ensures read { IfOk result (λ fed. (past : Past) → HasRead self.old past
            → FedIs fed past (onto piece.now past) × HasRead self.new (onto piece.now past)) }
        // After want of memory every later piece meets it too.
        ensures spent { IsSpent self.old → IsErr result }
        ensures err { OnErr result (IsSpent self.new) }
    {
        let (fed, behind) = self.feed_log(piece)?;
        if fed.fault.is_some() {
            return Ok(fed);
        }
        self.fault = self.feeder.fault_behind(behind);
        Ok(Fed {
            items: fed.items,
            fault: self.fault,
        })
    }

    /// Reads one piece more, as far as it is of the log: up to the line feed of the `end` line.
    /// Gives what `feed` gives of those bytes, and the bytes behind them, which are not read.
    /// After a fault nothing is said of these.
    pub fn feed_log<'a>(&mut self, piece: &'a [u8]) -> Result<(Fed, &'a [u8]), NoMemory>
        ensures read { IfOk result (λ x. (past : Past) → HasRead self.old past
            → ReadsLog self.new piece.now x.0 x.1.now past) }
        ensures spent { IsSpent self.old → IsErr result }
        ensures err { OnErr result (IsSpent self.new) }
    {
        if self.spent {
            return Err(NoMemory);
        }
        if self.fault.is_some() {
            let items = List::new(self.alloc);
            let fault = self.fault;
            return Ok((Fed { items, fault }, piece));
        }
        match self.feeder.feed_log(piece) {
            Ok((fed, behind)) => {
                self.fault = fed.fault;
                Ok((fed, behind))
            }
            Err(NoMemory) => {
                self.spent = true;
                Err(NoMemory)
            }
        }
    }

    /// The input has ended. Gives the first fault of all its bytes, and `Truncated` where there is
    /// none and the `end` line wasn't completed. The reader is as before. It takes no memory.
    pub fn finish(&mut self) -> Option<LogFault>
        ensures fault { (past : Past) → HasRead self.old past → result ≡ end_fault past }
        ensures same { self.new ≡ self.old }
    {
        if self.fault.is_some() {
            return self.fault;
        }
        self.feeder.truncated()
    }
}
