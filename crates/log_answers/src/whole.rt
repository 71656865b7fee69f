//! A log that stands whole.
ghost use Rattle.std.specs.Prelude.{◌≡◌, length};
ghost use Rattle.pota_base.specs.Changes.{of_sink};
ghost use Rattle.event_log.specs.FittingItems.{FitFirst};
ghost use Rattle.event_log.specs.LogText.{log_items};
ghost use Rattle.log_rules.specs.Judgement.{waiting};
ghost use Rattle.reported_log.specs.Aims.{Aim, said_by};
ghost use Rattle.reported_log.specs.Checking.{IsCheckOf};
ghost use Rattle.log_answers.specs.Whole.{HasWhole, TakesWhole};

use crate::checking::Checking;
use crate::stop::{Stop, StopCause, Verdict};
use event_log::Log;
use pota_base::{Gate, Refused, Sink};
use reported_log::Means;
use std::alloc::Global;
use std::sync::ledger::Ledger;
use std::thread::Threads;
use watch::{Handed, Watch};

impl<L: Ledger> Checking<L> {
    /// Takes a log of one batch whole. No report is written.
    pub fn take_whole(&mut self, alloc: Global, log: Log) -> Result<(), Stop>
        requires batch { length log.batches ≡ 1 }
        requires fits { FitFirst (log_items log) }
        requires check { (aim : Aim) × IsCheckOf (said_by answers) aim self.old.check waiting }
        ensures { (aim : Aim) → IsCheckOf (said_by answers) aim self.old.check waiting
            → TakesWhole (said_by answers) aim self.new.check log result }
    {
        match self.check.take_log(alloc, log) {
            Ok(()) => Ok(()),
            Err(Refused::Fault(refusal)) => Err(self.stop(StopCause::Refused(refusal))),
            Err(Refused::NoMemory) => Err(Stop::without_memory()),
        }
    }

    /// Checks a log of one batch, and writes the report on it.
    pub fn check_whole<R: Threads + Sync, G: Gate, O: Sink>(
        &mut self,
        means: &Means<'_, R, G>,
        log: Log,
        out: &mut O,
    ) -> Result<Verdict, Stop>
        requires batch { length log.batches ≡ 1 }
        requires fits { FitFirst (log_items log) }
        requires check { (aim : Aim) × IsCheckOf (said_by answers) aim self.old.check waiting }
        ensures { (aim : Aim) → IsCheckOf (said_by answers) aim self.old.check waiting → HasWhole
            (of_sink O.Sink out.old out.new) aim log result }
    {
        if let Err(stop) = self.take_whole(means.alloc, log) {
            return Err(stop);
        }
        self.report(means, out)
    }
}
