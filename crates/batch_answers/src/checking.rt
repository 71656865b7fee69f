//! Reading a log to its end, and reporting on it.
ghost use Rattle.std.specs.Prelude.{◌≡◌};
ghost use Rattle.pota_base.specs.Changes.{of_sink, of_source};
ghost use Rattle.log_rules.specs.Judgement.{waiting};
ghost use Rattle.log_answers.specs.PassedOn.{Aim, said_by};
ghost use Rattle.log_answers.specs.PassedOn.{IsCheckOf};
ghost use Rattle.log_answers.specs.Calm.{IsCalmUnlessRead};
ghost use Rattle.batch_answers.specs.Reading.{HasChecked};

use crate::reading::read_log;
use log_answers::{Checking, Means, Stop, Verdict};
use pota_base::{Gate, Sink, Source};
use std::sync::ledger::Ledger;
use std::thread::Threads;
use watch::{Handed, Watch};

/// Reads the log to its end, and writes all its reports.
pub fn check_all<R: Threads + Sync, G: Gate, L: Ledger, S: Source, O: Sink>(
    means: &Means<'_, R, G>,
    checking: &mut Checking<L>,
    log: &mut S,
    out: &mut O,
) -> Result<Verdict, Stop>
    requires { (aim : Aim) × IsCheckOf (said_by answers) aim checking.old.check waiting }
    ensures checks { (aim : Aim) → IsCheckOf (said_by answers) aim checking.old.check waiting
        → HasChecked (of_source S.Source log.old log.new) (of_sink O.Sink out.old out.new) aim
        checking.old.each_batch result }
    ensures calm { IsCalmUnlessRead (S.faults log.old) (S.faults log.new) result }
{
    if let Err(stop) = read_log(means, checking, log, out) {
        return Err(stop);
    }
    checking.report(means, out)
}
