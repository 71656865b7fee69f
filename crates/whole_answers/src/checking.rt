//! The check of an input once it was read.
ghost use Rattle.std.specs.Prelude.{◌≡◌, Bool};
ghost use Rattle.pota_base.specs.Changes.{of_sink, of_source};
ghost use Rattle.log_rules.specs.Judgement.{waiting};
ghost use Rattle.log_answers.specs.PassedOn.{Aim, said_by};
ghost use Rattle.log_answers.specs.PassedOn.{IsCheckOf};
ghost use Rattle.log_answers.specs.Calm.{IsCalmUnlessRead};
ghost use Rattle.log_answers.specs.Inputs.{HasCheckedBy};
ghost use Rattle.form_readings.specs.Clocks.{clocks_reading};
ghost use Rattle.form_readings.specs.Sources.{merged_reading};
ghost use Rattle.whole_answers.specs.inside.Checking.{CanBeChecked, ChecksStanding};

use crate::merging::read_sources;
use crate::records::read_records;
use crate::standing::Standing;
use log_answers::{Checking, Means, Stop, StopCause, Verdict};
use pota_base::{Gate, NoMemory, Sink, Source};
use std::sync::ledger::Ledger;
use std::thread::Threads;
use watch::{Handed, Watch};

// A stop before the first batch.
fn stop(cause: StopCause) -> Stop
    ensures { result ≡ record { batches = 0; cause = cause } }
{
    Stop { batches: 0, cause }
}

// Checks what was read.
fn check_standing<R: Threads + Sync, G: Gate, L: Ledger, O: Sink>(
    means: &Means<'_, R, G>,
    checking: &mut Checking<L>,
    standing: Result<Standing, NoMemory>,
    out: &mut O,
) -> Result<Verdict, Stop>
    requires can { CanBeChecked standing }
    requires check { (aim : Aim) × IsCheckOf (said_by answers) aim checking.old.check waiting }
    ensures { (aim : Aim) → IsCheckOf (said_by answers) aim checking.old.check waiting
        → ChecksStanding (of_sink O.Sink out.old out.new) aim standing result }
{
    match standing {
        Ok(Standing::Whole(log, places)) => places.told(checking.check_whole(means, log, out)),
        Ok(Standing::Faulty(refusal)) => Err(stop(StopCause::Refused(refusal))),
        Ok(Standing::Failed) => Err(stop(StopCause::Read)),
        Err(_) => Err(Stop::without_memory()),
    }
}

/// Reads records of two lines and checks the log that they are.
pub fn check_clocks<R: Threads + Sync, G: Gate, L: Ledger, S: Source, O: Sink>(
    means: &Means<'_, R, G>,
    checking: &mut Checking<L>,
    source: &mut S,
    out: &mut O,
) -> Result<Verdict, Stop>
    requires check { (aim : Aim) × IsCheckOf (said_by answers) aim checking.old.check waiting }
    ensures checks { (aim : Aim) → IsCheckOf (said_by answers) aim checking.old.check waiting
        → (each : Bool) → HasCheckedBy clocks_reading (of_source S.Source source.old source.new)
        (of_sink O.Sink out.old out.new) aim each result }
    ensures calm { IsCalmUnlessRead (S.faults source.old) (S.faults source.new) result }
{
    let standing = read_records(means.alloc, source);
    check_standing(means, checking, standing, out)
}

/// Reads several logs one behind another and checks them as one.
pub fn check_sources<R: Threads + Sync, G: Gate, L: Ledger, S: Source, O: Sink>(
    means: &Means<'_, R, G>,
    checking: &mut Checking<L>,
    source: &mut S,
    out: &mut O,
) -> Result<Verdict, Stop>
    requires check { (aim : Aim) × IsCheckOf (said_by answers) aim checking.old.check waiting }
    ensures checks { (aim : Aim) → IsCheckOf (said_by answers) aim checking.old.check waiting
        → (each : Bool) → HasCheckedBy merged_reading (of_source S.Source source.old source.new)
        (of_sink O.Sink out.old out.new) aim each result }
    ensures calm { IsCalmUnlessRead (S.faults source.old) (S.faults source.new) result }
{
    let standing = read_sources(means.alloc, source);
    check_standing(means, checking, standing, out)
}
