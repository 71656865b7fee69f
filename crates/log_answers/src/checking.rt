//! A log that is checked item by item, with the reports that its batches have.
ghost use Rattle.std.specs.Prelude.{◌≡◌, ◌∷◌, ◌++◌, [], ℕ, List as ListOf};
ghost use Rattle.std.specs.Prelude.{IfOk, OnOk};
ghost use Rattle.pota_base.specs.Changes.{of_sink};
ghost use Rattle.log_rules.specs.Judgement.{Prefix, Judgement, judge, judged};
ghost use Rattle.report.specs.Spelling.{IsWellFormed};
ghost use Rattle.reported_log.specs.Aims.{Aim, IsReportFor, rules_of, said_by};
ghost use Rattle.reported_log.specs.Checking.{HasClosed, IsCheckOf, MayFollow};
ghost use Rattle.log_answers.specs.Asking.{asking_of, progress_of, reached_of};
ghost use Rattle.log_answers.specs.Checking.{AreReportsFor, IsBenchAim, Reports};
ghost use Rattle.log_answers.specs.inside.Checking.{Judges, Puts};
ghost use Rattle.log_answers.specs.Checking.{Stands, SumsUp, TakesItems};

use crate::stop::{Stop, StopCause, Verdict};
use bench_summary::write_summary;
use call_options::Sizes;
use event_log::Item;
use pota_base::{Gate, List, NoMemory, Refused, Sink, Steps, write_all};
use report::{Report, write_report};
use reported_log::{Means, ReportedLog};
use std::alloc::Global;
use std::sync::ledger::Ledger;
use std::thread::Threads;
use watch::{Handed, Watch};

/// A log that is checked, and whether each of its batches has a report.
#[derive(Drop)]
pub struct Checking<L: Ledger> {
    pub check: ReportedLog,
    pub each_batch: bool,
    pub steps: Steps<L>,
}

/// Writes a text of so many batches.
pub fn put<O: Sink>(out: &mut O, text: &[u8], batches: u32) -> Result<(), Stop>
    ensures { Puts (of_sink O.Sink out.old out.new) text.now batches result }
{
    match write_all(out, text) {
        Ok(()) => Ok(()),
        Err(_) => Err(Stop {
            batches,
            cause: StopCause::Write,
        }),
    }
}

impl<L: Ledger> Checking<L> {
    /// A stop behind the batches so far.
    pub fn stop(&self, cause: StopCause) -> Stop
        ensures { result ≡ record { batches = self.now.check.log.intake.batches; cause = cause } }
    {
        Stop {
            batches: self.check.log.intake.batches,
            cause,
        }
    }

    // The report on the log as far as the last closed batch.
    fn ask<R: Threads + Sync, G: Gate>(
        &mut self,
        means: &Means<'_, R, G>,
    ) -> Result<Report, NoMemory>
        requires { (aim : Aim) × (j : Judgement) × (log : Prefix)
            × IsCheckOf (said_by answers) aim self.old.check j × HasClosed j log }
        ensures says { IfOk result (λ report. (aim : Aim) (j : Judgement) (log : Prefix)
            → IsCheckOf (said_by answers) aim self.old.check j → HasClosed j log
            → IsReportFor aim log report) }
        ensures fits { IfOk result IsWellFormed }
        ensures goes_on { OnOk result ((aim : Aim) (j : Judgement)
            → IsCheckOf (said_by answers) aim self.old.check j
            → IsCheckOf (said_by answers) aim self.new.check j) }
        ensures each { self.new.each_batch ≡ self.old.each_batch }
    {
        self.check.report(means, &mut self.steps)
    }

    /// Writes the report on the log as far as the last closed batch, and gives its verdict.
    pub fn report<R: Threads + Sync, G: Gate, O: Sink>(
        &mut self,
        means: &Means<'_, R, G>,
        out: &mut O,
    ) -> Result<Verdict, Stop>
        requires { (aim : Aim) × (j : Judgement) × (log : Prefix)
            × IsCheckOf (said_by answers) aim self.old.check j × HasClosed j log }
        ensures reports { (aim : Aim) (j : Judgement) (log : Prefix) → IsCheckOf (said_by answers)
            aim self.old.check j → HasClosed j log → (before : ListOf Prefix) (text : ListOf ℕ)
            → AreReportsFor aim before text → Reports (of_sink O.Sink out.old out.new) aim
            self.old.check.log.intake.batches (reached_of before log) text result }
        ensures goes_on { OnOk result ((aim : Aim) (j : Judgement)
            → IsCheckOf (said_by answers) aim self.old.check j
            → IsCheckOf (said_by answers) aim self.new.check j) }
        ensures each { self.new.each_batch ≡ self.old.each_batch }
    {
        let batches = self.check.log.intake.batches;
        let Ok(report) = self.ask(means) else {
            return Err(Stop::without_memory());
        };
        let Ok(text) = write_report(means.alloc, &report) else {
            return Err(Stop::without_memory());
        };
        if let Err(stop) = put(out, text.as_slice(), batches) {
            return Err(stop);
        }
        Ok(verdict(batches, &report))
    }

    // Takes one item more, and tells whether a `batch` line closed a batch.
    fn judge(&mut self, alloc: Global, item: Item) -> Result<bool, Stop>
        requires { (aim : Aim) × (j : Judgement) × IsCheckOf (said_by answers) aim self.old.check j
            × MayFollow j (item ∷ []) }
        ensures judged { (aim : Aim) (j : Judgement)
            → IsCheckOf (said_by answers) aim self.old.check j → MayFollow j (item ∷ [])
            → Judges (said_by answers) aim self.new.check j (judge (rules_of aim) j item) result }
        ensures each { self.new.each_batch ≡ self.old.each_batch }
    {
        match self.check.take(alloc, item) {
            Ok(closed) => Ok(closed),
            Err(Refused::Fault(refusal)) => Err(self.stop(StopCause::Refused(refusal))),
            Err(Refused::NoMemory) => Err(Stop::without_memory()),
        }
    }

    // Takes one item more, and writes the report of a batch that it closes, where each has one.
    fn take<R: Threads + Sync, G: Gate, O: Sink>(
        &mut self,
        means: &Means<'_, R, G>,
        item: Item,
        out: &mut O,
    ) -> Result<(), Stop>
        requires { (aim : Aim) × (j : Judgement) × (text : ListOf ℕ)
            × Stands (said_by answers) aim self.old.each_batch self.old.check j text
            × MayFollow j (item ∷ []) }
        ensures items { (aim : Aim) (j : Judgement) (text : ListOf ℕ) → Stands (said_by answers) aim
            self.old.each_batch self.old.check j text → MayFollow j (item ∷ []) → TakesItems
            (of_sink O.Sink out.old out.new) (said_by answers) (asking_of aim self.old.each_batch)
            self.new.check (progress_of (judge (rules_of aim) j item) text) result }
        ensures each { self.new.each_batch ≡ self.old.each_batch }
    {
        let closed = match self.judge(means.alloc, item) {
            Ok(closed) => closed,
            Err(stop) => return Err(stop),
        };
        if !closed {
            return Ok(());
        }
        if !self.each_batch {
            return Ok(());
        }
        match self.report(means, out) {
            Ok(_) => Ok(()),
            Err(stop) => Err(stop),
        }
    }

    /// Takes these items more, in their order, up to the first fault, and writes the report of a
    /// batch before it takes the next item.
    pub fn take_all<R: Threads + Sync, G: Gate, O: Sink>(
        &mut self,
        means: &Means<'_, R, G>,
        items: List<Item>,
        out: &mut O,
    ) -> Result<(), Stop>
        requires { (aim : Aim) × (j : Judgement) × (text : ListOf ℕ)
            × Stands (said_by answers) aim self.old.each_batch self.old.check j text
            × MayFollow j items }
        ensures items { (aim : Aim) (j : Judgement) (text : ListOf ℕ) → Stands (said_by answers) aim
            self.old.each_batch self.old.check j text → MayFollow j items → TakesItems
            (of_sink O.Sink out.old out.new) (said_by answers) (asking_of aim self.old.each_batch)
            self.new.check (progress_of (judged (rules_of aim) j items) text) result }
        ensures each { self.new.each_batch ≡ self.old.each_batch }
    {
        let mut rest = items.into_vec().into_iter();
        while let Some(item) = rest.next() {
            if let Err(stop) = self.take(means, item, out) {
                return Err(stop);
            }
        }
        Ok(())
    }

    /// Writes the summary of a bench whose log is that so far, and gives the verdict on it.
    pub fn sum_up<R: Threads + Sync, G: Gate, O: Sink>(
        &mut self,
        means: &Means<'_, R, G>,
        sizes: Sizes,
        out: &mut O,
    ) -> Result<Verdict, Stop>
        requires { (aim : Aim) × (j : Judgement) × (log : Prefix)
            × IsCheckOf (said_by answers) aim self.old.check j × HasClosed j log }
        ensures { (aim : Aim) (j : Judgement) (log : Prefix) → IsCheckOf (said_by answers) aim
            self.old.check j → HasClosed j log → IsBenchAim aim → SumsUp
            (of_sink O.Sink out.old out.new) aim self.old.check.log.intake.batches log sizes
            result }
    {
        let batches = self.check.log.intake.batches;
        let Ok(report) = self.ask(means) else {
            return Err(Stop::without_memory());
        };
        let Ok(text) = write_summary(means.alloc, sizes, &report) else {
            return Err(Stop::without_memory());
        };
        if let Err(stop) = put(out, text.as_slice(), batches) {
            return Err(stop);
        }
        Ok(verdict(batches, &report))
    }
}

// The verdict that a report of so many batches tells.
fn verdict(batches: u32, report: &Report) -> Verdict
    ensures { result ≡ record { batches = batches; truth = report.now.verdict } }
{
    Verdict {
        batches,
        truth: report.verdict,
    }
}
