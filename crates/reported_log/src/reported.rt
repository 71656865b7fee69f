//! A log that is checked item by item, and its reports.
ghost use Rattle.std.specs.Prelude.{◌≡◌, ◌≤◌, ◌∷◌, [], ℕ, List as ListOf, length, IfOk, OnOk};
ghost use Rattle.vector_clock.specs.Admitted.{IfFault};
ghost use Rattle.stated_formula.specs.Stating.{IsStated};
ghost use Rattle.report.specs.Spelling.{IsWellFormed};
ghost use Rattle.event_log.specs.FittingItems.{FitFirst};
ghost use Rattle.event_log.specs.LogText.{log_items};
ghost use Rattle.log_rules.specs.Judgement.{Prefix, Judgement, judge, judged, waiting};
ghost use Rattle.trace_growth.specs.Growing.{IsTrace};
ghost use Rattle.rctl_parts.specs.Pieces.{disjuncts_of};
ghost use Rattle.rctl_parts.specs.MadeFor.{AreMadeFor};
ghost use Rattle.part_pulls.specs.Observing.{IsReady, scope_seen};
ghost use Rattle.part_pulls.specs.Counters.{CountersRise};
ghost use Rattle.log_check.specs.Checked.{IsCheckedLog};
ghost use Rattle.reported_log.specs.Aims.{Aim, AreWatches, IsReportFor, aim_of, names_of, rules_of};
ghost use Rattle.reported_log.specs.Aims.{said_by, taken_for, watches_of};
ghost use Rattle.reported_log.specs.Checking.{GoesOn, HasClosed, IsCheckOf, IsRefusedAs, MayFollow};

use answer_report::report_on;
use answering::{Answering, Means, what_goes_on_goes_on_later};
use call_options::Shown;
use event_log::{Item, Log};
use fault_kinds::Refusal;
use log_check::{CheckedLog, LogCheck};
use pota_base::{Gate, NoMemory, Refused, Steps};
use report::Report;
use stated_formula::Stated;
use std::alloc::Global;
use std::sync::ledger::Ledger;
use std::thread::Threads;
use watch::{Handed, Watch};

/// A log that is checked against a formula as its items come, and its reports.
#[derive(Drop)]
pub struct ReportedLog {
    /// The log so far, with the formula.
    pub log: LogCheck,
    /// What its reports show.
    pub shown: Shown,
    /// What the reports so far leave to the next one.
    answering: Answering,
}

impl ReportedLog {
    /// A log of which no item was judged yet. It may name the watches.
    pub fn new(
        alloc: Global,
        stated: Stated,
        shown: Shown,
        watches: Vec<Handed>,
    ) -> Result<ReportedLog, NoMemory>
        requires stated { (text : ListOf ℕ) × IsStated text stated }
        requires watches { AreWatches watches.items }
        ensures { IfOk result (λ check. IsCheckOf (said_by answers)
            (aim_of stated shown (names_of watches.items)
            (watches_of (said_by answers) watches.items)) check waiting) }
    {
        match LogCheck::new(alloc, stated, watches) {
            Ok(log) => Ok(ReportedLog {
                log,
                shown,
                answering: Answering::new(alloc),
            }),
            Err(_) => Err(NoMemory),
        }
    }

    /// Takes one item more, behind those before, and tells whether a `batch` line closed a batch.
    /// `Fault` is the refusal that is due there; nothing may be taken behind it. The formula is not
    /// answered before a report is asked for.
    pub fn take(&mut self, alloc: Global, item: Item) -> Result<bool, Refused<Refusal>>
        requires check { (aim : Aim) × (j : Judgement)
            × IsCheckOf (said_by answers) aim self.old j × MayFollow j (item ∷ []) }
        ensures ok { IfOk result (λ closed. (aim : Aim) (j : Judgement)
            → IsCheckOf (said_by answers) aim self.old j → MayFollow j (item ∷ [])
            → GoesOn (said_by answers) aim self.new j (judge (rules_of aim) j item) closed) }
        ensures fault { IfFault result (λ why. (aim : Aim) (j : Judgement)
            → IsCheckOf (said_by answers) aim self.old j → MayFollow j (item ∷ [])
            → IsRefusedAs j (judge (rules_of aim) j item) self.new.log.intake.batches why) }
    {
        what_goes_on_goes_on_later();
        match self.log.take(alloc, item) {
            Ok(closed) => Ok(closed),
            Err(refused) => Err(refused),
        }
    }

    /// Takes a whole log of one batch. `Fault` is the first refusal that is due of it; nothing may
    /// be taken behind it.
    pub fn take_log(&mut self, alloc: Global, log: Log) -> Result<(), Refused<Refusal>>
        requires check { (aim : Aim) × IsCheckOf (said_by answers) aim self.old waiting }
        requires batch { length log.batches ≡ 1 }
        requires fits { FitFirst (log_items log) }
        ensures ok { OnOk result ((aim : Aim) → IsCheckOf (said_by answers) aim self.old waiting
            → IsCheckOf (said_by answers) aim self.new
            (judged (rules_of aim) waiting (log_items log))) }
        ensures fault { IfFault result (λ why. (aim : Aim)
            → IsCheckOf (said_by answers) aim self.old waiting
            → IsRefusedAs waiting (judged (rules_of aim) waiting (log_items log))
            self.new.log.intake.batches why) }
    {
        what_goes_on_goes_on_later();
        match self.log.take_log(alloc, log) {
            Ok(()) => Ok(()),
            Err(refused) => Err(refused),
        }
    }

    /// The report on the log as far as the last closed batch. It may wait for the threads that it
    /// joins.
    pub fn report<R: Threads + Sync, G: Gate, L: Ledger>(
        &mut self,
        means: &Means<R, G>,
        steps: &mut Steps<L>,
    ) -> Result<Report, NoMemory>
        requires check { (aim : Aim) × (j : Judgement) × (log : Prefix)
            × IsCheckOf (said_by answers) aim self.old j × HasClosed j log }
        ensures says { IfOk result (λ report. (aim : Aim) (j : Judgement) (log : Prefix)
            → IsCheckOf (said_by answers) aim self.old j → HasClosed j log
            → IsReportFor aim log report) }
        ensures fits { IfOk result IsWellFormed }
        ensures goes_on { OnOk result ((aim : Aim) (j : Judgement)
            → IsCheckOf (said_by answers) aim self.old j
            → IsCheckOf (said_by answers) aim self.new j) }
        ensures log { self.new.log ≡ self.old.log }
    {
        let log = &self.log;
        let observation = log.observation();
        let Ok(answer) = self.answering.answer(means, observation, steps) else {
            return Err(NoMemory);
        };
        let seen = observation.seen();
        match report_on(means.alloc, seen, &answer, self.shown, &log.stated.text) {
            Ok(report) => Ok(report),
            Err(_) => Err(NoMemory),
        }
    }

    /// What was observed of the log as far as the last closed batch, with the formula, which is
    /// made for it and true of it exactly where it is true of the log.
    pub fn into_observed(self) -> CheckedLog
        requires check { (aim : Aim) × (j : Judgement) × (log : Prefix)
            × IsCheckOf (said_by answers) aim self j × HasClosed j log }
        ensures log { (aim : Aim) (j : Judgement) (log : Prefix)
            → IsCheckOf (said_by answers) aim self j → HasClosed j log
            → IsCheckedLog (taken_for aim) log result }
        ensures stated { result.stated ≡ self.log.stated }
        ensures ready { IsReady result.seen }
        ensures trace { IsTrace result.seen.trace.states }
        ensures made { AreMadeFor (scope_seen result.seen) (disjuncts_of result.disjuncts) }
        ensures rise { CountersRise result.seen (disjuncts_of result.disjuncts) }
    {
        let ReportedLog { log, answering, .. } = self;
        drop(answering);
        log.into_observed()
    }
}
