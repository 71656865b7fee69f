//! A log that is taken for a formula item by item.
ghost use Rattle.std.specs.Prelude.{◌≡◌, ◌∷◌, [], ℕ, List as ListOf, length, Some, IfOk, OnOk};
ghost use Rattle.vector_clock.specs.Admitted.{IfFault};
ghost use Rattle.event_log.specs.FittingItems.{FitFirst};
ghost use Rattle.event_log.specs.LogText.{HeaderFits, batch_items, log_items};
ghost use Rattle.stated_formula.specs.Stating.{IsStated};
ghost use Rattle.log_rules.specs.Judgement.{Judgement, Prefix, judge, judged, opened};
ghost use Rattle.log_rules.specs.Judgement.{growing, waiting};
ghost use Rattle.log_intake.specs.Taking.{MayFollow, HasClosed, GrowsFrom, end_item};
ghost use Rattle.log_check.specs.Aims.{Aim, AreWatches, aim_of, names_of, rules_of};
ghost use Rattle.log_check.specs.Aims.{said_by, watches_of};
ghost use Rattle.log_check.specs.Checking.{GoesOn, IsCheckOf, IsRefusedAs, IsObservedFor};
ghost use Rattle.log_check.specs.Checked.{IsCheckedLog};
ghost use Rattle.trace_growth.specs.Growing.{IsTrace};
ghost use Rattle.rctl_parts.specs.Pieces.{disjuncts_of};
ghost use Rattle.rctl_parts.specs.MadeFor.{AreMadeFor};
ghost use Rattle.part_pulls.specs.Counters.{CountersRise};
ghost use Rattle.part_pulls.specs.Observing.{IsReady, scope_seen};

use crate::checked::CheckedLog;
use event_log::{Event, Header, Item, Log};
use fault_kinds::Refusal;
use log_intake::{LogIntake, Observation};
use pota_base::{List, NoMemory, Refused};
use pota_names::Name;
use rctl_names::resolve;
use stated_formula::Stated;
use std::alloc::Global;
use std::mem;
use watch::{Handed, Watch};

/// A log that is taken for a formula as its items come.
#[derive(Drop)]
pub struct LogCheck {
    /// The formula.
    pub stated: Stated,
    /// The names of the watches.
    names: List<Name>,
    /// The watches until the header comes, and none behind it.
    watches: Vec<Handed>,
    /// The log so far.
    pub intake: LogIntake,
}

// The names of watches.
fn copy_names(alloc: Global, watches: &[Handed]) -> Result<List<Name>, NoMemory>
    ensures { IfOk result (λ names. names ≡ names_of watches.now) }
{
    let mut names = List::new(alloc);
    for handed in watches {
        names.push(handed.name.copy(alloc)?)?;
    }
    Ok(names)
}

impl LogCheck {
    /// A check of a log of which no item came yet.
    pub fn new(alloc: Global, stated: Stated, watches: Vec<Handed>) -> Result<LogCheck, NoMemory>
        requires stated { (text : ListOf ℕ) × IsStated text stated }
        requires watches { AreWatches watches.items }
        ensures { IfOk result (λ check. IsCheckOf (said_by answers)
            (aim_of stated (names_of watches.items) (watches_of (said_by answers) watches.items))
            check waiting) }
    {
        Ok(LogCheck {
            stated,
            names: copy_names(alloc, watches.as_slice())?,
            watches,
            intake: LogIntake::new(alloc),
        })
    }

    // The header came: the names of the formula are looked up.
    fn open(&mut self, alloc: Global, header: Header) -> Result<(), Refused<Refusal>>
        requires check { (aim : Aim) × IsCheckOf (said_by answers) aim self.old waiting }
        requires header { HeaderFits header }
        ensures ok { OnOk result ((aim : Aim) → IsCheckOf (said_by answers) aim self.old waiting
            → IsCheckOf (said_by answers) aim self.new (opened (rules_of aim) header)) }
        ensures fault { IfFault result (λ why. (aim : Aim)
            → IsCheckOf (said_by answers) aim self.old waiting
            → IsRefusedAs waiting (opened (rules_of aim) header) self.new.intake.batches why) }
    {
        let resolved = match resolve(alloc, &self.stated.classed, &header, &self.names) {
            Ok(resolved) => resolved,
            Err(Refused::Fault(fault)) => {
                drop(header);
                return Err(Refused::Fault(Refusal::Formula(fault)));
            }
            Err(Refused::NoMemory) => {
                drop(header);
                return Err(Refused::NoMemory);
            }
        };
        let watches = mem::replace(&mut self.watches, Vec::new(alloc));
        match Observation::new(alloc, header, resolved, watches) {
            Ok(observation) => {
                self.intake.open(observation);
                Ok(())
            }
            Err(_) => Err(Refused::NoMemory),
        }
    }

    // A batch is closed. Tells whether it was by a `batch` line.
    fn close(&mut self, alloc: Global, last: bool) -> Result<bool, Refused<Refusal>>
        requires check { (aim : Aim) × (j : Judgement)
            × IsCheckOf (said_by answers) aim self.old j × MayFollow j (end_item last ∷ []) }
        ensures ok { IfOk result (λ closed. (aim : Aim) (j : Judgement)
            → IsCheckOf (said_by answers) aim self.old j → MayFollow j (end_item last ∷ [])
            → GoesOn (said_by answers) aim self.new j (judge (rules_of aim) j (end_item last))
            closed) }
        ensures later { OnOk result (GrowsFrom self.old.intake.observation
            self.new.intake.observation) }
        ensures fault { IfFault result (λ why. (aim : Aim) (j : Judgement)
            → IsCheckOf (said_by answers) aim self.old j → MayFollow j (end_item last ∷ [])
            → IsRefusedAs j (judge (rules_of aim) j (end_item last)) self.new.intake.batches
            why) }
    {
        match self.intake.close(alloc, last) {
            Ok(closed) => Ok(closed),
            Err(Refused::Fault(fault)) => Err(Refused::Fault(Refusal::Log(fault))),
            Err(Refused::NoMemory) => Err(Refused::NoMemory),
        }
    }

    /// Takes one item more, behind those before, and tells whether a `batch` line closed a batch.
    /// `Fault` is the refusal that is due there; nothing may be taken behind it.
    pub fn take(&mut self, alloc: Global, item: Item) -> Result<bool, Refused<Refusal>>
        requires check { (aim : Aim) × (j : Judgement)
            × IsCheckOf (said_by answers) aim self.old j × MayFollow j (item ∷ []) }
        ensures ok { IfOk result (λ closed. (aim : Aim) (j : Judgement)
            → IsCheckOf (said_by answers) aim self.old j → MayFollow j (item ∷ [])
            → GoesOn (said_by answers) aim self.new j (judge (rules_of aim) j item) closed) }
        ensures later { OnOk result (GrowsFrom self.old.intake.observation
            self.new.intake.observation) }
        ensures fault { IfFault result (λ why. (aim : Aim) (j : Judgement)
            → IsCheckOf (said_by answers) aim self.old j → MayFollow j (item ∷ [])
            → IsRefusedAs j (judge (rules_of aim) j item) self.new.intake.batches why) }
    {
        match item {
            Item::Event(event) => {
                self.intake.add(event)?;
                Ok(false)
            }
            Item::Header(header) => match self.open(alloc, header) {
                Ok(()) => Ok(false),
                Err(refused) => Err(refused),
            },
            Item::BatchEnd => self.close(alloc, false),
            Item::End => self.close(alloc, true),
        }
    }

    // Takes a batch at once, and the end of the log behind it.
    fn take_last(&mut self, alloc: Global, batch: List<Event>) -> Result<(), Refused<Refusal>>
        requires check { (aim : Aim) × (log : Prefix)
            × IsCheckOf (said_by answers) aim self.old (growing log [])
            × MayFollow (growing log []) (batch_items (batch ∷ [])) }
        ensures ok { OnOk result ((aim : Aim) (log : Prefix)
            → IsCheckOf (said_by answers) aim self.old (growing log [])
            → MayFollow (growing log []) (batch_items (batch ∷ []))
            → IsCheckOf (said_by answers) aim self.new
            (judged (rules_of aim) (growing log []) (batch_items (batch ∷ [])))) }
        ensures fault { IfFault result (λ why. (aim : Aim) (log : Prefix) → IsCheckOf
            (said_by answers) aim self.old (growing log []) → MayFollow (growing log [])
            (batch_items (batch ∷ [])) → IsRefusedAs (growing log [])
            (judged (rules_of aim) (growing log []) (batch_items (batch ∷ [])))
            self.new.intake.batches why) }
    {
        self.intake.add_all(batch);
        match self.close(alloc, true) {
            Ok(_) => Ok(()),
            Err(refused) => Err(refused),
        }
    }

    /// Takes a whole log of one batch: its header, its events at once, and its end. `Fault` is the
    /// first refusal that is due of it; nothing may be taken behind it.
    pub fn take_log(&mut self, alloc: Global, log: Log) -> Result<(), Refused<Refusal>>
        requires check { (aim : Aim) × IsCheckOf (said_by answers) aim self.old waiting }
        requires batch { length log.batches ≡ 1 }
        requires fits { FitFirst (log_items log) }
        ensures ok { OnOk result ((aim : Aim) → IsCheckOf (said_by answers) aim self.old waiting
            → IsCheckOf (said_by answers) aim self.new
            (judged (rules_of aim) waiting (log_items log))) }
        ensures later { OnOk result (GrowsFrom self.old.intake.observation
            self.new.intake.observation) }
        ensures fault { IfFault result (λ why. (aim : Aim)
            → IsCheckOf (said_by answers) aim self.old waiting
            → IsRefusedAs waiting (judged (rules_of aim) waiting (log_items log))
            self.new.intake.batches why) }
    {
        let Log { header, batches } = log;
        let mut batches = batches.into_vec();
        let Some(batch) = batches.pop() else {
            unreachable!()
        };
        match self.open(alloc, header) {
            Ok(()) => self.take_last(alloc, batch),
            Err(refused) => Err(refused),
        }
    }

    /// What was observed of the log as far as the last closed batch.
    pub fn observation(&self) -> &Observation
        requires { (aim : Aim) × (j : Judgement) × (log : Prefix)
            × IsCheckOf (said_by answers) aim self.now j × HasClosed j log }
        ensures kept { self.now.intake.observation ≡ Some result.now }
        ensures is { (aim : Aim) (j : Judgement) (log : Prefix)
            → IsCheckOf (said_by answers) aim self.now j → HasClosed j log
            → IsObservedFor (said_by answers) aim log result.now }
    {
        self.intake.observation()
    }

    /// What was observed of the log as far as the last closed batch, with the formula, which is
    /// made for it and true of it exactly where it is true of the log.
    pub fn into_observed(self) -> CheckedLog
        requires check { (aim : Aim) × (j : Judgement) × (log : Prefix)
            × IsCheckOf (said_by answers) aim self j × HasClosed j log }
        ensures log { (aim : Aim) (j : Judgement) (log : Prefix)
            → IsCheckOf (said_by answers) aim self j → HasClosed j log
            → IsCheckedLog aim log result }
        ensures stated { result.stated ≡ self.stated }
        ensures ready { IsReady result.seen }
        ensures trace { IsTrace result.seen.trace.states }
        ensures made { AreMadeFor (scope_seen result.seen) (disjuncts_of result.disjuncts) }
        ensures rise { CountersRise result.seen (disjuncts_of result.disjuncts) }
    {
        let LogCheck {
            stated,
            names,
            watches,
            intake,
        } = self;
        drop(names);
        drop(watches);
        let observation = intake.into_observation();
        let _seen = observation.seen();
        let (seen, disjuncts) = observation.into_seen();
        CheckedLog {
            stated,
            seen,
            disjuncts,
        }
    }
}
