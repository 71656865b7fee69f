//! What is observed of a growing trace for a formula, and the watches that the formula names.
ghost use Rattle.std.specs.Prelude.{◌≡◌, ◌↔◌, true, false, length, Err, IsTrue, IfOk, OnOk, ◌≤◌};
ghost use Rattle.event_log.specs.States.{IsHeader};
ghost use Rattle.pota_base.specs.declared.fault.Refused.TheVariants as refused;
ghost use Rattle.vector_clock.specs.Admitted.{IfFault, IfWantsMemory};
ghost use Rattle.trace_growth.specs.Growing.{FitsTrace, IsTrace};
ghost use Rattle.rctl_parts.specs.Pieces.{disjuncts_of};
ghost use Rattle.rctl_parts.specs.MadeFor.{AreMadeFor};
ghost use Rattle.part_pulls.specs.Observing.{Reading, AreAnswers, IsReady, scope_seen};
ghost use Rattle.part_pulls.specs.Counters.{CountersRise};
ghost use Rattle.watch.specs.Saying.{said_by};
ghost use Rattle.observation.specs.Growing.{opened_observed, opened_growing, HasTaken};
ghost use Rattle.observation.specs.Fed.{AreFedFrom, AnswersAs};
ghost use Rattle.observation.specs.Taken.{TakesWhole, RefusesBatch, IsUntouched};

use crate::batch::feed_batch;
use crate::growing::Growing;
use event_log::{Event, Header, LogFault};
use part_pulls::Observed;
use pota_base::{List, NoMemory, Refused};
use rctl_parts::{Part, Resolved};
use std::alloc::Global;
use trace_growth::Trace;
use watch::{Handed, Watch};

/// What was observed for a formula of a trace that grows by batches, and the watches that were
/// handed in.
#[derive(Drop)]
pub struct Observation {
    growing: Growing,
    watches: Vec<Handed>,
    ghost paired: { length watches.items ≡ length growing.seen.watch_process },
}

impl Observation {
    /// An observation without batches, of a formula that is made for the header and the watches.
    pub fn new(
        alloc: Global,
        header: Header,
        resolved: Resolved,
        watches: Vec<Handed>,
    ) -> Result<Observation, NoMemory>
        requires header { IsHeader header }
        requires made { AreMadeFor (scope_seen (opened_observed header resolved.watch_process))
            (disjuncts_of resolved.disjuncts) }
        requires paired { length resolved.watch_process ≡ length watches.items }
        ensures opened { IfOk result (λ observation. observation.growing
            ≡ opened_growing header resolved.watch_process resolved.disjuncts) }
        ensures watches { IfOk result (λ observation. observation.watches.items ≡ watches.items) }
        ensures since_start { IfOk result (λ observation. AreFedFrom (said_by answers)
            watches.items observation.watches.items observation.growing.seen) }
    {
        Ok(Observation {
            growing: Growing::new(alloc, header, resolved)?,
            watches,
        })
    }

    /// Takes a whole batch, or none of it.
    ///
    /// A fault is at the line of its event: that of the first event which leaves a counter of the
    /// formula lower than it was, and else the first of the batch's clocks and messages. The
    /// observation is then as before, and no watch was fed. After want of memory the observation is
    /// spent: it answers that from then on, and feeds nothing.
    pub fn observe(&mut self, batch: List<Event>) -> Result<(), Refused<LogFault>>
        requires batch { self.old.growing.spent ≡ false
            → FitsTrace self.old.growing.seen.trace batch }
        ensures ok { OnOk result (TakesWhole (said_by answers) self.old.growing self.new.growing
            self.old.watches.items self.new.watches.items batch) }
        ensures fault { IfFault result (RefusesBatch self.old.growing self.new.growing
            self.old.watches self.new.watches batch) }
        ensures memory { IfWantsMemory result ((self.new.growing.spent ≡ true)
            × (self.new.watches ≡ self.old.watches)) }
        ensures spent { self.old.growing.spent ≡ true
            → (result ≡ Err refused.NoMemory) × IsUntouched self.old.growing self.new.growing
            self.old.watches self.new.watches }
    {
        if self.growing.spent {
            return Err(Refused::NoMemory);
        }
        let fallen = self.growing.first_fall(batch.as_slice());
        if let Some(fall) = fallen {
            return Err(Refused::Fault(fall));
        }
        match self.growing.seen.trace.extend(batch) {
            Ok(()) => {}
            Err(Refused::Fault(fault)) => return Err(Refused::Fault(fault)),
            Err(Refused::NoMemory) => {
                self.growing.spent = true;
                return Err(Refused::NoMemory);
            }
        }
        match feed_batch(
            self.growing.alloc,
            &mut self.growing.seen,
            &mut self.watches,
        ) {
            Ok(()) => Ok(()),
            Err(NoMemory) => {
                self.growing.spent = true;
                Err(Refused::NoMemory)
            }
        }
    }

    /// Whether memory was wanted.
    pub fn is_spent(&self) -> bool
        ensures { IsTrue result ↔ (self.now.growing.spent ≡ true) }
    {
        self.growing.spent
    }

    /// The trace so far.
    pub fn trace(&self) -> &Trace
        ensures trace { result.now ≡ self.now.growing.seen.trace }
        ensures unspent { self.now.growing.spent ≡ false
            → self.now.growing.seen.trace.spent ≡ false }
    {
        &self.growing.seen.trace
    }

    /// What was observed so far: the trace, and what the watches answered to its states. No counter
    /// of the formula ever falls in it. Behind a batch the formula may be answered on it.
    pub fn seen(&self) -> &Observed
        ensures seen { result.now ≡ self.now.growing.seen }
        ensures trace { self.now.growing.spent ≡ false
            → IsTrace self.now.growing.seen.trace.states }
        ensures made { self.now.growing.spent ≡ false → AreMadeFor
            (scope_seen self.now.growing.seen) (disjuncts_of self.now.growing.disjuncts) }
        ensures rise { self.now.growing.spent ≡ false
            → CountersRise self.now.growing.seen (disjuncts_of self.now.growing.disjuncts) }
        ensures ready { HasTaken self.now.growing → IsReady self.now.growing.seen }
        ensures answers { HasTaken self.now.growing → (handed : _) (reading : Reading)
            → AreFedFrom (said_by answers) handed self.now.watches.items self.now.growing.seen
            → AnswersAs (said_by answers) handed reading
            → AreAnswers self.now.growing.seen reading }
    {
        &self.growing.seen
    }

    /// The formula, by its disjuncts.
    pub fn disjuncts(&self) -> &List<List<Part>>
        ensures { result.now ≡ self.now.growing.disjuncts }
    {
        &self.growing.disjuncts
    }

    /// What was observed so far, and the disjuncts of the formula, which is made for it. The
    /// watches are dropped.
    pub fn into_seen(self) -> (Observed, List<List<Part>>)
        ensures seen { result.0 ≡ self.growing.seen }
        ensures disjuncts { result.1 ≡ self.growing.disjuncts }
        ensures trace { self.growing.spent ≡ false → IsTrace self.growing.seen.trace.states }
        ensures made { self.growing.spent ≡ false → AreMadeFor (scope_seen self.growing.seen)
            (disjuncts_of self.growing.disjuncts) }
        ensures rise { self.growing.spent ≡ false
            → CountersRise self.growing.seen (disjuncts_of self.growing.disjuncts) }
        ensures rows { self.growing.spent ≡ false → length self.growing.seen.watch_rows
            ≡ length self.growing.seen.watch_process }
    {
        self.growing.into_seen()
    }
}
