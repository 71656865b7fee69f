//! A session: a formula over a growing trace, and the watches that it names.
ghost use Rattle.std.specs.Prelude.{◌≡◌, ◌↔◌, ◌≤◌, ◌-◌, ◌+◌, ◌⊎◌, true, false, length, None, []};
ghost use Rattle.std.specs.Prelude.{slice_index_or, Err, IsTrue, IfOk, OnOk};
ghost use Rattle.std.specs.Coded.{codes};
ghost use Rattle.event_log.specs.States.{IsHeader};
ghost use Rattle.pota_base.specs.declared.fault.Refused.TheVariants as refused;
ghost use Rattle.vector_clock.specs.Admitted.{IfFault, IfWantsMemory};
ghost use Rattle.trace_growth.specs.Growing.{FitsTrace};
ghost use Rattle.rctl_parts.specs.contracts.part.Part as e;
ghost use Rattle.rctl_parts.specs.Pieces.{disjuncts_of};
ghost use Rattle.rctl_parts.specs.MadeFor.{AreMadeFor};
ghost use Rattle.part_pulls.specs.Observing.{Reading, AreAnswers, lens_seen, scope_seen};
ghost use Rattle.part_pulls.specs.Counters.{CountersRise};
ghost use Rattle.conjunctions.specs.Numbering.{all_conjunctions};
ghost use Rattle.conjunctions.specs.Counting.{bounds};
ghost use Rattle.conjunctions.specs.Settling.{AreSettledBySteps, IsSettled};
ghost use Rattle.conjunctions.specs.Answering.{IsAnswer};
ghost use Rattle.watch.specs.Saying.{said_by};
ghost use Rattle.observation.specs.Growing.{opened_observed, opened_growing};
ghost use Rattle.observation.specs.Fed.{Feeds, AreFedFrom, AnswersAs};
ghost use Rattle.observation.specs.Taken.{TakesWhole, RefusesBatch};
ghost use Rattle.session.specs.Standing.{AreWorkers, HasAnswer};

use crate::answered::Answered;
use answering::Means;
use conjunctions::Answer;
use event_log::{Event, Header, LogFault};
use observation::Observation;
use part_pulls::Observed;
use pota_base::{Gate, List, NoMemory, Refused, Steps};
use rctl_parts::Resolved;
use slice_workers::Settled;
use std::alloc::Global;
use std::sync::ledger::Ledger;
use std::thread::Threads;
use trace_growth::Trace;
use watch::{Handed, Watch};

/// A formula over a trace that grows by batches, and the watches that were handed in.
#[derive(Drop)]
pub struct Session {
    observation: Observation,
    answered: Answered,
    spent: bool,
    alloc: Global,
    ghost unspent: { spent ≡ false → observation.growing.spent ≡ false },
    ghost standing: { spent ≡ false → answered.of ≡ observation.growing } by { Prim.hlevel (codes, e.the_row.coded) },
}

impl Session {
    /// A session without batches, of a formula that is made for the header and the watches.
    pub fn new(
        alloc: Global,
        header: Header,
        resolved: Resolved,
        watches: Vec<Handed>,
    ) -> Result<Session, NoMemory>
        requires header { IsHeader header }
        requires made { AreMadeFor (scope_seen (opened_observed header resolved.watch_process))
            (disjuncts_of resolved.disjuncts) }
        requires paired { length resolved.watch_process ≡ length watches.items }
        ensures opened { IfOk result (λ session. session.observation.growing
            ≡ opened_growing header resolved.watch_process resolved.disjuncts) }
        ensures fresh { IfOk result (λ session. (session.spent ≡ false)
            × (session.answered.answer ≡ None) × (session.answered.settled ≡ [])) }
        ensures watches { IfOk result (λ session. session.observation.watches.items
            ≡ watches.items) }
        ensures since_start { IfOk result (λ session. AreFedFrom (said_by answers)
            watches.items session.observation.watches.items session.observation.growing.seen) }
    {
        let observation = Observation::new(alloc, header, resolved, watches)?;
        let answered = Answered::new(alloc, &observation);
        Ok(Session {
            observation,
            answered,
            spent: false,
            alloc,
        })
    }

    /// Takes a whole batch, or none of it, and makes its answer by 1 to 16 workers: it observes the
    /// batch, and then answers. It may wait for the threads that it joins.
    ///
    /// A fault is at the line of its event: that of the first event which leaves a counter of the
    /// formula lower than it was, and else the first of the batch's clocks and messages. The
    /// session is then as before, and no watch was fed. After want of memory the session is spent:
    /// it answers that from then on, and feeds nothing.
    pub fn extend<R: Threads + Sync, G: Gate, L: Ledger>(
        &mut self,
        rt: &R,
        batch: List<Event>,
        workers: u32,
        gate: &G,
        steps: &mut Steps<L>,
    ) -> Result<(), Refused<LogFault>>
        requires batch { self.old.spent ≡ false
            → FitsTrace self.old.observation.growing.seen.trace batch }
        requires workers { AreWorkers workers }
        ensures ok { OnOk result (TakesWhole (said_by answers)
            self.old.observation.growing self.new.observation.growing
            self.old.observation.watches.items self.new.observation.watches.items batch) }
        ensures answer { OnOk result
            (HasAnswer self.new.spent self.new.observation.growing self.new.answered.answer) }
        ensures by_steps { OnOk result (AreSettledBySteps self.old.answered.settled
            (all_conjunctions (disjuncts_of self.old.observation.growing.disjuncts))
            self.new.answered.settled) }
        ensures looks { OnOk result (workers ≡ 1 → steps.new ≤ steps.old
            + bounds (lens_seen self.new.observation.growing.seen) self.old.answered.settled
            (all_conjunctions (disjuncts_of self.old.observation.growing.disjuncts))
            self.new.answered.settled) }
        ensures fault { IfFault result (λ fault. RefusesBatch
            self.old.observation.growing self.new.observation.growing
            self.old.observation.watches self.new.observation.watches batch fault
            × (self.new.answered ≡ self.old.answered)
            × (self.new.spent ≡ false) × (steps.new ≡ steps.old)) }
        ensures memory { IfWantsMemory result ((self.new.spent ≡ true)
            × ((self.new.observation.watches ≡ self.old.observation.watches)
            ⊎ Feeds (said_by answers)
            self.old.observation.watches.items self.new.observation.watches.items
            self.old.observation.growing.seen self.new.observation.growing.seen)) }
        ensures spent { self.old.spent ≡ true → (result ≡ Err refused.NoMemory)
            × (self.new ≡ self.old) × (steps.new ≡ steps.old) }
    {
        if self.spent {
            return Err(Refused::NoMemory);
        }
        match self.observation.observe(batch) {
            Ok(()) => {}
            Err(Refused::Fault(fault)) => return Err(Refused::Fault(fault)),
            Err(Refused::NoMemory) => {
                self.spent = true;
                return Err(Refused::NoMemory);
            }
        }
        let means = Means {
            rt,
            alloc: self.alloc,
            workers,
            gate,
        };
        let renewed = self.answered.renew(&means, &self.observation, steps);
        if let Err(NoMemory) = renewed {
            self.spent = true;
            return Err(Refused::NoMemory);
        }
        Ok(())
    }

    /// Whether memory was wanted.
    pub fn is_spent(&self) -> bool
        ensures { IsTrue result ↔ (self.now.spent ≡ true) }
    {
        self.spent
    }

    /// Whether the answer on the trace so far was made. So it is behind each `extend` that gave
    /// `Ok`.
    pub fn is_answered(&self) -> bool
        ensures { IsTrue result
            ↔ HasAnswer self.now.spent self.now.observation.growing
            self.now.answered.answer }
    {
        !self.spent && self.answered.is_made()
    }

    /// The trace so far.
    pub fn trace(&self) -> &Trace
        ensures trace { result.now ≡ self.now.observation.growing.seen.trace }
        ensures unspent { self.now.spent ≡ false
            → self.now.observation.growing.seen.trace.spent ≡ false }
    {
        self.observation.trace()
    }

    /// What was observed so far: the trace, and what the watches answered to its states. No counter
    /// of the formula ever falls in it.
    pub fn seen(&self) -> &Observed
        ensures seen { result.now ≡ self.now.observation.growing.seen }
        ensures rise { self.now.spent ≡ false
            → CountersRise self.now.observation.growing.seen
            (disjuncts_of self.now.observation.growing.disjuncts) }
    {
        self.observation.seen()
    }

    /// The answer on the trace so far, and on what the watches answered to all its states.
    pub fn answer(&self) -> &Answer
        requires { HasAnswer self.now.spent self.now.observation.growing
            self.now.answered.answer }
        ensures answer { IsAnswer self.now.observation.growing.seen
            (disjuncts_of self.now.observation.growing.disjuncts) result.now }
        ensures rise { CountersRise self.now.observation.growing.seen
            (disjuncts_of self.now.observation.growing.disjuncts) }
        ensures answers { (handed : _) (reading : Reading)
            → AreFedFrom (said_by answers) handed self.now.observation.watches.items
            self.now.observation.growing.seen
            → AnswersAs (said_by answers) handed reading
            → AreAnswers self.now.observation.growing.seen reading }
    {
        let _seen = self.observation.seen();
        self.answered.answer()
    }

    /// How many conjunctions `settled` numbers.
    pub fn conjunctions(&self) -> usize
        requires { HasAnswer self.now.spent self.now.observation.growing
            self.now.answered.answer }
        ensures { result ≡ length (all_conjunctions
            (disjuncts_of self.now.observation.growing.disjuncts)) }
    {
        self.answered.conjunctions()
    }

    /// The rows of a conjunction on the trace so far: those that the answer's bound of look-ups
    /// counts, and from which the next answer may begin. Conjunctions are numbered from 1: the
    /// disjuncts in order, before each the operands of its temporal parts in the order of the
    /// parts, each behind the operands within it.
    pub fn settled(&self, conjunction: u32) -> &Settled
        requires answered { HasAnswer self.now.spent self.now.observation.growing
            self.now.answered.answer }
        requires some { 1 ≤ conjunction }
        requires there { conjunction ≤ length
            (all_conjunctions (disjuncts_of self.now.observation.growing.disjuncts)) }
        ensures settled { IsSettled self.now.observation.growing.seen (slice_index_or
            (all_conjunctions (disjuncts_of self.now.observation.growing.disjuncts))
            (conjunction - 1) []) result.now.rows }
        ensures kept { result.now ≡ slice_index_or self.now.answered.settled
            (conjunction - 1) result.now }
    {
        self.answered.settled(conjunction)
    }
}
