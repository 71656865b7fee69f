//! The answers of a formula on what is observed.
ghost use Rattle.std.specs.Prelude.{◌≡◌, ◌≤◌, ◌+◌, ◌-◌, ℕ, List as ListOf, [], None, length};
ghost use Rattle.std.specs.Prelude.{slice_index_or, IfOk, OnOk, OnErr, IfSome};
ghost use Rattle.rctl_parts.specs.Pieces.{Piece, disjuncts_of};
ghost use Rattle.rctl_parts.specs.MadeFor.{AreMadeFor};
ghost use Rattle.part_pulls.specs.declared.observed.Observed.{Observed};
ghost use Rattle.part_pulls.specs.Observing.{IsReady, clocks_seen, lens_seen, scope_seen};
ghost use Rattle.part_pulls.specs.Counters.{CountersRise};
ghost use Rattle.slice_graph.specs.Growing.{IsEarlierSystem};
ghost use Rattle.conjunctions.specs.Numbering.{all_conjunctions};
ghost use Rattle.conjunctions.specs.Counting.{bounds};
ghost use Rattle.conjunctions.specs.Settling.{AreFloors, AreSettled, AreSettledBySteps, IsSettled};
ghost use Rattle.conjunctions.specs.Answering.{IsAnswer};
ghost use Rattle.observation.specs.Growing.{GrowingView, HasTaken};
ghost use Rattle.answering.specs.Going.{GoesOn};

use conjunctions::{Answer, Kept, Means, Round, answer_all, settled_rows_are_kept};
use observation::Observation;
use part_pulls::Observed;
use pota_base::{Gate, List, NoMemory, Steps};
use rctl_parts::Part;
use slice_workers::Settled;
use std::alloc::Global;
use std::mem;
use std::sync::ledger::Ledger;
use std::thread::Threads;
use watch::Watch;

/// What the answers of a formula leave to the next one: the rows of its conjunctions, and a system.
#[derive(Drop)]
pub struct Answering {
    kept: Kept,
}

// A round that goes on from what was kept. That is taken out.
fn begin_round(alloc: Global, kept: &mut Kept) -> Round
    ensures before { result.before ≡ kept.old.settled }
    ensures settled { result.settled ≡ [] }
    ensures system { result.system ≡ kept.old.system }
    ensures taken_rows { kept.new.settled ≡ [] }
    ensures taken_system { kept.new.system ≡ None }
{
    let before = mem::replace(kept, Kept::new(alloc));
    Round::new(alloc, before)
}

// Answers the formula on the trace so far. Each conjunction of atoms begins from its rows of
// before, and the new rows stand in their place. The system of the order's pulls is grown where
// there is one. After want of memory nothing is kept.
fn answer_seen<R: Threads + Sync, G: Gate, L: Ledger>(
    means: &Means<R, G>,
    seen: &Observed,
    disjuncts: &List<List<Part>>,
    kept: &mut Kept,
    steps: &mut Steps<L>,
) -> Result<Answer, NoMemory>
    requires ready { IsReady seen.now }
    requires made { AreMadeFor (scope_seen seen.now) (disjuncts_of disjuncts.now) }
    requires rise { CountersRise seen.now (disjuncts_of disjuncts.now) }
    requires floors { AreFloors seen.now kept.old.settled
        (all_conjunctions (disjuncts_of disjuncts.now)) }
    requires system { IfSome kept.old.system (IsEarlierSystem (clocks_seen seen.now)) }
    ensures answer { IfOk result (IsAnswer seen.now (disjuncts_of disjuncts.now)) }
    ensures settled { OnOk result (AreSettled seen.now
        (all_conjunctions (disjuncts_of disjuncts.now)) kept.new.settled) }
    ensures by_steps { OnOk result (AreSettledBySteps kept.old.settled
        (all_conjunctions (disjuncts_of disjuncts.now)) kept.new.settled) }
    ensures looks { OnOk result (means.now.workers ≡ 1 → steps.new ≤ steps.old
        + bounds (lens_seen seen.now) kept.old.settled
        (all_conjunctions (disjuncts_of disjuncts.now)) kept.new.settled) }
    ensures system { OnOk result
        (IfSome kept.new.system (IsEarlierSystem (clocks_seen seen.now))) }
    ensures no_rows { OnErr result (kept.new.settled ≡ []) }
    ensures no_system { OnErr result (kept.new.system ≡ None) }
{
    let mut round = begin_round(means.alloc, kept);
    let answer = answer_all(means, seen, disjuncts.as_slice(), &mut round, steps)?;
    *kept = round.into_kept();
    Ok(answer)
}

impl Answering {
    /// Nothing was answered yet. It takes no memory.
    pub fn new(alloc: Global) -> Answering
        ensures goes_on { (growing : GrowingView) → GoesOn result.kept growing }
        ensures none { result.kept.settled ≡ [] }
    {
        Answering {
            kept: Kept::new(alloc),
        }
    }

    /// Makes the answer on what was observed so far. It may wait for the threads that it joins.
    /// Where memory is wanted it may be asked again, and begins anew.
    pub fn answer<R: Threads + Sync, G: Gate, L: Ledger>(
        &mut self,
        means: &Means<R, G>,
        observation: &Observation,
        steps: &mut Steps<L>,
    ) -> Result<Answer, NoMemory>
        requires taken { HasTaken observation.now.growing }
        requires goes_on { GoesOn self.old.kept observation.now.growing }
        ensures answer { IfOk result (IsAnswer observation.now.growing.seen
            (disjuncts_of observation.now.growing.disjuncts)) }
        ensures settled { OnOk result (AreSettled observation.now.growing.seen
            (all_conjunctions (disjuncts_of observation.now.growing.disjuncts))
            self.new.kept.settled) }
        ensures by_steps { OnOk result (AreSettledBySteps self.old.kept.settled
            (all_conjunctions (disjuncts_of observation.now.growing.disjuncts))
            self.new.kept.settled) }
        ensures looks { OnOk result (means.now.workers ≡ 1 → steps.new ≤ steps.old
            + bounds (lens_seen observation.now.growing.seen) self.old.kept.settled
            (all_conjunctions (disjuncts_of observation.now.growing.disjuncts))
            self.new.kept.settled) }
        ensures goes_on { GoesOn self.new.kept observation.now.growing }
    {
        settled_rows_are_kept();
        let seen = observation.seen();
        let disjuncts = observation.disjuncts();
        answer_seen(means, seen, disjuncts, &mut self.kept, steps)
    }

    /// How many conjunctions `settled` numbers.
    pub fn conjunctions(&self) -> usize
        ensures rows { result ≡ length self.now.kept.settled }
        ensures conjunctions { (seen : Observed) (cs : ListOf (ListOf Piece))
            → AreSettled seen cs self.now.kept.settled → result ≡ length cs }
    {
        self.kept.settled.len()
    }

    /// The rows of a conjunction: those that the answer's bound of look-ups counts, and from which
    /// the next answer may begin. Conjunctions are numbered from 1: the disjuncts in order, before
    /// each the operands of its temporal parts in the order of the parts, each behind the operands
    /// within it.
    pub fn settled(&self, conjunction: u32) -> &Settled
        requires some { 1 ≤ conjunction }
        requires there { conjunction ≤ length self.now.kept.settled }
        ensures settled { (seen : Observed) (cs : ListOf (ListOf Piece))
            → AreSettled seen cs self.now.kept.settled
            → IsSettled seen (slice_index_or cs (conjunction - 1) []) result.now.rows }
        ensures kept { result.now
            ≡ slice_index_or self.now.kept.settled (conjunction - 1) result.now }
    {
        self.kept.settled.get(conjunction as usize - 1)
    }
}
