//! The answer of a session, and what it is of.
ghost use Rattle.std.specs.Prelude.{◌≡◌, ◌≤◌, ◌-◌, ◌+◌, false, length, None, [], slice_index_or};
ghost use Rattle.std.specs.Prelude.{IsTrue, IsSome, ◌↔◌, OnOk};
ghost use Rattle.rctl_parts.specs.Pieces.{disjuncts_of};
ghost use Rattle.part_pulls.specs.Later.{IsLater};
ghost use Rattle.part_pulls.specs.Observing.{lens_seen};
ghost use Rattle.conjunctions.specs.Numbering.{all_conjunctions};
ghost use Rattle.conjunctions.specs.Counting.{bounds};
ghost use Rattle.conjunctions.specs.Settling.{AreSettledBySteps, IsSettled};
ghost use Rattle.conjunctions.specs.Answering.{IsAnswer};
ghost use Rattle.observation.specs.Growing.{HasTaken};

use answering::{Answering, Means, what_goes_on_goes_on_later};
use conjunctions::Answer;
use observation::Observation;
use part_pulls::Observed;
use pota_base::{Gate, List, NoMemory, Steps};
use rctl_parts::Part;
use slice_workers::Settled;
use std::alloc::Global;
use std::marker::Model;
use std::snapshot::Snapshot;
use std::sync::ledger::Ledger;
use std::thread::Threads;

/// The last answer of a formula, and what it leaves to the next one. Contracts see by a snapshot,
/// which takes no memory, what both are of.
#[derive(Drop)]
pub struct Answered {
    answering: Answering,
    answer: Option<Answer>,
    /// What was observed when the answer was made, for contracts alone.
    seen: Snapshot<Observed>,
    /// The formula, for contracts alone.
    disjuncts: Snapshot<List<List<Part>>>,
}

impl Model for Answered {
    ghost use Rattle.std.specs.Prelude.{false};
    ghost use Rattle.std.specs.Coded.{codes};
    ghost use Rattle.rctl_parts.specs.contracts.part.Part as e;
    ghost use Rattle.session.specs.Standing.{AnsweredView};
    ghost use Rattle.session.specs.inside.Standing.{IsStanding};

    ghost Value = { AnsweredView };

    ghost coded = { Prim.hlevel (codes, e.the_row.coded) };

    ghost view = { λ a. record {
      of = record { seen = a.seen.value; disjuncts = a.disjuncts.value; spent = false };
      settled = a.answering.kept.settled;
      answer = a.answer;
    } };

    ghost invariant = { λ a. IsStanding
        (record { seen = a.seen.value; disjuncts = a.disjuncts.value; spent = false })
        a.answering.kept a.answer };
}

impl Answered {
    /// No answer on what was observed so far. It takes no memory.
    pub fn new(alloc: Global, observation: &Observation) -> Answered
        requires { observation.now.growing.spent ≡ false }
        ensures of { result.of ≡ observation.now.growing }
        ensures rows { result.settled ≡ [] }
        ensures answer { result.answer ≡ None }
    {
        Answered {
            answering: Answering::new(alloc),
            answer: None,
            seen: Snapshot::of(observation.seen()),
            disjuncts: Snapshot::of(observation.disjuncts()),
        }
    }

    /// Makes the answer on what was observed since. After want of memory there is none.
    pub fn renew<R: Threads + Sync, G: Gate, L: Ledger>(
        &mut self,
        means: &Means<R, G>,
        observation: &Observation,
        steps: &mut Steps<L>,
    ) -> Result<(), NoMemory>
        requires taken { HasTaken observation.now.growing }
        requires formula { observation.now.growing.disjuncts ≡ self.old.of.disjuncts }
        requires later { IsLater self.old.of.seen observation.now.growing.seen }
        ensures of { self.new.of ≡ observation.now.growing }
        ensures answer { OnOk result (IsSome self.new.answer) }
        ensures by_steps { OnOk result (AreSettledBySteps self.old.settled (all_conjunctions
            (disjuncts_of observation.now.growing.disjuncts)) self.new.settled) }
        ensures looks { OnOk result (means.now.workers ≡ 1 → steps.new ≤ steps.old
            + bounds (lens_seen observation.now.growing.seen) self.old.settled
            (all_conjunctions (disjuncts_of observation.now.growing.disjuncts)) self.new.settled) }
    {
        what_goes_on_goes_on_later();
        let answered = self.answering.answer(means, observation, steps);
        self.seen = Snapshot::of(observation.seen());
        self.disjuncts = Snapshot::of(observation.disjuncts());
        match answered {
            Ok(answer) => {
                self.answer = Some(answer);
                Ok(())
            }
            Err(NoMemory) => {
                self.answer = None;
                Err(NoMemory)
            }
        }
    }

    /// Whether there is an answer. There is none before the first batch.
    pub fn is_made(&self) -> bool
        ensures made { IsTrue result ↔ IsSome self.now.answer }
        ensures taken { IsTrue result → HasTaken self.now.of }
    {
        self.answer.is_some()
    }

    /// The answer.
    pub fn answer(&self) -> &Answer
        requires { IsSome self.now.answer }
        ensures { IsAnswer self.now.of.seen (disjuncts_of self.now.of.disjuncts) result.now }
    {
        match &self.answer {
            Some(answer) => answer,
            None => unreachable!(),
        }
    }

    /// How many conjunctions `settled` numbers.
    pub fn conjunctions(&self) -> usize
        requires { IsSome self.now.answer }
        ensures { result ≡ length (all_conjunctions (disjuncts_of self.now.of.disjuncts)) }
    {
        self.answering.conjunctions()
    }

    /// The rows of a conjunction, numbered from 1.
    pub fn settled(&self, conjunction: u32) -> &Settled
        requires made { IsSome self.now.answer }
        requires some { 1 ≤ conjunction }
        requires there { conjunction
            ≤ length (all_conjunctions (disjuncts_of self.now.of.disjuncts)) }
        ensures settled { IsSettled self.now.of.seen (slice_index_or (all_conjunctions
            (disjuncts_of self.now.of.disjuncts)) (conjunction - 1) []) result.now.rows }
        ensures kept { result.now
            ≡ slice_index_or self.now.settled (conjunction - 1) result.now }
    {
        self.answering.settled(conjunction)
    }
}
