//! The rows of conjunctions, one after the other, and the system that they share.
ghost use Rattle.std.specs.Prelude.{◌≡◌, [], ◌∷◌, ◌++◌, None, Some, drop, OnOk};
ghost use Rattle.conjunctions.specs.Counting.{first_of};

use pota_base::{List, NoMemory};
use pull_fans::System;
use pull_system::Rows;
use slice_workers::Settled;
use std::alloc::Global;
use std::marker::Model;

/// What an answer leaves to the next one: the rows of the conjunctions in the order of their
/// numbers, and the system of the order's pulls, where one was made and kept.
#[derive(Drop)]
pub struct Kept {
    pub settled: List<Settled>,
    pub system: Option<System>,
}

impl Kept {
    /// Nothing, as before the first answer. It takes no memory.
    pub fn new(alloc: Global) -> Kept
        ensures settled { result.settled ≡ [] }
        ensures system { result.system ≡ None }
    {
        Kept {
            settled: List::new(alloc),
            system: None,
        }
    }
}

/// The rows of the conjunctions in the order of their numbers: those of before that are still to
/// come, and those that were settled now. Each conjunction takes one of the former, and leaves one
/// of the latter.
///
/// Conjunctions that begin with the order's pulls share the system of these: the first of them
/// makes it, or grows that of the answer before, and each leaves it to the next one. In a first
/// answer the last one lets it go, so that it takes no room beside what comes after it. Where there
/// was an answer before, more are likely to come, and it is kept for them.
#[derive(Drop)]
pub struct Round {
    before: std::vec::IntoIter<Settled>,
    settled: List<Settled>,
    system: Option<System>,
    /// Whether the system is kept for the next answer. Contracts don't see it.
    keeps: bool,
    /// How many conjunctions are still to take the system. Contracts don't see it.
    sharers: u32,
}

impl Model for Round {
    ghost use Rattle.std.specs.Vec.Iter.{into_iter_items};
    ghost use Rattle.conjunctions.specs.Rounds.{RoundView};

    ghost Value = { RoundView };

    ghost view = { λ r. record {
      before = into_iter_items r.before;
      settled = r.settled;
      system = r.system;
    } };
}

impl Round {
    /// A round that goes on from what the answer before left. It takes no memory.
    pub fn new(alloc: Global, kept: Kept) -> Round
        ensures before { result.before ≡ kept.settled }
        ensures settled { result.settled ≡ [] }
        ensures system { result.system ≡ kept.system }
    {
        let Kept { settled, system } = kept;
        let keeps = !settled.is_empty();
        Round {
            before: settled.into_vec().into_iter(),
            settled: List::new(alloc),
            system,
            keeps,
            sharers: 0,
        }
    }

    /// Begins an answer, in which so many conjunctions are to take the system.
    pub(crate) fn begin(&mut self, sharers: u32)
        ensures { self.new ≡ self.old }
    {
        self.sharers = sharers;
    }

    /// Whether the system is still wanted: by a conjunction that is to take it, or by the next
    /// answer.
    pub(crate) fn is_shared(&self) -> bool {
        self.keeps || self.sharers > 0
    }

    /// The next rows of before.
    pub fn next(&mut self) -> Option<Rows>
        ensures next { result ≡ first_of self.old.before }
        ensures before { self.new.before ≡ drop 1 self.old.before }
        ensures settled { self.new.settled ≡ self.old.settled }
        ensures system { self.new.system ≡ self.old.system }
    {
        match self.before.next() {
            Some(settled) => Some(settled.into_rows()),
            None => None,
        }
    }

    /// Keeps the rows behind those that were settled.
    pub fn keep(&mut self, settled: Settled) -> Result<(), NoMemory>
        ensures before { self.new.before ≡ self.old.before }
        ensures settled { OnOk result (self.new.settled ≡ self.old.settled ++ settled ∷ []) }
        ensures system { self.new.system ≡ self.old.system }
    {
        self.settled.push(settled)
    }

    /// Takes the system out of the round.
    pub fn take_system(&mut self) -> Option<System>
        ensures result { result ≡ self.old.system }
        ensures round { self.new ≡ record self.old { system = None } }
    {
        self.sharers = self.sharers.saturating_sub(1);
        self.system.take()
    }

    /// Leaves the system to the round.
    pub fn leave_system(&mut self, system: System)
        ensures { self.new ≡ record self.old { system = Some system } }
    {
        self.system = Some(system);
    }

    /// What this answer leaves to the next one: the rows that were settled, and the system.
    pub fn into_kept(self) -> Kept
        ensures settled { result.settled ≡ self.settled }
        ensures system { result.system ≡ self.system }
    {
        let Round {
            before,
            settled,
            system,
            keeps: _,
            sharers: _,
        } = self;
        drop(before);
        Kept { settled, system }
    }
}
