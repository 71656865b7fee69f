//! Rows that are begun and raised.
ghost use Rattle.std.specs.Prelude.{◌≡◌, ◌↔◌, ◌+◌, ◌<◌, ◌≤◌, false, length, sum, IfOk, IsTrue};
ghost use Rattle.pull_system.specs.System.{HoldsPull, IsClosed, source_of};
ghost use Rattle.pull_system.specs.Rows.{AreLeastRows};
ghost use Rattle.raise_machine.specs.Bounds.{word_at};
ghost use Rattle.certificate_table.specs.Begun.{AreCertified, AreOfOneProcess, IsWhole};
ghost use Rattle.certificate_table.specs.Begun.{LastIsClosed, MayBegin, MayFollow, MayRaise};
ghost use Rattle.certificate_table.specs.Begun.{fresh_rows, present, present_row, with_raise};
ghost use Rattle.certificate_table.specs.Begun.{with_row};

use crate::lending::lend_from;
use pota_base::{NoMemory, Steps};
use pull_fans::System;
use pull_system::Rows;
use std::alloc::Global;
use std::marker::Model;
use std::sync::ledger::Ledger;

/// The rows of a system, of which the first are begun. Contracts see the system, the words of the
/// rows and how many were begun.
#[derive(Debug, Drop)]
pub struct CertifiedRows {
    system: System,
    rows: Rows,
    begun: u32,
}

impl Model for CertifiedRows {
    ghost use Rattle.std.specs.Prelude.{◌≡◌};
    ghost use Rattle.certificate_table.specs.Begun.{AreCertified, BegunView};

    ghost Value = { BegunView };

    ghost view = { λ c. record { system = c.system; words = c.rows.words; begun = c.begun } };

    ghost invariant = { λ c. (c.rows.lens ≡ c.system.lens)
        × AreCertified (record { system = c.system; words = c.rows.words; begun = c.begun }) };
}

impl CertifiedRows {
    /// The rows of the system before one is begun.
    pub fn new(alloc: Global, system: System) -> Result<CertifiedRows, NoMemory>
        ensures { IfOk result (λ c. c ≡ fresh_rows system) }
    {
        let rows = Rows::new(alloc, system.shape())?;
        Ok(CertifiedRows {
            system,
            rows,
            begun: 0,
        })
    }

    /// Begins the row, behind an earlier one if there is one, and says whether it may begin. It
    /// looks up each pull once at most, to see that the row before is closed.
    pub fn begin<L: Ledger>(&mut self, row: u32, after: Option<u32>, steps: &mut Steps<L>) -> bool
        ensures allowed { IsTrue result ↔ MayBegin self.old row after }
        ensures begun { IsTrue result → self.new ≡ with_row self.old row after }
        ensures same { result ≡ false → self.new ≡ self.old }
        ensures looks { steps.new ≤ steps.old + length self.old.system.pulls }
    {
        if !self.may_begin(row, after, steps) {
            return false;
        }
        self.begin_next(row, after);
        true
    }

    /// Begins the row, which may begin behind the other. It looks up no pull.
    pub fn begin_next(&mut self, row: u32, after: Option<u32>)
        requires { MayBegin self.old row after }
        ensures { self.new ≡ with_row self.old row after }
    {
        lend_from(&mut self.rows, after, row);
        self.begun += 1;
    }

    /// Raises the present row by what pull `k` asks for at `x`, and says whether it may. It looks
    /// up one pull at most.
    pub fn raise<L: Ledger>(&mut self, k: u32, x: u32, steps: &mut Steps<L>) -> bool
        ensures allowed { IsTrue result ↔ MayRaise self.old k x }
        ensures raised { IsTrue result → self.new ≡ with_raise self.old k x }
        ensures same { result ≡ false → self.new ≡ self.old }
        ensures looks { steps.new ≤ steps.old + 1 }
    {
        if self.begun == 0 || k >= self.system.pulls() {
            return false;
        }
        let row = self.begun - 1;
        let (source, target) = self.system.ends(k);
        if u64::from(x) > self.rows.word(row, source) {
            return false;
        }
        let asked = self.system.pull(k, u64::from(x), steps);
        if asked <= self.rows.word(row, target) {
            return false;
        }
        self.rows.raise(row, target, asked);
        true
    }

    /// Whether all rows were begun and the last is closed. Then each row is the least. It looks up
    /// each pull once at most.
    pub fn is_whole<L: Ledger>(&self, steps: &mut Steps<L>) -> bool
        ensures whole { IsTrue result ↔ IsWhole self.now }
        ensures least { IsTrue result → AreLeastRows self.now.system self.now.words }
        ensures looks { steps.new ≤ steps.old + length self.now.system.pulls }
    {
        self.begun == self.system.shape().events() + 1 && self.last_is_closed(steps)
    }

    /// How many rows were begun.
    pub fn begun(&self) -> u32
        ensures { result ≡ self.now.begun }
    {
        self.begun
    }

    /// Lends the system.
    pub fn system(&self) -> &System
        ensures system { result.now ≡ self.now.system }
        ensures certified { AreCertified self.now }
    {
        &self.system
    }

    /// Lends the rows.
    pub fn rows(&self) -> &Rows
        ensures lens { result.now.lens ≡ self.now.system.lens }
        ensures words { result.now.words ≡ self.now.words }
    {
        // The look opens the rows: the clauses speak of their system.
        let _ = &self.system;
        &self.rows
    }

    /// Whether the row is the next one and may begin behind that other row.
    fn may_begin<L: Ledger>(&self, row: u32, after: Option<u32>, steps: &mut Steps<L>) -> bool
        ensures allowed { IsTrue result ↔ MayBegin self.now row after }
        ensures looks { steps.new ≤ steps.old + length self.now.system.pulls }
    {
        if row != self.begun || row > self.system.shape().events() {
            return false;
        }
        self.may_follow(row, after) && self.last_is_closed(steps)
    }

    /// Whether the other row has to lie within this one.
    fn may_follow(&self, row: u32, after: Option<u32>) -> bool
        requires { row ≤ sum self.now.system.lens }
        ensures { IsTrue result ↔ MayFollow self.now.system.lens row after }
    {
        match after {
            None => true,
            Some(other) => other < row && (other == 0 || self.are_of_one_process(row, other)),
        }
    }

    /// Whether both rows are of events of one process.
    fn are_of_one_process(&self, row: u32, other: u32) -> bool
        requires row { row ≤ sum self.now.system.lens }
        requires other { other ≤ sum self.now.system.lens }
        ensures { IsTrue result ↔ AreOfOneProcess self.now.system.lens row other }
    {
        let shape = self.system.shape();
        match (shape.event_of(row), shape.event_of(other)) {
            (Some(first), Some(second)) => first.process == second.process,
            _ => false,
        }
    }

    /// Whether the present row is closed, or there is none.
    fn last_is_closed<L: Ledger>(&self, steps: &mut Steps<L>) -> bool
        ensures closed { IsTrue result ↔ LastIsClosed self.now }
        ensures looks { steps.new ≤ steps.old + length self.now.system.pulls }
    {
        if self.begun == 0 {
            return true;
        }
        for k in 0..self.system.pulls() {
            if !self.holds(k, steps) {
                return false;
            }
        }
        true
    }

    /// Whether pull `k` holds at the present row.
    pub fn holds<L: Ledger>(&self, k: u32, steps: &mut Steps<L>) -> bool
        requires begun { 0 < self.now.begun }
        requires pull { k < length self.now.system.pulls }
        ensures holds { IsTrue result ↔ HoldsPull self.now.system (present_row self.now) k }
        ensures look { steps.new ≡ steps.old + 1 }
    {
        let row = self.begun - 1;
        let (source, target) = self.system.ends(k);
        let reached = self.rows.word(row, source);
        self.system.pull(k, reached, steps) <= self.rows.word(row, target)
    }

    /// The number of the present row at the source of pull `k`.
    pub fn reached(&self, k: u32) -> u32
        requires begun { 0 < self.now.begun }
        requires pull { k < length self.now.system.pulls }
        ensures { result ≡ word_at self.now.system.lens self.now.words (present self.now)
            (source_of self.now.system k) }
    {
        let (source, _) = self.system.ends(k);
        self.rows.word(self.begun - 1, source) as u32
    }
}
