ghost use Rattle.pota_base.specs.Blanks.{IsBlankOf};
ghost use Rattle.std.specs.Prelude.{◌≡◌, ◌+◌, ◌<◌, ◌≤◌, true, length, sum, slice_index, IfOk};
ghost use Rattle.pull_system.specs.System.{SystemView, ask, pull_at};
ghost use Rattle.raise_machine.specs.Bounds.{AreBounds, word_at, has_start};

use crate::step::Step;
use pota_base::{NoMemory, Steps};
use pull_fans::System;
use pull_system::Rows;
use std::alloc::Global;
use std::marker::{Brand, Model};
use std::sync::ledger::{Blank, Ledger};

/// The words of the rows of a system, between their starts and the least closed vectors. Contracts
/// see the system and the words.
#[derive(Debug, Drop)]
pub struct Machine {
    system: System,
    rows: Rows,
}

impl Model for Machine {
    ghost use Rattle.std.specs.Prelude.{◌≡◌};
    ghost use Rattle.raise_machine.specs.Bounds.{AreBounds};
    ghost use Rattle.raise_machine.specs.Machine.{MachineView};

    ghost Value = { MachineView };

    ghost view = { λ machine. record { system = machine.system; words = machine.rows.words } };

    ghost invariant = { λ machine. (machine.rows.lens ≡ machine.system.lens)
        × AreBounds machine.system machine.rows.words };
}

impl Machine {
    ghost use Rattle.raise_machine.specs.Machine.{is_word, is_allowed, words_after, happens};
    ghost use Rattle.raise_machine.specs.Machine.{words_at, allowed_count};

    /// The machine whose words are the floor, which lies between the starts and the least closed
    /// vectors.
    pub fn new(alloc: Global, system: System, floor: &Rows) -> Result<Machine, NoMemory>
        requires lens { floor.now.lens ≡ system.lens }
        requires bounds { AreBounds system floor.now.words }
        ensures { IfOk result (λ machine. machine
            ≡ record { system = system; words = floor.now.words }) }
    {
        let rows = floor.copy(alloc)?;
        Ok(Machine { system, rows })
    }

    pub fn word(&self, row: u32, process: u32) -> u64
        requires row { row ≤ sum self.now.system.lens }
        requires process { process < length self.now.system.lens }
        ensures { result ≡ word_at self.now.system.lens self.now.words row process }
    {
        self.rows.word(row, process)
    }

    /// Does the step, and says whether it is allowed: its numbers are in range and its condition
    /// holds. Else nothing changes.
    pub fn step(&mut self, step: Step) -> bool
        ensures allowed { result ≡ is_allowed self.old.system self.old.words step }
        ensures words { self.new.words ≡ happens self.old.system self.old.words step }
        ensures system { self.new.system ≡ self.old.system }
    {
        let allowed = self.allows(step);
        if allowed {
            self.apply(step);
        }
        allowed
    }

    /// Does the steps in turn, and gives the number of those that were allowed. The others change
    /// nothing.
    pub fn run(&mut self, steps: &[Step]) -> usize
        ensures done { result ≡ allowed_count self.old.system self.old.words steps.now }
        ensures words { self.new.words ≡ words_at self.old.system self.old.words steps.now
            (length steps.now) }
        ensures system { self.new.system ≡ self.old.system }
    {
        let mut done = 0;
        for &step in steps {
            if self.step(step) {
                done += 1;
            }
        }
        done
    }

    fn allows(&self, step: Step) -> bool
        ensures { result ≡ is_allowed self.now.system self.now.words step }
    {
        match step {
            Step::Look { row, process } => self.has_word(row, process),
            Step::Pull { row, k, x } => self.has_reached(row, k, x),
            Step::Lend {
                to_row,
                from_row,
                process,
                y,
            } => self.may_lend(to_row, from_row, process, y),
        }
    }

    fn has_word(&self, row: u32, process: u32) -> bool
        ensures { result ≡ is_word self.now.system.lens row process }
    {
        let shape = self.system.shape();
        row <= shape.events() && process < shape.procs()
    }

    /// Whether the source of pull `k` has reached `x` in the row.
    fn has_reached(&self, row: u32, k: u32, x: u64) -> bool
        ensures { result ≡ is_allowed self.now.system self.now.words (Step.Pull row k x) }
    {
        if row > self.system.shape().events() || k >= self.system.pulls() {
            return false;
        }
        let (source, _) = self.system.ends(k);
        x <= self.word(row, source)
    }

    /// Whether `from_row` has reached `y` at the process, and `to_row` has the event of `from_row`.
    fn may_lend(&self, to_row: u32, from_row: u32, process: u32, y: u64) -> bool
        ensures { result ≡ is_allowed self.now.system self.now.words
            (Step.Lend to_row from_row process y) }
    {
        if !self.has_word(to_row, process) || from_row > self.system.shape().events() {
            return false;
        }
        y <= self.word(from_row, process) && self.has_event(to_row, from_row)
    }

    /// Whether the row has the event of the other row, or the other is the bottom's.
    fn has_event(&self, row: u32, other: u32) -> bool
        requires row { row ≤ sum self.now.system.lens }
        requires other { other ≤ sum self.now.system.lens }
        ensures { result ≡ has_start self.now.system.lens self.now.words row other }
    {
        match self.system.shape().event_of(other) {
            None => true,
            Some(event) => event.position as u64 <= self.word(row, event.process),
        }
    }

    fn apply(&mut self, step: Step)
        requires { is_allowed self.old.system self.old.words step ≡ true }
        ensures words { self.new.words ≡ words_after self.old.system self.old.words step }
        ensures system { self.new.system ≡ self.old.system }
    {
        // By its clause the lengths are those of a shape.
        let _shape = self.system.shape();
        match step {
            Step::Look { .. } => {}
            Step::Pull { row, k, x } => {
                let (_, target) = self.system.ends(k);
                let asked = entry::<Brand>(Blank::new(1), &self.system, k, x);
                self.rows.raise(row, target, asked);
            }
            Step::Lend {
                to_row,
                process,
                y,
                ..
            } => self.rows.raise(to_row, process, y),
        }
    }
}

/// One entry of a pull's table, looked up on a counter that nobody reads.
fn entry<L: Ledger>(blank: Blank, system: &System, k: u32, x: u64) -> u64
    requires blank { IsBlankOf L.name L.parts blank }
    requires pull { k < length system.now.pulls }
    requires entry { x < length (pull_at system.now k).table }
    ensures { result ≡ ask system.now k x }
{
    system.pull(k, x, &mut Steps::<L>::new(blank))
}
