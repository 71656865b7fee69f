//! Settling a row: its words rise until each pull holds.
//!
//! A vector of 16 bits has the seat's floor of the row, and a second one for each process the value
//! at which the pulls from it were looked up last. Where they are equal each pull holds. So only
//! the pulls from what rose are looked up again. A row's words fit, since a run has few events.
ghost use Rattle.std.specs.Prelude.{◌≡◌, ◌⊎◌, ℕ, ◌+◌, ◌*◌, ◌<◌, ◌≤◌, true, length, sum};
ghost use Rattle.std.specs.Prelude.{slice_index};
ghost use Rattle.pull_system.specs.Vector.{IsAtMost};
ghost use Rattle.pull_system.specs.System.{source_of, target_of, ask};
ghost use Rattle.pull_fans.specs.Sources.{numbers_from};
ghost use Rattle.pull_system.specs.Rows.{row_at, IsLeast};
ghost use Rattle.pull_fans.specs.Asks.{IsAskedBy, AreAsks};
ghost use Rattle.raise_machine.specs.Bounds.{has_start};
ghost use Rattle.bound_table.specs.inside.Asking.{IsSettling, IsAsking, SeesMore};
ghost use Rattle.bound_table.specs.Kept.{Follows};
ghost use Rattle.bound_table.specs.Lending.{HasReached, SettlesFrom, AreLeast};
ghost use Rattle.bound_table.specs.inside.Lending.{MayLend};
ghost use Rattle.bound_table.specs.Views.{KeepsClaims};

use crate::narrow::widen;
use crate::seat::Seat;
use crate::table::BoundTable;
use pota_base::{MOST_PROCESSES, Steps};
use std::sync::ledger::Ledger;

impl BoundTable {
    /// Raises the row until the seat's floors for it are closed. They and `into` are then the least
    /// closed vector of the row.
    ///
    /// After a look at the words each pull is looked up once, and then again each time that its
    /// source has risen. So with P pulls it takes at most `P * (1 + rise)` look-ups, the rise being
    /// that of the seat's floors, and at most P where these were the least closed vector. It waits
    /// for nobody, and takes no memory.
    pub fn settle<L: Ledger>(
        &self,
        seat: &mut Seat,
        row: u32,
        into: &mut [u64],
        steps: &mut Steps<L>,
    )
        requires fits { seat.old.table ≡ self.now }
        requires row { row ≤ sum self.now.system.lens }
        requires into { length into.old ≡ length self.now.system.lens }
        ensures keeps { KeepsClaims seat.old seat.new }
        ensures follows { Follows self.now.system row seat.old.floor seat.new.floor into.new }
        ensures least { IsLeast self.now.system row into.new }
        ensures looks { let pulls = length self.now.system.pulls in
            let before = sum (row_at self.now.system.lens seat.old.floor row) in
            steps.new + pulls * before ≤ steps.old + pulls * (1 + sum into.new) }
    {
        let mut words = [0; MOST_PROCESSES];
        let words = &mut words[..self.system().shape().procs() as usize];
        self.settle_narrow(seat, row, words, steps);
        widen(words, into);
    }

    /// Settles the row as `settle` does, with its words in 16 bits.
    pub fn settle_narrow<L: Ledger>(
        &self,
        seat: &mut Seat,
        row: u32,
        into: &mut [u16],
        steps: &mut Steps<L>,
    )
        requires fits { seat.old.table ≡ self.now }
        requires row { row ≤ sum self.now.system.lens }
        requires into { length into.old ≡ length self.now.system.lens }
        ensures keeps { KeepsClaims seat.old seat.new }
        ensures follows { Follows self.now.system row seat.old.floor seat.new.floor into.new }
        ensures least { IsLeast self.now.system row into.new }
        ensures looks { let pulls = length self.now.system.pulls in
            let before = sum (row_at self.now.system.lens seat.old.floor row) in
            steps.new + pulls * before ≤ steps.old + pulls * (1 + sum into.new) }
    {
        seat.bounds();
        let mut seen = [0; MOST_PROCESSES];
        let seen = &mut seen[..self.system().shape().procs() as usize];
        self.look_narrow(seat, row, into);
        self.ask_all(seat, row, into, seen, steps);
        self.close_row(seat, row, into, seen, steps);
    }

    /// Settles the row as `settle` does, from its words as they were looked at last, and from a
    /// closed vector in `into` that the row `before` has reached. It is lent to the row, and of it
    /// only the pulls are looked up whose source rises above it. No word is read again.
    ///
    /// The seat's floor for the row has the event of `before`, or `before` is the bottom's. In
    /// ordinary use `looked` is what `look_narrow` gave for the row, and `into` what
    /// `settle_narrow` or `settle_after` gave for the row `before`, the one before on its process.
    pub fn settle_after<L: Ledger>(
        &self,
        seat: &mut Seat,
        before: u32,
        row: u32,
        looked: &mut [u16],
        into: &mut [u16],
        steps: &mut Steps<L>,
    )
        requires from { SettlesFrom self.now seat.old before row looked.old into.old }
        requires lent { HasReached self.now.system.lens seat.old.floor before into.old }
        requires event { has_start self.now.system.lens seat.old.floor row before ≡ true }
        ensures keeps { KeepsClaims seat.old seat.new }
        ensures follows { Follows self.now.system row seat.old.floor seat.new.floor into.new }
        ensures least { AreLeast self.now.system row into.new looked.new }
        ensures looks { let pulls = length self.now.system.pulls in
            let before = sum (row_at self.now.system.lens seat.old.floor row) in
            steps.new + pulls * before ≤ steps.old + pulls * (1 + sum into.new) }
        ensures pays { let pulls = length self.now.system.pulls in
            steps.new + pulls * sum into.old ≤ steps.old + pulls * sum into.new }
    {
        seat.bounds();
        // By its clause the lengths are those of a shape.
        let _shape = self.system().shape();
        self.lend_row(seat, before, row, into, looked);
        self.close_row(seat, row, looked, into, steps);
    }

    /// Raises each word of the row to at least what is lent.
    fn lend_row(&self, seat: &mut Seat, before: u32, row: u32, lent: &[u16], vector: &mut [u16])
        requires settling { IsSettling self.now row seat.old seat.old vector.old }
        requires lent { MayLend self.now.system.lens seat.old.floor before row lent.now }
        ensures settling { IsSettling self.now row seat.old seat.new vector.new }
        ensures reaches { IsAtMost lent.now vector.new }
    {
        if excess(lent, vector) == 0 {
            return;
        }
        let begin = self.begin(row);
        let procs = self.system().shape().procs();
        for process in 0..procs {
            let (found, y) = (
                vector[process as usize] as u64,
                lent[process as usize] as u64,
            );
            let word = begin + process as usize;
            let became = self.raise_by_lend(seat, before, row, process, word, found, y);
            vector[process as usize] = became as u16;
        }
    }

    /// Looks up the pulls from each process once.
    fn ask_all<L: Ledger>(
        &self,
        seat: &mut Seat,
        row: u32,
        vector: &mut [u16],
        seen: &mut [u16],
        steps: &mut Steps<L>,
    )
        requires settling { IsSettling self.now row seat.old seat.old vector.old }
        requires seen { length seen.old ≡ length self.now.system.lens }
        ensures asking { IsAsking self.now row seat.old seat.new vector.new seen.new }
        ensures reaches { IsAtMost vector.old seen.new }
        ensures looks { steps.new ≤ steps.old + length self.now.system.pulls }
    {
        for process in 0..self.system().shape().procs() {
            let x = vector[process as usize];
            seen[process as usize] = x;
            self.ask_from(seat, row, process, x, vector, steps);
        }
    }

    /// Looks up the pulls from what has risen, until nothing rises.
    fn close_row<L: Ledger>(
        &self,
        seat: &mut Seat,
        row: u32,
        vector: &mut [u16],
        seen: &mut [u16],
        steps: &mut Steps<L>,
    )
        requires asking { IsAsking self.now row seat.old seat.old vector.old seen.old }
        ensures settling { IsSettling self.now row seat.old seat.new vector.new }
        ensures least { AreLeast self.now.system row vector.new seen.new }
        ensures looks { let pulls = length self.now.system.pulls in
            steps.new + pulls * sum vector.old ≤ steps.old + pulls * (1 + sum vector.new) }
        ensures pays { let pulls = length self.now.system.pulls in
            steps.new + pulls * sum seen.old ≤ steps.old + pulls * sum vector.new }
    {
        let mut asked = self.ask_risen(seat, row, vector, seen, steps);
        while asked > 0 {
            asked = self.ask_risen(seat, row, vector, seen, steps);
        }
    }

    /// Looks up the pulls from each process that has risen, and gives the number of these
    /// processes.
    // Inside the loop of `close_row` the pass of `excess` would be compiled word by word.
    #[inline(never)]
    fn ask_risen<L: Ledger>(
        &self,
        seat: &mut Seat,
        row: u32,
        vector: &mut [u16],
        seen: &mut [u16],
        steps: &mut Steps<L>,
    ) -> u32
        requires asking { IsAsking self.now row seat.old seat.old vector.old seen.old }
        ensures asking { IsAsking self.now row seat.old seat.new vector.new seen.new }
        ensures done { result ≡ 0 → IsAtMost vector.new seen.new }
        ensures reaches { IsAtMost vector.old seen.new }
        ensures sees { SeesMore (length self.now.system.pulls) result steps.old steps.new seen.old
            seen.new }
        ensures looks { steps.new ≤ steps.old + length self.now.system.pulls }
    {
        if excess(vector, seen) == 0 {
            return 0;
        }
        let mut asked = 0;
        for process in 0..self.system().shape().procs() {
            asked += self.ask_again(seat, row, process, vector, seen, steps);
        }
        asked
    }

    /// Looks up the pulls from the process where it has risen, and gives 1 where it has.
    fn ask_again<L: Ledger>(
        &self,
        seat: &mut Seat,
        row: u32,
        process: u32,
        vector: &mut [u16],
        seen: &mut [u16],
        steps: &mut Steps<L>,
    ) -> u32
        requires asking { IsAsking self.now row seat.old seat.old vector.old seen.old }
        requires process { process < length self.now.system.lens }
        ensures few { result ≤ 1 }
        ensures asking { IsAsking self.now row seat.old seat.new vector.new seen.new }
        ensures idle { result ≡ 0 → vector.new ≡ vector.old }
        ensures reaches { slice_index vector.old process ≤ slice_index seen.new process }
        ensures sees { SeesMore (length self.now.system.pulls) result steps.old steps.new seen.old
            seen.new }
        ensures looks { let pulls = self.now.system.pulls in
            steps.new ≤ steps.old + length (numbers_from pulls process (length pulls)) }
    {
        let x = vector[process as usize];
        if x <= seen[process as usize] {
            return 0;
        }
        seen[process as usize] = x;
        self.ask_from(seat, row, process, x, vector, steps);
        1
    }

    /// Looks up the pulls from the process at `x`, and raises their targets to what they ask for.
    fn ask_from<L: Ledger>(
        &self,
        seat: &mut Seat,
        row: u32,
        process: u32,
        x: u16,
        vector: &mut [u16],
        steps: &mut Steps<L>,
    )
        requires settling { IsSettling self.now row seat.old seat.old vector.old }
        requires process { process < length self.now.system.lens }
        requires reached { x ≤ slice_index vector.old process }
        ensures settling { IsSettling self.now row seat.old seat.new vector.new }
        ensures holds { (k : ℕ) → k < length self.now.system.pulls
            → source_of self.now.system k ≡ process
            → ask self.now.system k x ≤ slice_index vector.new (target_of self.now.system k) }
        ensures looks { let pulls = self.now.system.pulls in
            steps.new ≡ steps.old + length (numbers_from pulls process (length pulls)) }
    {
        let asks = self.system().asks(process, x as u64, steps);
        self.rise_to(seat, row, process, x, asks, vector);
    }

    /// Raises the words of the row to at least what the pulls from the process ask at `x`.
    fn rise_to(
        &self,
        seat: &mut Seat,
        row: u32,
        process: u32,
        x: u16,
        asks: &[u16],
        vector: &mut [u16],
    )
        requires settling { IsSettling self.now row seat.old seat.old vector.old }
        requires process { process < length self.now.system.lens }
        requires reached { x ≤ slice_index vector.old process }
        requires asks { AreAsks self.now.system process x asks.now }
        ensures settling { IsSettling self.now row seat.old seat.new vector.new }
        ensures reaches { IsAtMost asks.now vector.new }
    {
        if excess(asks, vector) == 0 {
            return;
        }
        for target in 0..self.system().shape().procs() {
            self.rise_at(seat, row, process, x, target, asks[target as usize], vector);
        }
    }

    /// Raises one word of the row to at least what a pull from the process asks of it at `x`.
    fn rise_at(
        &self,
        seat: &mut Seat,
        row: u32,
        process: u32,
        x: u16,
        target: u32,
        asked: u16,
        vector: &mut [u16],
    )
        requires settling { IsSettling self.now row seat.old seat.old vector.old }
        requires process { process < length self.now.system.lens }
        requires target { target < length self.now.system.lens }
        requires reached { x ≤ slice_index vector.old process }
        requires asked { (asked ≡ 0) ⊎ IsAskedBy self.now.system process x target asked }
        ensures settling { IsSettling self.now row seat.old seat.new vector.new }
        ensures reaches { asked ≤ slice_index vector.new target }
    {
        if vector[target as usize] < asked {
            vector[target as usize] = self.raise_by_pull(seat, row, target, asked as u64) as u16;
        }
    }
}

/// The most by which an entry of the first is above that of the second.
fn excess(asks: &[u16], vector: &[u16]) -> u16
    requires { length asks.now ≡ length vector.now }
    ensures { result ≡ 0 → IsAtMost asks.now vector.now }
{
    let mut excess = 0;
    for i in 0..asks.len() {
        excess = excess.max(asks[i].saturating_sub(vector[i]));
    }
    excess
}
