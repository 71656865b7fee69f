//! The clocks of all events up to the end of a batch, and the faults of a clock among them.
ghost use Rattle.std.specs.Prelude.{◌≡◌, ℕ, ◌-◌, ◌<◌, ◌≤◌, ◌==◌, ◌&&◌, not, nat_lt, [], length};
ghost use Rattle.std.specs.Prelude.{get_or, IfOk, IsTrue, None};
ghost use Rattle.std.specs.List.{AllByRecursion};
ghost use Rattle.event_log.specs.PassedOn.{choose};
ghost use Rattle.run_model.specs.Cut.{count, IsWithin, lengths};
ghost use Rattle.run_model.specs.Consistent.{clock};
ghost use Rattle.pota_base.specs.Limits.{most_events};
ghost use Rattle.event_log.specs.LogText.{KindWithin};
ghost use Rattle.causal_order.specs.Growth.{HasClock, with_clocks};
ghost use Rattle.vector_clock.specs.Faults.{clock_fault as fault_of_clock, goes_back as falls_back};
ghost use Rattle.vector_clock.specs.Faults.{is_dangling as counts_too_many};
ghost use Rattle.vector_clock.specs.Sound.{IsSound};
ghost use Rattle.vector_clock.specs.inside.Sound.{AreSoundUpTo, AddsOnlyItself, JoinsNamed};
ghost use Rattle.vector_clock.specs.Sound.{counted_before as counted_by};
ghost use Rattle.vector_clock.specs.Sound.{is_newly_open as is_open, is_newly_loop as is_loop};

use crate::batch_clocks::BatchClocks;
use crate::beyond::{are_same_but, is_beyond, is_join_but};
use causal_order::Order;
use event_log::{Event, Kind, LogCode};
use pota_base::{EventId, NoMemory};
use std::alloc::Global;
use std::marker::Model;

/// The clocks of the events that were admitted, and those of a batch behind them. Contracts see all
/// of them.
#[derive(Drop)]
pub struct Joined<'a> {
    admitted: &'a Order,
    added: BatchClocks<'a>,
    // How many events each process has.
    lens: &'a [u32],
}

impl<'a> Model for Joined<'a> {
    ghost use Rattle.std.specs.Prelude.{List, ℕ};
    ghost use Rattle.vector_clock.specs.inside.Sound.{joined_clocks, AreJoined};

    ghost Value = { List (List (List ℕ)) };

    ghost view = { λ j. joined_clocks j.admitted.now j.added };

    ghost invariant = { λ j. AreJoined j.admitted.now j.added j.lens.now };
}

// The count of a process, and 0 where there is no clock.
fn counted_in(clock: Option<&[u32]>, process: u32) -> u32
    ensures { result ≡ choose clock.entry (λ row. count row.now process) 0 }
{
    match clock {
        Some(row) => row.get(process as usize).copied().unwrap_or(0),
        None => 0,
    }
}

// Whether the clock names an event of process `other` that the clock before on its process doesn't
// count.
fn newly_names(event: &Event, before: Option<&[u32]>, other: u32) -> bool
    requires { other < length event.now.clock }
    ensures { result ≡ (not (other == event.now.process)
        && nat_lt (choose before.entry (λ row. count row.now other) 0)
        (count event.now.clock other)) }
{
    other != event.process && counted_in(before, other) < event.clock.as_slice()[other as usize]
}

impl<'a> Joined<'a> {
    /// The clocks of a batch behind those that were admitted.
    pub fn new(
        alloc: Global,
        admitted: &'a Order,
        batch: &'a [Event],
        lens: &'a [u32],
    ) -> Result<Joined<'a>, NoMemory>
        requires each { AllByRecursion (HasClock (length admitted.now)) batch.now }
        requires few { length batch.now ≤ most_events }
        requires lens { lens.now ≡ lengths (with_clocks admitted.now batch.now) }
        ensures { IfOk result (λ j. j ≡ with_clocks admitted.now batch.now) }
    {
        let added = BatchClocks::new(alloc, admitted.shape().procs(), batch)?;
        Ok(Joined {
            admitted,
            added,
            lens,
        })
    }

    // How many processes there are.
    fn procs(&self) -> u32
        ensures { result ≡ length self.now }
    {
        self.admitted.shape().procs()
    }

    // The clock of the event at a position of a process.
    fn clock(&self, process: u32, position: u32) -> &[u32]
        requires process { process < length self.now }
        requires first { 1 ≤ position }
        requires last { position ≤ length (get_or self.now process []) }
        ensures clock { result.now ≡ clock self.now process position }
        ensures width { length result.now ≡ length self.now }
    {
        let admitted = self.admitted.shape().len_of(process);
        if position <= admitted {
            self.admitted.clock(EventId { process, position })
        } else {
            self.added.clock(process, position - admitted)
        }
    }

    // The clock of the event before a place of the process, if there is one.
    fn clock_before(&self, process: u32, place: u32) -> Option<&[u32]>
        requires process { process < length self.now }
        requires place { place ≤ length (get_or self.now process []) }
        ensures { (j : ℕ) → choose result (λ row. count row.now j) 0
            ≡ counted_by self.now process place j }
    {
        if place > 1 {
            Some(self.clock(process, place - 1))
        } else {
            None
        }
    }

    // Whether the clock counts more events of a process than there are.
    fn is_dangling(&self, event: &Event) -> bool
        requires { length event.now.clock ≡ length self.now }
        ensures { result ≡ counts_too_many self.now event.now }
    {
        is_beyond(event.clock.as_slice(), self.lens)
    }

    // Whether the clock of an event that is newly named isn't within the event's clock.
    fn is_newly_open(&self, event: &Event, place: u32) -> bool
        requires process { event.now.process < length self.now }
        requires width { length event.now.clock ≡ length self.now }
        requires named { IsWithin event.now.clock (lengths self.now) }
        requires place { place ≤ length (get_or self.now event.now.process []) }
        ensures { result ≡ is_open self.now place event.now }
    {
        let clock = event.clock.as_slice();
        let before = self.clock_before(event.process, place);
        for other in 0..self.procs() {
            if newly_names(event, before, other)
                && is_beyond(self.clock(other, clock[other as usize]), clock)
            {
                return true;
            }
        }
        false
    }

    // Whether an event that is newly named has the event in its own past.
    fn is_newly_loop(&self, event: &Event, place: u32) -> bool
        requires process { event.now.process < length self.now }
        requires width { length event.now.clock ≡ length self.now }
        requires named { IsWithin event.now.clock (lengths self.now) }
        requires place { place ≤ length (get_or self.now event.now.process []) }
        ensures { result ≡ is_loop self.now place event.now }
    {
        let clock = event.clock.as_slice();
        let before = self.clock_before(event.process, place);
        for other in 0..self.procs() {
            if newly_names(event, before, other)
                && self.clock(other, clock[other as usize])[event.process as usize] >= place
            {
                return true;
            }
        }
        false
    }

    // Whether a count is less than that of the event before on the process.
    fn goes_back(&self, event: &Event, place: u32) -> bool
        requires process { event.now.process < length self.now }
        requires width { length event.now.clock ≡ length self.now }
        requires place { place ≤ length (get_or self.now event.now.process []) }
        ensures { result ≡ falls_back self.now place event.now }
    {
        place > 1 && is_beyond(self.clock(event.process, place - 1), event.clock.as_slice())
    }

    // Whether the clock counts what the event before on the process counts, and the event itself.
    fn adds_only_itself(&self, event: &Event, place: u32) -> bool
        requires process { event.now.process < length self.now }
        requires width { length event.now.clock ≡ length self.now }
        requires place { place ≤ length (get_or self.now event.now.process []) }
        ensures { IsTrue result → AddsOnlyItself self.now place event.now }
    {
        let own = event.process;
        place > 1
            && are_same_but(
                self.clock(own, place - 1),
                event.clock.as_slice(),
                own as usize,
            )
    }

    // Whether the clock has the greater counts of the event before on the process and of the last
    // event of process `other` that it counts, which was judged before.
    fn joins_named(&self, event: &Event, place: u32, other: u32, judged: &[u32]) -> bool
        requires process { event.now.process < length self.now }
        requires width { length event.now.clock ≡ length self.now }
        requires place { place ≤ length (get_or self.now event.now.process []) }
        requires other { other < length self.now }
        requires judged { AreSoundUpTo self.now judged.now }
        ensures { IsTrue result → JoinsNamed self.now place event.now other }
    {
        let clock = event.clock.as_slice();
        let own = event.process;
        let position = clock[other as usize];
        if place <= 1 || other == own || position < 1 || position > judged[other as usize] {
            return false;
        }
        let named = self.clock(other, position);
        named[own as usize] < place
            && is_join_but(self.clock(own, place - 1), named, clock, own as usize)
    }

    // Whether the clock of a receipt joins that of an event of the sender, so that it has no fault.
    fn joins_sender(&self, event: &Event, place: u32, judged: &[u32]) -> bool
        requires process { event.now.process < length self.now }
        requires width { length event.now.clock ≡ length self.now }
        requires peer { KindWithin (length event.now.clock) event.now.kind }
        requires place { place ≤ length (get_or self.now event.now.process []) }
        requires own { count event.now.clock event.now.process ≡ place }
        requires before { 1 < place → IsSound self.now event.now.process (place - 1) }
        requires judged { AreSoundUpTo self.now judged.now }
        ensures { IsTrue result → None ≡ fault_of_clock self.now place event.now }
    {
        match event.kind {
            Kind::Receive { sender, .. } => self.joins_named(event, place, sender, judged),
            _ => false,
        }
    }

    /// The first fault of the clock of an event at its place. The event before on its process has
    /// none, nor have so many events of each process as were judged.
    pub fn clock_fault(&self, event: &Event, place: u32, judged: &[u32]) -> Option<LogCode>
        requires process { event.now.process < length self.now }
        requires width { length event.now.clock ≡ length self.now }
        requires peer { KindWithin (length event.now.clock) event.now.kind }
        requires place { place ≤ length (get_or self.now event.now.process []) }
        requires before { 1 < place → IsSound self.now event.now.process (place - 1) }
        requires judged { AreSoundUpTo self.now judged.now }
        ensures { result ≡ fault_of_clock self.now place event.now }
    {
        if *event.clock.get(event.process as usize) != place {
            Some(LogCode::ClockOwn)
        } else if self.adds_only_itself(event, place) {
            None
        } else if self.joins_sender(event, place, judged) {
            None
        } else if self.goes_back(event, place) {
            Some(LogCode::ClockBack)
        } else if self.is_dangling(event) {
            Some(LogCode::ClockDangling)
        } else if self.is_newly_open(event, place) {
            Some(LogCode::ClockOpen)
        } else if self.is_newly_loop(event, place) {
            Some(LogCode::ClockLoop)
        } else {
            None
        }
    }
}
