//! The clocks of a batch, which stay where its events have them.
ghost use Rattle.std.specs.Prelude.{◌≡◌, ℕ, ◌-◌, ◌<◌, ◌≤◌, [], length, get_or, replicate, IfOk};
ghost use Rattle.std.specs.List.{AllByRecursion};
ghost use Rattle.run_model.specs.Consistent.{clock};
ghost use Rattle.pota_base.specs.Limits.{most_events};
ghost use Rattle.causal_order.specs.Growth.{HasClock, with_clocks};
ghost use Rattle.vector_clock.specs.inside.BatchPlaces.{ArePlaces, own_clocks};

use event_log::Event;
use pota_base::{List, NoMemory};
use std::alloc::Global;
use std::marker::Model;

/// Up to so many events, a batch is looked through for an event, and nothing is kept of it.
const FEW: usize = 8;

/// A batch, and where in it the events of each process stand, unless they are few. Contracts see
/// the clocks of each process.
#[derive(Drop)]
pub struct BatchClocks<'a> {
    procs: u32,
    batch: &'a [Event],
    places: Vec<List<u32>>,
}

impl<'a> Model for BatchClocks<'a> {
    ghost use Rattle.std.specs.Prelude.{List as ListOf, ℕ, [], replicate};
    ghost use Rattle.causal_order.specs.Growth.{with_clocks};
    ghost use Rattle.vector_clock.specs.inside.BatchPlaces.{HasPlaces};

    ghost Value = { ListOf (ListOf (ListOf ℕ)) };

    ghost view = { λ b. with_clocks (replicate b.procs []) b.batch.now };

    ghost invariant = { λ b. HasPlaces b.procs b.batch.now b.places.items };
}

// A list without places for each process.
fn no_places(alloc: Global, procs: u32) -> Result<Vec<List<u32>>, NoMemory>
    ensures { IfOk result (λ places. places.items ≡ replicate procs []) }
{
    let mut places = Vec::with_capacity(alloc, procs as usize)?;
    for _process in 0..procs {
        places.push(List::new(alloc))?;
    }
    Ok(places)
}

// The places of the events of each process.
fn places_in(alloc: Global, procs: u32, batch: &[Event]) -> Result<Vec<List<u32>>, NoMemory>
    requires each { AllByRecursion (HasClock procs) batch.now }
    requires few { length batch.now ≤ most_events }
    ensures { IfOk result (λ places. ArePlaces procs batch.now places.items) }
{
    let mut places = no_places(alloc, procs)?;
    for i in 0..batch.len() {
        let event = &batch[i];
        places[event.process as usize].push(i as u32)?;
    }
    Ok(places)
}

// The clock of the event at a position of the process in a batch.
fn clock_among(batch: &[Event], process: u32, position: u32) -> &[u32]
    requires first { 1 ≤ position }
    requires last { position ≤ length (own_clocks batch.now process) }
    ensures { result.now ≡ get_or (own_clocks batch.now process) (position - 1) [] }
{
    let mut left = position;
    for event in batch {
        if event.process == process {
            left -= 1;
            if left == 0 {
                return event.clock.as_slice();
            }
        }
    }
    unreachable!()
}

impl<'a> BatchClocks<'a> {
    /// The clocks of a batch of so many processes.
    pub fn new(alloc: Global, procs: u32, batch: &'a [Event]) -> Result<BatchClocks<'a>, NoMemory>
        requires each { AllByRecursion (HasClock procs) batch.now }
        requires few { length batch.now ≤ most_events }
        ensures { IfOk result (λ b. b ≡ with_clocks (replicate procs []) batch.now) }
    {
        let places = if batch.len() <= FEW {
            Vec::new(alloc)
        } else {
            places_in(alloc, procs, batch)?
        };
        Ok(BatchClocks {
            procs,
            batch,
            places,
        })
    }

    /// The clock of the event at a position of a process in the batch, counted from 1.
    pub fn clock(&self, process: u32, position: u32) -> &[u32]
        requires process { process < length self.now }
        requires first { 1 ≤ position }
        requires last { position ≤ length (get_or self.now process []) }
        ensures clock { result.now ≡ clock self.now process position }
        ensures width { length result.now ≡ length self.now }
    {
        if self.places.is_empty() {
            return clock_among(self.batch, process, position);
        }
        let place = *self.places[process as usize].get((position - 1) as usize);
        self.batch[place as usize].clock.as_slice()
    }
}
