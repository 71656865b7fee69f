//! The events of all processes as their batches gave them, and the history of each process.
ghost use Rattle.std.specs.Prelude.{◌≡◌, ℕ, ◌+◌, ◌-◌, pos, ◌<◌, ◌≤◌, [], ◌++◌, List, length, map};
ghost use Rattle.std.specs.Prelude.{take, get_or, slice_index_or, sum, IfOk, OnOk, OnErr};
ghost use Rattle.std.specs.List.{AllByRecursion};
ghost use Rattle.pota_base.specs.Limits.{most_events, most_processes};
ghost use Rattle.event_log.specs.declared.log.Binding.{Binding};
ghost use Rattle.event_log.specs.declared.log.Event.{Event};
ghost use Rattle.event_log.specs.States.{HistoryView, states_in};
ghost use Rattle.event_log.specs.inside.Places.{PlacedHistory, unplaced, HasPlace, with_places};
ghost use Rattle.event_log.specs.inside.Places.{AreLonger, AllHaveRows, lens_of};
ghost use Rattle.event_log.specs.inside.States.{nothing, events_in, fresh, HasRoom, Added};

use crate::counting::{MANY_EVENTS, count_events};
use crate::history::History;
use crate::log::{Binding, Event};
use pota_base::{EventId, List, NoMemory, Shape};
use std::alloc::Global;
use std::marker::Model;

/// The memory of so many events of a batch is given back at once.
const GIVEN_BACK: usize = 4_096;

/// The events of all processes, and the history of each one. Contracts see the histories with
/// their events.
#[derive(Debug, Drop)]
pub struct Histories {
    /// The events batch by batch. The first batch's list is kept as it came.
    all: Vec<Event>,
    /// One for each process. It says by their places which of all events are its own.
    each: Vec<History>,
}

impl Model for Histories {
    ghost use Rattle.std.specs.Prelude.{List};
    ghost use Rattle.event_log.specs.States.{HistoryView};
    ghost use Rattle.event_log.specs.inside.Places.{histories_of, ArePlaced};

    ghost Value = { List HistoryView };

    ghost view = { λ h. histories_of h.all.items h.each.items };

    ghost invariant = { λ h. ArePlaced h.all.items h.each.items };
}

// Takes room at once for the places and the values of a batch's events.
fn make_room(each: &mut Vec<History>, batch: &[Event]) -> Result<(), NoMemory>
    requires procs { length each.old.items ≤ most_processes }
    requires room { AllByRecursion (HasPlace each.old.items) batch.now }
    requires few { length batch.now ≤ most_events }
    ensures { each.new.items ≡ each.old.items }
{
    let counts = count_events(batch);
    for process in 0..each.len() {
        each[process].reserve(counts[process] as usize)?;
    }
    Ok(())
}

// Puts the place of each event of a batch behind those of its process, and a row behind its rows.
// The first event stands at the place `start`. Without memory some of it may be there.
fn note_batch(each: &mut Vec<History>, start: usize, batch: &[Event]) -> Result<(), NoMemory>
    requires room { AllByRecursion (HasPlace each.old.items) batch.now }
    requires few { start + length batch.now ≤ most_events }
    ensures ok { OnOk result (each.new.items ≡ with_places each.old.items start batch.now) }
    ensures longer { AreLonger each.old.items each.new.items }
{
    for i in 0..batch.len() {
        let event = &batch[i];
        let history = &mut each[event.process as usize];
        history.push((start + i) as u32, event.assigns.as_slice())?;
    }
    Ok(())
}

// Gives back the memory of the events that have gone, where it is worth the while.
fn give_back(batch: &mut Vec<Event>)
    ensures { batch.new.items ≡ batch.old.items }
{
    if batch.len() % GIVEN_BACK == 0 {
        batch.shrink_to_fit();
    }
}

// Puts the events of a batch behind all events, one by one. Without memory some may be there. The
// batch goes from its end, and is therefore turned round first, so that its memory is given back
// while the list of all events grows.
fn move_events(all: &mut Vec<Event>, mut batch: Vec<Event>) -> Result<(), NoMemory>
    ensures ok { OnOk result (all.new.items ≡ all.old.items ++ batch.items) }
    ensures err { OnErr result (take (length all.old.items) all.new.items ≡ all.old.items) }
{
    batch.reverse();
    while let Some(event) = batch.pop() {
        give_back(&mut batch);
        all.push(event)?;
    }
    Ok(())
}

// Puts the events of a batch behind all events. The first batch's list is taken as it is. A short
// list is copied in one piece; a long one is never there twice.
fn keep_events(all: &mut Vec<Event>, mut batch: Vec<Event>) -> Result<(), NoMemory>
    ensures ok { OnOk result (all.new.items ≡ all.old.items ++ batch.items) }
    ensures err { OnErr result (all.new.items ≡ all.old.items) }
{
    if all.is_empty() {
        *all = batch;
        return Ok(());
    }
    if batch.len() < GIVEN_BACK {
        all.append(&mut batch)?;
        return Ok(());
    }
    let before = all.len();
    if move_events(all, batch).is_err() {
        all.truncate(before);
        return Err(NoMemory);
    }
    Ok(())
}

// Puts a batch behind the events that are there. Without memory all events are as before, and some
// of the batch may be in the histories.
fn add_batch(
    all: &mut Vec<Event>,
    each: &mut Vec<History>,
    batch: Vec<Event>,
) -> Result<(), NoMemory>
    requires procs { length each.old.items ≤ most_processes }
    requires room { AllByRecursion (HasPlace each.old.items) batch.items }
    requires few { length all.old.items + length batch.items ≤ most_events }
    ensures all { OnOk result (all.new.items ≡ all.old.items ++ batch.items) }
    ensures each { OnOk result
        (each.new.items ≡ with_places each.old.items (length all.old.items) batch.items) }
    ensures err { OnErr result (all.new.items ≡ all.old.items) }
    ensures longer { AreLonger each.old.items each.new.items }
{
    if batch.len() >= MANY_EVENTS {
        make_room(each, &batch)?;
    }
    note_batch(each, all.len(), &batch)?;
    keep_events(all, batch)
}

// Keeps the first events of each process, as many as the shape has.
fn cut_back(each: &mut Vec<History>, shape: &Shape)
    requires count { length shape.now ≡ length each.old.items }
    requires fits { (p : ℕ)
        → get_or shape.now p 0 ≤ length (get_or each.old.items p unplaced).places }
    // Histories that have become longer since they had this shape are again what they were.
    ensures { (before : List PlacedHistory) → AreLonger before each.old.items
        → AllHaveRows before → shape.now ≡ lens_of before → each.new.items ≡ before }
{
    for process in 0..shape.procs() {
        let len = shape.len_of(process);
        each[process as usize].truncate(len as usize);
    }
}

impl Histories {
    /// The histories of processes with these variables, without events.
    pub fn new(alloc: Global, vars: &[List<Binding>]) -> Result<Histories, NoMemory>
        ensures { IfOk result (λ h. h ≡ fresh vars.now) }
    {
        let mut each = Vec::new(alloc);
        for variables in vars {
            each.push(History::new(alloc, variables.as_slice())?)?;
        }
        Ok(Histories {
            all: Vec::new(alloc),
            each,
        })
    }

    /// How many processes there are.
    pub fn procs(&self) -> usize
        ensures { result ≡ length self.now }
    {
        self.each.len()
    }

    /// How many events a process has.
    pub fn len_of(&self, process: usize) -> usize
        requires { process < length self.now }
        ensures { result ≡ length (get_or self.now process nothing).events }
    {
        self.each[process].len()
    }

    /// The value of a variable of a process after so many of its events.
    pub fn value(&self, process: u32, position: u32, variable: u32) -> i64
        requires process { process < length self.now }
        requires state { position ≤ length (get_or self.now process nothing).events }
        requires variable { variable < length (get_or self.now process nothing).opening }
        ensures { result ≡ get_or
            (get_or (states_in (get_or self.now process nothing)) position []) variable (pos 0) }
    {
        self.each[process as usize].value(position as usize, variable as usize)
    }

    /// The values of all variables of a process after so many of its events.
    pub fn state(&self, process: u32, position: u32) -> &[i64]
        requires process { process < length self.now }
        requires state { position ≤ length (get_or self.now process nothing).events }
        ensures { result.now ≡ get_or (states_in (get_or self.now process nothing)) position [] }
    {
        self.each[process as usize].state(position as usize)
    }

    /// The event at a position of a process, counted from 1.
    pub fn event(&self, event: EventId) -> &Event
        requires process { event.process < length self.now }
        requires first { 1 ≤ event.position }
        requires last { event.position
            ≤ length (get_or self.now event.process nothing).events }
        ensures { result.now ≡ slice_index_or
            (get_or self.now event.process nothing).events (event.position - 1) result.now }
    {
        let place = self.each[event.process as usize].place(event.position as usize);
        &self.all[place]
    }

    /// Puts the events of a batch behind those that are there, where the shape is theirs. Without
    /// memory it is as before.
    pub fn extend(&mut self, batch: Vec<Event>, shape: &Shape) -> Result<(), NoMemory>
        requires procs { length self.old ≤ most_processes }
        requires room { AllByRecursion (HasRoom self.old) batch.items }
        requires few { sum (map length (events_in self.old)) + length batch.items ≤ most_events }
        requires shape { shape.now ≡ map length (events_in self.old) }
        ensures ok { OnOk result (Added self.old batch.items self.new) }
        ensures err { OnErr result (self.new ≡ self.old) }
    {
        if add_batch(&mut self.all, &mut self.each, batch).is_err() {
            cut_back(&mut self.each, shape);
            return Err(NoMemory);
        }
        Ok(())
    }
}
