//! The columns of the events that are shown.
ghost use Rattle.std.specs.Prelude.{◌≡◌, ◌⊎◌, ℕ, ◌+◌, ◌-◌, ◌<◌, ◌≤◌, ◌^◌, ◌∷◌, [], length, get_or};
ghost use Rattle.std.specs.Prelude.{replicate, sum};
ghost use Rattle.std.specs.Prelude.{IfOk, OnOk};
ghost use Rattle.std.specs.List.{count_by};
ghost use Rattle.pota_base.specs.Shape.{HasEvent};
ghost use Rattle.run_model.specs.Cut.{count, lengths};
ghost use Rattle.run_model.specs.Consistent.{IsOrder};
ghost use Rattle.pota_base.specs.Limits.{most_events, most_processes};
ghost use Rattle.vector_clock.specs.Events.{clocks_of};
ghost use Rattle.view_parts.specs.Parts.{place};
ghost use Rattle.view_picture.specs.Choice.{wants};
ghost use Rattle.view_picture.specs.Columns.{column, AreColumns};
ghost use Rattle.view_picture.specs.Shown.{is_shown, last_shown, has_shown, rank};
ghost use Rattle.view_picture.specs.Ties.{known};
ghost use Rattle.view_picture.specs.inside.Placing.{MayTake, HavePlaces, AreLatest, latest_of};
ghost use Rattle.view_picture.specs.inside.Placing.{greatest_before, column_due};
ghost use Rattle.view_picture.specs.Frame.{most};

use crate::choice::Chooser;
use causal_order::Order;
use cut_lattice::Cut;
use pota_base::{EventId, List, NoMemory};
use std::alloc::Global;
use std::marker::Model;

/// The columns of the events that are shown: of each the length of the longest chain of shown
/// events that ends with it.
#[derive(Debug, Drop)]
pub struct Columns {
    /// For each process 0, and then the columns of its events. One that is not shown has the column
    /// of the one before it.
    rows: Vec<List<u32>>,
    /// For each process and each number of its events, the position of the last shown one.
    latest: Vec<List<u32>>,
}

impl Model for Columns {
    ghost use Rattle.std.specs.Prelude.{ℕ, List as ListOf};
    ghost use Rattle.view_picture.specs.inside.Placing.{AreLatest};

    ghost Value = { ListOf (ListOf ℕ) };

    ghost view = { λ columns. columns.rows.items };

    ghost invariant = { λ columns. AreLatest columns.rows.items columns.latest.items };
}

// For each process the column before its first event.
fn opened(alloc: Global, procs: u32) -> Result<Vec<List<u32>>, NoMemory>
    ensures { IfOk result (λ rows. rows.items ≡ replicate procs (0 ∷ [])) }
{
    let mut rows = Vec::new(alloc);
    for process in 0..procs {
        let mut row = List::new(alloc);
        row.push(0u32)?;
        rows.push(row)?;
    }
    Ok(rows)
}

// The number of a row at this place, and 0 where there is none.
fn number_at(rows: &[List<u32>], process: u32, place: u32) -> u32
    ensures { result ≡ column rows.now process place }
{
    match rows.get(process as usize) {
        Some(row) => row.as_slice().get(place as usize).copied().unwrap_or(0),
        None => 0,
    }
}

/// How many events of a process happened before an event.
pub fn known(order: &Order, event: EventId, process: u32) -> u32
    requires { HasEvent (lengths order.now) event }
    ensures known { result ≡ known order.now event process }
    ensures within { result ≤ count (lengths order.now) process }
{
    if process == event.process {
        return event.position - 1;
    }
    if process >= order.shape().procs() {
        return 0;
    }
    order.clock(event)[process as usize]
}

// The greatest column of the events that happened before this one.
fn greatest_before(order: &Order, rows: &[List<u32>], event: EventId) -> u32
    requires { HasEvent (lengths order.now) event }
    ensures { result ≡ greatest_before order.now rows.now event }
{
    let mut most = 0u32;
    for process in 0..order.shape().procs() {
        most = most.max(number_at(rows, process, known(order, event, process)));
    }
    most
}

// The column of the next event.
fn column_of(order: &Order, chooser: &Chooser<'_>, rows: &[List<u32>], event: EventId) -> u32
    requires there { HasEvent (lengths order.now) event }
    requires run { order.now ≡ clocks_of chooser.now.states.now.events }
    requires few { greatest_before order.now rows.now event < 2 ^ 32 - 1 }
    ensures { result ≡ column_due order.now
        (wants chooser.now.states.now chooser.now.tokens.now chooser.now.choice.now)
        rows.now event }
{
    if chooser.wants(event) {
        return greatest_before(order, rows, event) + 1;
    }
    number_at(rows, event.process, event.position - 1)
}

// Takes the next event of a process, if the cut may take it.
fn take_one(
    order: &Order,
    chooser: &Chooser<'_>,
    cut: &mut Cut,
    rows: &mut Vec<List<u32>>,
    process: u32,
) -> Result<(), NoMemory>
    requires process { process < length order.now }
    requires order { IsOrder order.now }
    requires few { sum (lengths order.now) ≤ most_events }
    requires run { order.now ≡ clocks_of chooser.now.states.now.events }
    requires placed { HavePlaces order.now
        (wants chooser.now.states.now chooser.now.tokens.now chooser.now.choice.now)
        cut.old rows.old.items }
    ensures placed { OnOk result (HavePlaces order.now
        (wants chooser.now.states.now chooser.now.tokens.now chooser.now.choice.now)
        cut.new rows.new.items) }
    ensures more { OnOk result ((sum cut.old < sum cut.new)
        ⊎ ((cut.new ≡ cut.old) × (MayTake order.now cut.old process → ⊥))) }
{
    if !order.can_take(cut, process) {
        return Ok(());
    }
    let position = cut.get(process) + 1;
    let column = column_of(order, chooser, rows, EventId { process, position });
    rows[process as usize].push(column)?;
    cut.set(process, position);
    Ok(())
}

// Takes the next event of each process that may be taken.
fn take_each(
    order: &Order,
    chooser: &Chooser<'_>,
    cut: &mut Cut,
    rows: &mut Vec<List<u32>>,
) -> Result<(), NoMemory>
    requires order { IsOrder order.now }
    requires few { sum (lengths order.now) ≤ most_events }
    requires run { order.now ≡ clocks_of chooser.now.states.now.events }
    requires placed { HavePlaces order.now
        (wants chooser.now.states.now chooser.now.tokens.now chooser.now.choice.now)
        cut.old rows.old.items }
    ensures placed { OnOk result (HavePlaces order.now
        (wants chooser.now.states.now chooser.now.tokens.now chooser.now.choice.now)
        cut.new rows.new.items) }
    ensures more { OnOk result ((sum cut.old < sum cut.new)
        ⊎ ((p : ℕ) → p < length order.now → MayTake order.now cut.old p → ⊥)) }
{
    for process in 0..order.shape().procs() {
        take_one(order, chooser, cut, rows, process)?;
    }
    Ok(())
}

// The columns of the events of a run.
fn rows_of(alloc: Global, order: &Order, chooser: &Chooser<'_>) -> Result<Vec<List<u32>>, NoMemory>
    requires { order.now ≡ clocks_of chooser.now.states.now.events }
    ensures columns { IfOk result (λ rows. AreColumns order.now
        (wants chooser.now.states.now chooser.now.tokens.now chooser.now.choice.now) rows.items) }
    ensures few { IfOk result (λ rows. length rows.items ≤ most_processes) }
    ensures small { IfOk result (λ rows. (p : ℕ) → length (get_or rows.items p []) < 2 ^ 32) }
{
    let shape = order.shape();
    let mut rows = opened(alloc, shape.procs())?;
    let mut cut = Cut::new(alloc, shape.procs())?;
    'events: while !cut.is_final(shape) {
        take_each(order, chooser, &mut cut, &mut rows)?;
    }
    Ok(rows)
}

// For each number of events of a process, the position of the last one that has another column than
// the one before it.
fn latest_in(alloc: Global, rows: &[List<u32>], process: u32) -> Result<List<u32>, NoMemory>
    requires process { process < length rows.now }
    requires small { (p : ℕ) → length (get_or rows.now p []) < 2 ^ 32 }
    ensures { IfOk result (λ latest. latest ≡ latest_of rows.now process) }
{
    let mut latest = List::new(alloc);
    let mut last = 0u32;
    for events in 0..rows[process as usize].len() as u32 {
        let before = number_at(rows, process, events.saturating_sub(1));
        if before < number_at(rows, process, events) {
            last = events;
        }
        latest.push(last)?;
    }
    Ok(latest)
}

// The same of each process.
fn latest_of(alloc: Global, rows: &[List<u32>]) -> Result<Vec<List<u32>>, NoMemory>
    requires few { length rows.now ≤ most_processes }
    requires small { (p : ℕ) → length (get_or rows.now p []) < 2 ^ 32 }
    ensures { IfOk result (λ latest. AreLatest rows.now latest.items) }
{
    let mut latest = Vec::new(alloc);
    for process in 0..rows.len() as u32 {
        latest.push(latest_in(alloc, rows, process)?)?;
    }
    Ok(latest)
}

/// The columns of the events of a run that are shown. It goes over the events, and for each of them
/// over the processes.
pub fn columns_of(alloc: Global, order: &Order, chooser: &Chooser<'_>) -> Result<Columns, NoMemory>
    requires { order.now ≡ clocks_of chooser.now.states.now.events }
    ensures { IfOk result (AreColumns order.now
        (wants chooser.now.states.now chooser.now.tokens.now chooser.now.choice.now)) }
{
    let rows = rows_of(alloc, order, chooser)?;
    let latest = latest_of(alloc, rows.as_slice())?;
    Ok(Columns { rows, latest })
}

// The last number of a row.
fn last_of(row: &List<u32>) -> u32
    ensures { result ≡ get_or row.now (length row.now - 1) 0 }
{
    let columns = row.as_slice();
    if columns.is_empty() {
        return 0;
    }
    columns[columns.len() - 1]
}

fn has_shown(row: &List<u32>) -> bool
    ensures { result ≡ has_shown row.now }
{
    last_of(row) > 0
}

// How many of the rows have a shown event.
fn count_shown(rows: &[List<u32>]) -> usize
    ensures { result ≡ count_by has_shown rows.now }
{
    rows.iter().filter(|row| has_shown(row)).count()
}

impl Columns {
    /// The column of the last of so many events of a process, and 0 before the first.
    pub fn at(&self, process: u32, events: u32) -> u32
        ensures { result ≡ column self.now process events }
    {
        number_at(self.rows.as_slice(), process, events)
    }

    /// The greatest column.
    pub fn most(&self) -> u32
        ensures { result ≡ most self.now }
    {
        let rows = self.rows.as_slice();
        let mut most = 0u32;
        for row in rows {
            most = most.max(last_of(row));
        }
        most
    }

    /// Whether the event is shown.
    pub fn is_shown(&self, event: EventId) -> bool
        ensures { result ≡ is_shown self.now event }
    {
        self.at(event.process, event.position.saturating_sub(1))
            < self.at(event.process, event.position)
    }

    /// The position of the last shown one of so many events of a process, and 0 where none is.
    pub fn last_shown(&self, process: u32, events: u32) -> u32
        requires { events < length (get_or self.now process []) }
        ensures { result ≡ last_shown self.now process events }
    {
        number_at(self.latest.as_slice(), process, events)
    }

    /// How many of the events of a process behind that one are among the first so many.
    pub fn left_out(&self, process: u32, events: u32) -> u32
        requires { events < length (get_or self.now process []) }
        ensures { result ≡ events - last_shown self.now process events }
    {
        events.saturating_sub(self.last_shown(process, events))
    }

    /// Whether the process has a shown event.
    pub fn has_shown(&self, process: u32) -> bool
        ensures { result ≡ has_shown (get_or self.now process []) }
    {
        match self.rows.as_slice().get(process as usize) {
            Some(row) => has_shown(row),
            None => false,
        }
    }

    /// How many of the processes before this one have a shown event.
    pub fn rank(&self, process: u32) -> u32
        ensures rank { result ≡ rank self.now process }
        ensures few { result ≤ process }
    {
        let rows = self.rows.as_slice();
        let before = &rows[..rows.len().min(process as usize)];
        before.iter().filter(|row| has_shown(row)).count() as u32
    }

    /// How many processes have a shown event.
    pub fn count(&self) -> u64
        ensures count { result ≡ count_by has_shown self.now }
        ensures few { result ≤ most_processes }
    {
        count_shown(self.rows.as_slice()) as u64
    }

    /// How many processes have none.
    pub fn without(&self) -> u64
        ensures { result ≡ length self.now - count_by has_shown self.now }
    {
        (self.rows.len() as u64).saturating_sub(self.count())
    }
}
