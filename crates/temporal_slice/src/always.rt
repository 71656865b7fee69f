//! AG: the consistent cuts that hold the least one at which the rows say so.
ghost use Rattle.std.specs.Prelude.{◌≡◌, ◌≤◌, ◌<◌, ◌↔◌, max, nat_lt, if◌then◌else◌, length, IfOk};
ghost use Rattle.run_model.specs.Cut.{Cut as CutOfRun, count, IsWithin, max_cut, lengths};
ghost use Rattle.run_model.specs.Consistent.{IsConsistent, clock};
ghost use Rattle.run_model.specs.Sublattice.{IsSublattice, IsLeast};
ghost use Rattle.run_model.specs.Slice.{Cuts, StandsFor};
ghost use Rattle.run_model.specs.Operators.{AgHolds, AgHoldsByRows};
ghost use Rattle.slice_graph.specs.Views.{IsCut, slice_of};
ghost use Rattle.slice_graph.specs.Fitting.{FitsOrder};

use crate::cuts::{before_all, event_behind, join_into};
use crate::raised::cuts_from;
use cut_lattice::Cut;
use pota_base::{EventId, MOST_PROCESSES, NoMemory};
use slice_graph::{Order, Slice, set_words};
use std::alloc::Global;

/// The slice of the consistent cuts from which each cut of every path is a cut of the child.
pub fn ag(alloc: Global, order: &Order, child: &Slice) -> Result<Slice, NoMemory>
    requires { FitsOrder order.now child.now }
    ensures stands { IfOk result (λ slice. StandsFor order.now (slice_of slice)
        (λ c. IsConsistent order.now c
        × AgHolds order.now (Cuts order.now (slice_of child.now)) c)) }
    ensures fits { IfOk result (λ slice. FitsOrder order.now slice) }
    ensures closed { IsSublattice order.now (λ c. IsConsistent order.now c
        × AgHolds order.now (Cuts order.now (slice_of child.now)) c) }
    ensures cuts { IfOk result (λ slice. (c : CutOfRun) → IsConsistent order.now c
        → Cuts order.now (slice_of slice) c
        ↔ AgHolds order.now (Cuts order.now (slice_of child.now)) c) }
{
    let shape = order.shape();
    if !child.has_final() {
        return Slice::empty(alloc, shape);
    }
    let asked = asked_of_all(alloc, order, child)?;
    let bottom = least_consistent(alloc, order, &asked)?;
    cuts_from(alloc, order, None, &bottom)
}

/// The least cut that holds the child's bottom and, for each event, what the event's row has beyond
/// the event's past.
fn asked_of_all(alloc: Global, order: &Order, child: &Slice) -> Result<Cut, NoMemory>
    requires fits { FitsOrder order.now child.now }
    requires last { Cuts order.now (slice_of child.now) (lengths order.now) }
    ensures within { IfOk result (IsCut (lengths order.now)) }
    ensures asked { IfOk result (λ asked. (c : CutOfRun) → IsCut (lengths order.now) c
        → IsWithin asked c ↔ AgHoldsByRows order.now (slice_of child.now) c) }
{
    let shape = order.shape();
    let procs = child.shape().procs();
    let mut room = [0; MOST_PROCESSES];
    let room = &mut room[..procs as usize];
    room.copy_from_slice(child.words(0, 0));
    let mut before = before_all();
    for row in 1..shape.events() + 1 {
        let event = event_behind(shape, before, row);
        let words = child.words(event.process, event.position);
        raise_beyond(words, order.clock(event), room);
        before = event;
    }
    let mut asked = Cut::new(alloc, procs)?;
    set_words(room, &mut asked);
    Ok(asked)
}

/// Raises the counts so far that they have each event of the words that isn't in the past.
fn raise_beyond(words: &[u32], past: &[u32], into: &mut [u32])
    requires past { length past.now ≡ length words.now }
    requires width { length into.old ≡ length words.now }
    ensures width { length into.new ≡ length into.old }
    ensures raised { (c : CutOfRun) → IsWithin into.new c
        ↔ (IsWithin into.old c × IsWithin words.now (max_cut c past.now)) }
{
    for process in 0..words.len() {
        into[process] = beyond(words[process], past[process], into[process]);
    }
}

/// The greater of a word and a count, where the word is above the past.
fn beyond(word: u32, past: u32, count: u32) -> u32
    ensures { result ≡ (if nat_lt past word then max word count else count) }
{
    if past < word { word.max(count) } else { count }
}

/// The least consistent cut that holds a cut.
fn least_consistent(alloc: Global, order: &Order, cut: &Cut) -> Result<Cut, NoMemory>
    requires { IsCut (lengths order.now) cut.now }
    ensures { IfOk result (IsLeast (λ c. IsConsistent order.now c × IsWithin cut.now c)) }
{
    let shape = order.shape();
    let mut least = Cut::new(alloc, shape.procs())?;
    for process in 0..shape.procs() {
        join_past(order, process, cut.get(process), &mut least);
    }
    Ok(least)
}

/// Makes `into` its maximum with the past of the last of the first events of a process.
fn join_past(order: &Order, process: u32, position: u32, into: &mut Cut)
    requires process { process < length order.now }
    requires position { position ≤ count (lengths order.now) process }
    requires width { length into.old ≡ length order.now }
    ensures none { position ≡ 0 → into.new ≡ into.old }
    ensures past { 0 < position → into.new ≡ max_cut (clock order.now process position) into.old }
{
    // By its clause the clocks are those of an order.
    let _shape = order.shape();
    if position > 0 {
        join_into(order.clock(EventId { process, position }), into);
    }
}
