//! The edges of a slice.
ghost use Rattle.std.specs.Prelude.{◌≡◌, ℕ, ◌+◌, ◌≤◌, ◌↔◌, ◌&&◌, [], ◌∷◌, ◌++◌, Some, None, length};
ghost use Rattle.std.specs.Prelude.{map, flat_map, nat_lt, if◌then◌else◌, IfOk, OnOk};
ghost use Rattle.std.specs.List.{range_with_len};
ghost use Rattle.pota_base.specs.Shape.{HasEvent};
ghost use Rattle.run_model.specs.Cut.{Cut, count};
ghost use Rattle.run_model.specs.Consistent.{clock};
ghost use Rattle.run_model.specs.Sublattice.{IsGreatest};
ghost use Rattle.run_model.specs.Slice.{Cuts, Denoted, IsPrintedAs, cut_of, edge_into, edges_of};
ghost use Rattle.pota_base.specs.Limits.{most_processes};
ghost use Rattle.slice_graph.specs.Views.{slice_of, joined_rows};
ghost use Rattle.slice_graph.specs.Fitting.{FitsOrder};
ghost use Rattle.slice_graph.specs.Edges.{edge_of};
ghost use Rattle.slice_graph.specs.inside.Edges.{edge_by};

use crate::slice::Slice;
use causal_order::Order;
use pota_base::{EventId, List, NoMemory};
use std::alloc::Global;

/// Says that each cut with the effect has the cause too.
#[derive(Clone, Copy, Debug, PartialEq, Eq)]
pub struct Edge {
    pub cause: EventId,
    pub effect: EventId,
}

impl Slice {
    /// The edges of the slice: from the last event of each process that an event's row has and
    /// neither the row before nor the event's own past has, to the event. They stand by their
    /// effects in row order, and then by their causes.
    pub fn edges(&self, alloc: Global, order: &Order) -> Result<List<Edge>, NoMemory>
        requires { FitsOrder order.now self.now }
        ensures none { (slice_of self.now).bottom ≡ None → IfOk result (λ edges. edges ≡ []) }
        ensures listed { (low : Cut) → (slice_of self.now).bottom ≡ Some low
            → IfOk result (λ edges. map edge_of edges
            ≡ edges_of order.now (slice_of self.now) (joined_rows self.now)) }
        ensures denoted { (low : Cut) → (slice_of self.now).bottom ≡ Some low
            → IfOk result (λ edges. (c : Cut) → Cuts order.now (slice_of self.now) c
            ↔ Denoted order.now low (joined_rows self.now) (map edge_of edges) c) }
        ensures printed { (low : Cut) → (slice_of self.now).bottom ≡ Some low
            → IfOk result (λ edges. IsPrintedAs order.now (Cuts order.now (slice_of self.now)) low
            (joined_rows self.now) (map edge_of edges)) }
    {
        // By its clause the clocks are those of an order.
        let _shape = order.shape();
        match self.top() {
            Some(top) => edges_within(alloc, self, order, top),
            None => Ok(List::new(alloc)),
        }
    }
}

/// The edges into the events of the greatest cut.
fn edges_within(
    alloc: Global,
    slice: &Slice,
    order: &Order,
    top: &[u32],
) -> Result<List<Edge>, NoMemory>
    requires fits { FitsOrder order.now slice.now }
    requires top { IsGreatest (Cuts order.now (slice_of slice.now)) top.now }
    ensures { IfOk result (λ edges. map edge_of edges
        ≡ edges_of order.now (slice_of slice.now) top.now) }
{
    let mut edges = List::new(alloc);
    for process in 0..slice.shape().procs() {
        push_edges_into(slice, order, process, top, &mut edges)?;
    }
    Ok(edges)
}

/// Appends the edges into the events of one process.
fn push_edges_into(
    slice: &Slice,
    order: &Order,
    process: u32,
    top: &[u32],
    edges: &mut List<Edge>,
) -> Result<(), NoMemory>
    requires fits { FitsOrder order.now slice.now }
    requires top { Cuts order.now (slice_of slice.now) top.now }
    requires process { process + 1 ≤ length top.now }
    ensures { OnOk result (map edge_of edges.new ≡ map edge_of edges.old
        ++ flat_map (λ a. flat_map (edge_into order.now (slice_of slice.now) process a)
        (range_with_len 0 (length (cut_of ((slice_of slice.now).row process a)))))
        (range_with_len 1 (count top.now process))) }
{
    // By its clause the slice has all its rows.
    let _shape = slice.shape();
    for position in 1..top[process as usize] + 1 {
        let event = EventId { process, position };
        let row = slice.words(process, position);
        let before = slice.words(process, position - 1);
        push_edges_of(event, row, before, order.clock(event), edges)?;
    }
    Ok(())
}

/// Appends the edges into an event, by its row, the row before and its past.
fn push_edges_of(
    event: EventId,
    row: &[u32],
    before: &[u32],
    past: &[u32],
    edges: &mut List<Edge>,
) -> Result<(), NoMemory>
    requires few { length row.now ≤ most_processes }
    requires before { length before.now ≡ length row.now }
    requires past { length past.now ≡ length row.now }
    ensures { OnOk result (map edge_of edges.new ≡ map edge_of edges.old
        ++ flat_map (edge_by row.now before.now past.now event.process event.position)
        (range_with_len 0 (length row.now))) }
{
    for process in 0..row.len() {
        let cause = EventId {
            process: process as u32,
            position: row[process],
        };
        push_edge(cause, event, before[process], past[process], edges)?;
    }
    Ok(())
}

/// Appends the edge where the cause is behind both of these numbers of events of its process.
fn push_edge(
    cause: EventId,
    effect: EventId,
    before: u32,
    past: u32,
    edges: &mut List<Edge>,
) -> Result<(), NoMemory>
    ensures { OnOk result (map edge_of edges.new ≡ map edge_of edges.old
        ++ (if nat_lt before cause.position && nat_lt past cause.position
        then edge_of (record { cause = cause; effect = effect }) ∷ [] else [])) }
{
    if cause.position > before && cause.position > past {
        edges.push(Edge { cause, effect })?;
    }
    Ok(())
}
