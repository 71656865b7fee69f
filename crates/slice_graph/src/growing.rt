//! The system of the order's pulls, made longer with the order.
ghost use Rattle.std.specs.Prelude.{◌≡◌, ℕ, ◌<◌, ◌≤◌, length, slice_index, IfOk};
ghost use Rattle.run_model.specs.Cut.{count, lengths};
ghost use Rattle.slice_graph.specs.Growing.{IsEarlierSystem, system_of_order};
ghost use Rattle.slice_graph.specs.inside.Growing.{AreAllBehind, AreRowsBehind};

use crate::order_pulls_of::past;
use causal_order::Order;
use pota_base::{List, MOST_PROCESSES, NoMemory};
use pull_fans::System;
use std::alloc::Global;

/// The system of the order's pulls, from that of an order that has grown to this one. Of each
/// process only what the order asks behind its events of then is made.
pub fn grown_order_system(alloc: Global, order: &Order, system: System) -> Result<System, NoMemory>
    requires { IsEarlierSystem order.now system }
    ensures { IfOk result (λ system. system ≡ system_of_order order.now) }
{
    let more = all_behind(alloc, order, system.shape().lens())?;
    system.grown(alloc, order.shape(), more.as_slice())
}

/// For each process what the order asks behind the first events, of which there are so many.
fn all_behind(alloc: Global, order: &Order, firsts: &[u32]) -> Result<List<List<u32>>, NoMemory>
    requires count { length firsts.now ≡ length order.now }
    requires few { (i : ℕ) → slice_index firsts.now i ≤ count (lengths order.now) i }
    ensures { IfOk result (AreAllBehind order.now firsts.now) }
{
    let mut more = List::with_capacity(alloc, firsts.len())?;
    for source in 0..order.shape().procs() {
        more.push(rows_behind(alloc, order, source, firsts[source as usize])?)?;
    }
    Ok(more)
}

/// What the order asks where the source has more events than the first so many: what the pasts of
/// its next events have, and behind the last one the same once more.
fn rows_behind(alloc: Global, order: &Order, source: u32, first: u32) -> Result<List<u32>, NoMemory>
    requires source { source < length order.now }
    requires first { first ≤ count (lengths order.now) source }
    ensures { IfOk result (AreRowsBehind order.now source first) }
{
    let shape = order.shape();
    let procs = shape.procs() as usize;
    let len = shape.len_of(source);
    let zeros = [0; MOST_PROCESSES];
    let none = &zeros[..procs];
    let mut rows = Vec::with_capacity(alloc, (len - first + 1) as usize * procs)?;
    for position in first + 1..len + 2 {
        rows.extend_from_slice(past(order, source, position.min(len), none))?;
    }
    Ok(List::from_vec(rows))
}
