//! Numbers that flow through a graph, the greatest first.
ghost use Rattle.std.specs.Prelude.{◌≡◌, ◌<◌, [], length, replicate, IfOk, OnOk};
ghost use Rattle.std.specs.List.{All, Contains};
ghost use Rattle.std.specs.List.Sorted.{IsNonDecreasingBy};
ghost use Rattle.greatest_reach.specs.Back.{IsGreatest};
ghost use Rattle.greatest_reach.specs.Graph.{IsGraph, StartsIn, Reads, Starts, AreGreatest};
ghost use Rattle.greatest_reach.specs.inside.Flow.{AreMarked, IsUnderway, IsGrown};

use pota_base::{List, NoMemory};
use std::alloc::Global;

/// A number, and the node at which it starts.
#[derive(Clone, Copy, Debug)]
pub struct Start {
    pub value: u32,
    pub node: u32,
}

// Gives the number to those of the nodes that have none yet, and puts these on the stack.
fn mark_all(
    nodes: &[u32],
    value: u32,
    values: &mut [u32],
    stack: &mut Vec<u32>,
) -> Result<(), NoMemory>
    requires some { 0 < value }
    requires there { All (λ node. node < length values.old) nodes.now }
    ensures { OnOk result
        (AreMarked nodes.now value values.old values.new stack.old.items stack.new.items) }
{
    for &node in nodes {
        if values[node as usize] == 0 {
            values[node as usize] = value;
            stack.push(node)?;
        }
    }
    Ok(())
}

// Gives the number to all that the nodes on the stack lead to and that has none yet.
fn spread(
    readers: &[List<u32>],
    value: u32,
    values: &mut [u32],
    stack: &mut Vec<u32>,
) -> Result<(), NoMemory>
    requires graph { IsGraph readers.now }
    requires some { 0 < value }
    requires underway { IsUnderway readers.now value values.old stack.old.items }
    ensures underway { OnOk result (IsUnderway readers.now value values.new stack.new.items) }
    ensures empty { OnOk result (stack.new.items ≡ []) }
    ensures grown { OnOk result (IsGrown readers.now value values.old values.new) }
{
    while let Some(node) = stack.pop() {
        mark_all(readers[node as usize].as_slice(), value, values, stack)?;
    }
    Ok(())
}

// Lets each number flow, the last one first.
fn flow(
    alloc: Global,
    readers: &[List<u32>],
    starts: &[Start],
    values: &mut [u32],
) -> Result<(), NoMemory>
    requires graph { IsGraph readers.now }
    requires there { StartsIn (length readers.now) starts.now }
    requires rising { IsNonDecreasingBy (λ s. s.value) starts.now }
    requires none { values.old ≡ replicate (length readers.now) 0 }
    ensures { OnOk result (AreGreatest readers.now starts.now values.new) }
{
    let mut stack = Vec::new(alloc);
    for i in (0..starts.len()).rev() {
        let start = starts[i];
        if start.value > 0 {
            mark_all(&[start.node], start.value, values, &mut stack)?;
            spread(readers, start.value, values, &mut stack)?;
        }
    }
    Ok(())
}

/// The greatest of 0 and the numbers that reach each node, where `readers` has for each node those
/// to which its numbers flow, and the numbers start as `starts` says. A node or an edge that is
/// named several times counts once.
///
/// It sorts the starts, and then looks at each node and at each edge once.
pub fn greatest(
    alloc: Global,
    readers: &[List<u32>],
    starts: Vec<Start>,
) -> Result<Vec<u32>, NoMemory>
    requires graph { IsGraph readers.now }
    requires there { StartsIn (length readers.now) starts.items }
    ensures { IfOk result (λ values. AreGreatest readers.now starts.items values.items) }
{
    let mut starts = starts;
    starts.sort_by_key(|start| start.value)?;
    let mut values = vec![in alloc; 0; readers.len()]?;
    flow(alloc, readers, &starts, &mut values)?;
    Ok(values)
}
