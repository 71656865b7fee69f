//! What of a report is drawn.
ghost use Rattle.std.specs.Prelude.{◌≡◌, ◌++◌, OnOk, IfOk};
ghost use Rattle.std.specs.List.{flat_map};
ghost use Rattle.std.specs.Option.{option_copied};
ghost use Rattle.view_picture.specs.Told.{top_of, edges_of, is_drawn, first_drawn, goal_of};
ghost use Rattle.view_picture.specs.Told.{pair_of, ends_of, named_in};

use cut_lattice::Cut;
use pota_base::{EventId, List, NoMemory};
use report::{Report, SliceText, WitnessText};
use slice_graph::Edge;
use std::alloc::Global;
use witness_kinds::Witness;

/// The most edges that are drawn.
pub const MOST_EDGES: usize = 40;

/// The greatest cut of the slice, where it has one.
pub fn top_of(slice: &Option<SliceText>) -> Option<&Cut>
    ensures { option_copied result ≡ top_of slice.now }
{
    match slice {
        Some(
            SliceText {
                bounds: Some((_, high)),
                ..
            },
        ) => Some(high),
        _ => None,
    }
}

pub fn edges_of(slice: &Option<SliceText>) -> &[Edge]
    ensures { result.now ≡ edges_of slice.now }
{
    match slice {
        None => &[],
        Some(slice) => slice.edges.as_slice(),
    }
}

// Whether there is something to draw of a witness.
fn is_drawn(witness: &Witness) -> bool
    ensures { result ≡ is_drawn witness.now }
{
    match witness {
        Witness::Reach(_) => true,
        Witness::Against(_) => true,
        Witness::Always(_) => true,
        Witness::StuckPair(_, _) => true,
        Witness::Nothing => false,
        Witness::StuckStart => false,
        Witness::StuckFinish => false,
    }
}

/// The first witness of which something is drawn.
pub fn first_drawn(witnesses: &[WitnessText]) -> Option<&WitnessText>
    ensures { option_copied result ≡ first_drawn witnesses.now }
{
    witnesses.iter().find(|witness| is_drawn(&witness.witness))
}

/// The goal of the witness that is drawn, if it has one.
pub fn goal_of(drawn: Option<&WitnessText>) -> Option<&Cut>
    ensures { option_copied result ≡ goal_of (option_copied drawn.entry) }
{
    match drawn {
        None => None,
        Some(drawn) => match &drawn.witness {
            Witness::Reach(path) => Some(&path.goal),
            Witness::Against(path) => Some(&path.goal),
            Witness::Always(path) => Some(&path.goal),
            _ => None,
        },
    }
}

// The events of the pair that is drawn.
fn put_pair(named: &mut List<EventId>, drawn: Option<&WitnessText>) -> Result<(), NoMemory>
    ensures { OnOk result (named.new ≡ named.old ++ pair_of (option_copied drawn.entry)) }
{
    match drawn {
        None => Ok(()),
        Some(drawn) => match &drawn.witness {
            Witness::StuckPair(first, other) => {
                named.push(*first)?;
                named.push(*other)
            }
            _ => Ok(()),
        },
    }
}

// The ends of edges.
fn put_ends(named: &mut List<EventId>, edges: &[Edge]) -> Result<(), NoMemory>
    ensures { OnOk result (named.new ≡ named.old ++ flat_map ends_of edges.now) }
{
    for edge in edges {
        named.push(edge.cause)?;
        named.push(edge.effect)?;
    }
    Ok(())
}

/// The events that the drawn pair and the drawn edges name.
pub fn named_in(alloc: Global, report: &Report) -> Result<List<EventId>, NoMemory>
    ensures { IfOk result (λ named. named ≡ named_in report.now) }
{
    let edges = edges_of(&report.slice);
    let mut named = List::new(alloc);
    put_pair(&mut named, first_drawn(report.witnesses.as_slice()))?;
    put_ends(&mut named, &edges[..MOST_EDGES.min(edges.len())])?;
    Ok(named)
}
