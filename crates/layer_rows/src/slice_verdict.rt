//! Whether a case's slice is as it must be.
ghost use Rattle.std.specs.Prelude.{◌≡◌, IsTrue, length};
ghost use Rattle.slice_graph.specs.Views.{IsCut};
ghost use Rattle.slice_graph.specs.Fitting.{FitsOrder};

use crate::slice_case::{Case, Wanted, Why};
use crate::slice_making::slice_of_parts;
use crate::slice_running::clocks_of;
use crate::slice_telling::told;
use causal_order::Order;
use cut_lattice::Cut;
use pota_base::{NoMemory, Steps};
use slice_graph::{Slice, is_within, set_words};
use std::alloc::{AllocError, Global};
use std::sync::ledger::Ledger;
use witness::explain;

/// What is told of a case.
#[derive(Clone, Copy)]
enum Finding {
    Good,
    Unread,
    NoRun,
    NoSlice,
    WrongBounds,
    WrongEdges,
    WrongCuts,
    WrongWitness,
}

impl Finding {
    // What is otherwise than it must be, if anything is.
    fn difference(self) -> Option<&'static str> {
        match self {
            Finding::Good => None,
            Finding::Unread => Some("a line that cannot be read"),
            Finding::NoRun => Some("the events are not those of a run"),
            Finding::NoSlice => Some("a pull is not one of the run"),
            Finding::WrongBounds => Some("another least or greatest cut"),
            Finding::WrongEdges => Some("other edges"),
            Finding::WrongCuts => Some("other cuts"),
            Finding::WrongWitness => Some("another witness"),
        }
    }
}

// Whether the bound is the one that is wanted, or none is there and none is wanted.
fn is_wanted(bound: Option<&[u32]>, wanted: &Option<Vec<u32>>) -> bool {
    match (bound, wanted) {
        (Some(cut), Some(numbers)) => cut == numbers.as_slice(),
        (None, None) => true,
        (Some(_), None) | (None, Some(_)) => false,
    }
}

fn has_bounds(slice: &Slice, wanted: &Wanted) -> bool {
    slice.is_empty() == wanted.empty
        && is_wanted(slice.bottom(), &wanted.bottom)
        && is_wanted(slice.top(), &wanted.top)
}

// Whether the slice's answer at each of the cuts is this one. Counts that are no cut of the run
// have none.
fn answers(
    alloc: Global,
    slice: &Slice,
    cuts: &[Vec<u32>],
    answer: bool,
) -> Result<bool, NoMemory> {
    for counts in cuts {
        if at_cut(alloc, slice, counts)? != Some(answer) {
            return Ok(false);
        }
    }
    Ok(true)
}

// Whether the slice has a cut, where the counts are those of one.
fn at_cut(alloc: Global, slice: &Slice, counts: &[u32]) -> Result<Option<bool>, NoMemory> {
    let shape = slice.shape();
    if counts.len() != shape.procs() as usize || !is_within(counts, shape.lens()) {
        return Ok(None);
    }
    let mut cut = Cut::new(alloc, shape.procs())?;
    set_words(counts, &mut cut);
    Ok(Some(slice.has(&cut)))
}

// Whether each operator has the witness that is wanted.
fn has_witnesses(
    alloc: Global,
    order: &Order,
    slice: &Slice,
    whys: &[Why],
) -> Result<bool, NoMemory>
    requires { FitsOrder order.now slice.now }
{
    for why in whys {
        let witness = explain(alloc, order, why.operator, slice)?;
        if told(alloc, &witness)?.as_str() != why.told.as_str() {
            return Ok(false);
        }
    }
    Ok(true)
}

fn judge_slice(
    alloc: Global,
    order: &Order,
    slice: &Slice,
    wanted: &Wanted,
) -> Result<Finding, NoMemory>
    requires { FitsOrder order.now slice.now }
{
    if !has_bounds(slice, wanted) {
        return Ok(Finding::WrongBounds);
    }
    let edges = slice.edges(alloc, order)?;
    if edges.as_slice() != wanted.edges.as_slice() {
        return Ok(Finding::WrongEdges);
    }
    if !answers(alloc, slice, &wanted.has, true)? || !answers(alloc, slice, &wanted.lacks, false)? {
        return Ok(Finding::WrongCuts);
    }
    if !has_witnesses(alloc, order, slice, &wanted.whys)? {
        return Ok(Finding::WrongWitness);
    }
    Ok(Finding::Good)
}

fn found<L: Ledger>(alloc: Global, case: &Case, steps: &mut Steps<L>) -> Result<Finding, NoMemory> {
    if case.unread.is_some() {
        return Ok(Finding::Unread);
    }
    let Some(clocks) = clocks_of(alloc, case.procs, case.events.as_slice())? else {
        return Ok(Finding::NoRun);
    };
    let order = clocks.order();
    match slice_of_parts(alloc, order, &case.parts, steps)? {
        Some(slice) => judge_slice(alloc, order, &slice, &case.wanted),
        None => Ok(Finding::NoSlice),
    }
}

/// What of the case came out otherwise than it must, if anything did.
pub fn difference<L: Ledger>(
    alloc: Global,
    case: &Case,
    steps: &mut Steps<L>,
) -> Result<Option<&'static str>, AllocError> {
    match found(alloc, case, steps) {
        Ok(finding) => Ok(finding.difference()),
        Err(_) => Err(AllocError),
    }
}
