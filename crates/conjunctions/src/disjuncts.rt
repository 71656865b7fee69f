//! The answer of a formula: its disjuncts one after the other.
ghost use Rattle.std.specs.Prelude.{◌≡◌, length, IfOk, IfSome, OnOk};
ghost use Rattle.slice_workers.specs.Spent.{spent_of};
ghost use Rattle.graft.specs.Joined.{joined_views};
ghost use Rattle.rctl_parts.specs.Pieces.{disjuncts_of};
ghost use Rattle.part_pulls.specs.Observing.{IsReady};
ghost use Rattle.part_pulls.specs.Counters.{CountersRise};
ghost use Rattle.conjunctions.specs.Numbering.{all_conjunctions};
ghost use Rattle.conjunctions.specs.Settling.{CanAnswer, CanSettle, Settles};
ghost use Rattle.conjunctions.specs.Answering.{IsAnswer};
ghost use Rattle.conjunctions.specs.inside.Joining.{so_far};

use crate::answer::Answer;
use crate::conjunction::settle_conjunction;
use crate::kinds::sharers_in;
use crate::means::Means;
use crate::round::Round;
use graft::join_slices;
use part_pulls::{Observed, has_initial};
use pota_base::{Gate, List, NoMemory, Shape, Steps};
use rctl_parts::Part;
use slice_graph::Slice;
use std::alloc::Global;
use std::sync::ledger::Ledger;
use std::thread::Threads;

/// Joins the slice of a disjunct to that of those before it, where there are any.
fn join_disjunct(alloc: Global, before: Option<Slice>, one: Slice) -> Result<Slice, NoMemory>
    requires { IfSome before (λ slice. slice.lens ≡ one.lens) }
    ensures { IfOk result (λ joined. joined ≡ joined_views (so_far one.lens before) one) }
{
    // By its clause the slice has all its rows.
    let _shape = one.shape();
    match before {
        Some(before) => join_slices(alloc, &before, &one),
        None => Ok(one),
    }
}

/// What was joined, and the slice of no cut where nothing was.
fn joined_slice(alloc: Global, shape: &Shape, joined: Option<Slice>) -> Result<Slice, NoMemory>
    ensures { IfOk result (λ slice. slice ≡ so_far shape.now joined) }
{
    match joined {
        Some(slice) => Ok(slice),
        None => Slice::empty(alloc, shape),
    }
}

/// How many conjunctions of the disjuncts begin with the order's pulls.
fn sharers_of_all(disjuncts: &[List<Part>]) -> u32 {
    let mut sharers: u32 = 0;
    for disjunct in disjuncts {
        sharers = sharers.saturating_add(sharers_in(disjunct.as_slice()));
    }
    sharers
}

/// The answer of the formula that these disjuncts are, on what was observed. Each conjunction is
/// settled once, from its rows of before where none of its parts is temporal, by 1 to 16 workers;
/// it may wait for the threads that it joins.
///
/// The truth is that of the disjuncts, each by its own slice: the joined slice may have the initial
/// cut where no disjunct does.
pub fn answer_all<R: Threads + Sync, G: Gate, L: Ledger>(
    means: &Means<R, G>,
    seen: &Observed,
    disjuncts: &[List<Part>],
    round: &mut Round,
    steps: &mut Steps<L>,
) -> Result<Answer, NoMemory>
    requires ready { IsReady seen.now }
    requires made { CanAnswer seen.now (disjuncts_of disjuncts.now) }
    requires counters { CountersRise seen.now (disjuncts_of disjuncts.now) }
    requires begins { CanSettle seen.now round.old (all_conjunctions (disjuncts_of disjuncts.now)) }
    ensures answer { IfOk result (IsAnswer seen.now (disjuncts_of disjuncts.now)) }
    ensures settles { OnOk result (Settles seen.now means.now.workers round.old round.new
        (spent_of steps.old steps.new) (all_conjunctions (disjuncts_of disjuncts.now))) }
{
    let alloc = means.alloc;
    let shape = seen.trace.order().shape();
    round.begin(sharers_of_all(disjuncts));
    let mut parts = List::new(alloc);
    let mut truth = false;
    let mut joined = None;
    'disjuncts: for (index, disjunct) in disjuncts.iter().enumerate() {
        let number = index as u32 + 1;
        let disjunct = disjunct.as_slice();
        let one = settle_conjunction(means, seen, disjunct, number, round, &mut parts, steps)?;
        truth |= has_initial(alloc, &one)?;
        let more = join_disjunct(alloc, joined, one)?;
        joined = Some(more);
    }
    let slice = joined_slice(alloc, shape, joined)?;
    Ok(Answer {
        batch: seen.trace.batches(),
        truth,
        slice,
        parts,
    })
}
