//! Where the rows of a conjunction begin, and which of them are final there.
ghost use Rattle.std.specs.Prelude.{◌≡◌, ℕ, ◌+◌, ◌<◌, ◌≤◌, ◌↔◌, true, false, length, sum, take};
ghost use Rattle.std.specs.Prelude.{slice_index, IsTrue, IfOk, IfSome, None};
ghost use Rattle.run_model.specs.Cut.{lengths};
ghost use Rattle.pull_system.specs.Vector.{IsAtMost};
ghost use Rattle.pull_system.specs.Rows.{row_at, starts};
ghost use Rattle.slice_workers.specs.Spent.{spent_of};
ghost use Rattle.slice_graph.specs.Starting.{AreWithinClosed};
ghost use Rattle.conjunctions.specs.inside.Beginning.{AreNone, HaveCuts};
ghost use Rattle.conjunctions.specs.inside.Beginning.{BeginsWithOrder, AtomsBegin, OthersBegin};
ghost use Rattle.conjunctions.specs.inside.Beginning.{FindsBottom};
ghost use Rattle.conjunctions.specs.inside.Settling.{IsFloorOf};

use bound_table::widened;
use causal_order::Order;
use least_cut::least;
use pota_base::{EventId, MOST_PROCESSES, NoMemory, Steps};
use pull_fans::System;
use pull_system::{Floor, Rows};
use slice_graph::order_rows_above;
use std::alloc::Global;
use std::sync::ledger::Ledger;

/// The rows from which a conjunction begins, and which of them are final, since they are the least
/// already: so many first ones of each process, and the bottom's or not.
#[derive(Drop)]
pub struct Beginning {
    pub floor: Floor,
    pub finals: [u32; MOST_PROCESSES],
    pub bottom: bool,
}

/// Where a conjunction of atoms begins: at its rows of before, grown, of which those with a cut are
/// final, and where there are none anew.
fn beginning_of_atoms<L: Ledger>(
    alloc: Global,
    order: &Order,
    system: &System,
    before: Option<Rows>,
    steps: &mut Steps<L>,
) -> Result<Beginning, NoMemory>
    requires before { IsFloorOf (lengths order.now) true before }
    requires system { system.now.lens ≡ lengths order.now }
    requires order { BeginsWithOrder order.now system.now.pulls }
    ensures lens { IfOk result (λ begins. begins.floor.lens ≡ lengths order.now) }
    ensures atoms { IfOk result (λ begins. AtomsBegin (lengths order.now) system.now.pulls before
        begins.floor.words begins.finals) }
    ensures bottom { IfOk result (λ begins. FindsBottom system.now true before begins.bottom
        begins.floor.words (spent_of steps.old steps.new)) }
{
    match before {
        Some(kept) => {
            let finals = rows_with_cuts(&kept);
            let rows = Rows::grown(alloc, &kept, order.shape())?;
            drop(kept);
            let floor = widened(alloc, &rows)?;
            let bottom = false;
            Ok(Beginning {
                floor,
                finals,
                bottom,
            })
        }
        None => beginning_anew(alloc, order, system, steps),
    }
}

/// Where a conjunction of atoms begins that has no rows of before: at the clocks of the events,
/// raised to the least closed vector of all, which is the bottom's. So the rows of early events,
/// whose clocks lie far below it, have nothing left to rise by but what they lack a cut for.
fn beginning_anew<L: Ledger>(
    alloc: Global,
    order: &Order,
    system: &System,
    steps: &mut Steps<L>,
) -> Result<Beginning, NoMemory>
    requires system { system.now.lens ≡ lengths order.now }
    requires order { BeginsWithOrder order.now system.now.pulls }
    ensures lens { IfOk result (λ begins. begins.floor.lens ≡ lengths order.now) }
    ensures rows { IfOk result (λ begins.
        AreWithinClosed (lengths order.now) system.now.pulls begins.floor.words) }
    ensures finals { IfOk result (λ begins. AreNone begins.finals) }
    ensures bottom { IfOk result (λ begins. FindsBottom system.now true None begins.bottom
        begins.floor.words (spent_of steps.old steps.new)) }
{
    let mut vector = [0; MOST_PROCESSES];
    let vector = &mut vector[..system.shape().procs() as usize];
    least(system, vector, steps);
    let floor = order_rows_above(alloc, order, vector)?;
    let finals = no_rows();
    let bottom = true;
    Ok(Beginning {
        floor,
        finals,
        bottom,
    })
}

/// Where another conjunction begins: at the rows that were gathered, and where there are none each
/// at its start.
fn beginning_of_others(
    alloc: Global,
    order: &Order,
    gathered: Option<Floor>,
) -> Result<Beginning, NoMemory>
    requires { IfSome gathered (λ rows. rows.lens ≡ lengths order.now) }
    ensures lens { IfOk result (λ begins. begins.floor.lens ≡ lengths order.now) }
    ensures others { IfOk result (λ begins. OthersBegin (lengths order.now) gathered
        begins.floor.words begins.finals) }
    ensures bottom { IfOk result (λ begins. begins.bottom ≡ false) }
{
    let bottom = false;
    let finals = no_rows();
    let floor = match gathered {
        Some(floor) => floor,
        None => starting_rows(alloc, order)?,
    };
    Ok(Beginning {
        floor,
        finals,
        bottom,
    })
}

/// The start of each row.
fn starting_rows(alloc: Global, order: &Order) -> Result<Floor, NoMemory>
    ensures lens { IfOk result (λ rows. rows.lens ≡ lengths order.now) }
    ensures words { IfOk result (λ rows. rows.words ≡ starts (lengths order.now)) }
{
    let rows = Rows::new(alloc, order.shape())?;
    widened(alloc, &rows)
}

/// Where a conjunction begins: where it keeps its rows, as one of atoms, and else at those that
/// were gathered.
pub fn beginning_of<L: Ledger>(
    alloc: Global,
    order: &Order,
    system: &System,
    keeps: bool,
    before: Option<Rows>,
    gathered: Option<Floor>,
    steps: &mut Steps<L>,
) -> Result<Beginning, NoMemory>
    requires before { IsFloorOf (lengths order.now) keeps before }
    requires gathered { IfSome gathered (λ rows. rows.lens ≡ lengths order.now) }
    requires system { system.now.lens ≡ lengths order.now }
    requires order { keeps ≡ true → BeginsWithOrder order.now system.now.pulls }
    ensures lens { IfOk result (λ begins. begins.floor.lens ≡ lengths order.now) }
    ensures atoms { keeps ≡ true → IfOk result (λ begins. AtomsBegin (lengths order.now)
        system.now.pulls before begins.floor.words begins.finals) }
    ensures others { keeps ≡ false → IfOk result (λ begins. OthersBegin (lengths order.now)
        gathered begins.floor.words begins.finals) }
    ensures bottom { IfOk result (λ begins. FindsBottom system.now keeps before begins.bottom
        begins.floor.words (spent_of steps.old steps.new)) }
{
    if keeps {
        beginning_of_atoms(alloc, order, system, before, steps)
    } else {
        beginning_of_others(alloc, order, gathered)
    }
}

/// No row of any process.
fn no_rows() -> [u32; MOST_PROCESSES]
    ensures { AreNone result }
{
    [0; MOST_PROCESSES]
}

/// How many first rows of each process end with one that lies within the lengths.
fn rows_with_cuts(rows: &Rows) -> [u32; MOST_PROCESSES]
    ensures { HaveCuts rows.now result }
{
    let mut finals = no_rows();
    for process in 0..rows.shape().procs() {
        finals[process as usize] = rows_with_a_cut(rows, process);
    }
    finals
}

/// How many first rows of the process end with one that lies within the lengths. Rows rise along a
/// process, so those with a cut come first, and the last of them is found by halves.
fn rows_with_a_cut(rows: &Rows, process: u32) -> u32
    requires process { process < length rows.now.lens }
    ensures few { result ≤ slice_index rows.now.lens process }
    ensures cut { 1 ≤ result → IsAtMost
        (row_at rows.now.lens rows.now.words (sum (take process rows.now.lens) + result))
        rows.now.lens }
{
    let shape = rows.shape();
    let (mut known, mut most) = (0, shape.len_of(process));
    'halves: while known < most {
        let position = most - (most - known) / 2;
        let row = shape.row_of(EventId { process, position });
        if has_cut(rows.row(row), shape.lens()) {
            known = position;
        } else {
            most = position - 1;
        }
    }
    known
}

/// Whether each component of the row is at most its process's length.
fn has_cut(row: &[u16], lens: &[u32]) -> bool
    requires { length row.now ≡ length lens.now }
    ensures { IsTrue result ↔ IsAtMost row.now lens.now }
{
    for process in 0..lens.len() {
        if row[process] as u32 > lens[process] {
            return false;
        }
    }
    true
}
