//! The rows of one conjunction, and its slice.
ghost use Rattle.std.specs.Prelude.{◌≡◌, ◌^◌, ◌<◌, ◌≤◌, true, length, All, IfOk, IfSome};
ghost use Rattle.std.specs.Option.{option_or};
ghost use Rattle.run_model.specs.Cut.{lengths};
ghost use Rattle.pull_system.specs.System.{IsPull, IsSystem, SystemView};
ghost use Rattle.pull_system.specs.Rows.{AreLeastRows};
ghost use Rattle.slice_graph.specs.Fitting.{HasOrder};
ghost use Rattle.conjunctions.specs.Counting.{first_of};
ghost use Rattle.bound_table.specs.Firm.{AreOwnRows};
ghost use Rattle.slice_workers.specs.Spent.{spent_of};
ghost use Rattle.conjunctions.specs.inside.Beginning.{AsksAlone, BeginsTable, BeginsWithOrder};
ghost use Rattle.conjunctions.specs.inside.Beginning.{GatheredFits};
ghost use Rattle.conjunctions.specs.inside.Settling.{CanBegin, CanBeginTable, SettlesOne};
ghost use Rattle.conjunctions.specs.inside.Settling.{IsSliceOfSystem, conjoined_of};
ghost use Rattle.conjunctions.specs.inside.Settling.{SharesOrder};

use crate::floors::{Beginning, beginning_of};
use crate::gathered::{FirstRows, Gathered};
use crate::means::Means;
use crate::round::Round;
use crate::systems::{give_back, system_of_asked};
use bound_table::{BoundTable, Firm, Seat, widened};
use causal_order::Order;
use pota_base::{Gate, NoMemory, Steps};
use pull_fans::System;
use pull_system::{Floor, Rows};
use slice_graph::Slice;
use slice_workers::settle_all;
use std::alloc::Global;
use std::sync::ledger::Ledger;
use std::thread::Threads;

/// Settles the rows of the conjunction that has what was gathered, from its rows of before where
/// they are kept, and gives its slice. Rows that are firm where it begins are not settled again:
/// all of them where one slice asks alone, and then that is the conjunction's.
pub fn settle_gathered<R: Threads + Sync, G: Gate, L: Ledger>(
    means: &Means<R, G>,
    order: &Order,
    gathered: Gathered,
    keeps: bool,
    round: &mut Round,
    steps: &mut Steps<L>,
) -> Result<Slice, NoMemory>
    requires fit { All (IsPull (lengths order.now)) gathered.pulls }
    requires count { length gathered.pulls < 2 ^ 32 }
    requires order { HasOrder order.now
        (record { lens = lengths order.now; pulls = gathered.pulls }) }
    requires first { keeps ≡ true → BeginsWithOrder order.now gathered.pulls }
    requires before { CanBegin (record { lens = lengths order.now; pulls = gathered.pulls }) keeps
        (first_of round.old.before) }
    requires floor { GatheredFits order.now gathered }
    requires shared { SharesOrder order.now gathered round.old }
    ensures { IfOk result (SettlesOne (conjoined_of order.now gathered.pulls keeps)
        means.now.workers round.old round.new (spent_of steps.old steps.new)) }
{
    let alloc = means.alloc;
    let (asked, first, own) = gathered.into_asked();
    let has_order = asked.has_order;
    let system = system_of_asked(alloc, order, asked, round)?;
    let before = round.next();
    let (table, mut seat) = table_of(alloc, order, system, keeps, before, first, steps)?;
    let settled = settle_all(
        means.rt,
        alloc,
        &table,
        &mut seat,
        means.workers,
        means.gate,
        steps,
    )?;
    seat.bounds();
    give_back(alloc, order, has_order, table.close(seat), round)?;
    let slice = slice_of_rows(alloc, order, own, settled.rows())?;
    round.keep(settled)?;
    Ok(slice)
}

/// The slice of a conjunction that has these rows: the slice that asked alone, and where there is
/// none the rows'.
fn slice_of_rows(
    alloc: Global,
    order: &Order,
    own: Option<Slice>,
    rows: &Rows,
) -> Result<Slice, NoMemory>
    requires { rows.now.lens ≡ lengths order.now }
    ensures { (system : SystemView) → IsSystem system → system.lens ≡ lengths order.now
        → HasOrder order.now system → AreLeastRows system rows.now.words
        → IfSome own (AsksAlone order.now system.pulls)
        → IfOk result (IsSliceOfSystem order.now system) }
{
    match own {
        Some(slice) => Ok(slice),
        None => Slice::from_rows(alloc, order, rows),
    }
}

/// The table of the system from which a conjunction begins: that of the rows of a slice that asks
/// alone, all firm, and else one that shares its words. Of atoms no slice asks.
fn table_of<L: Ledger>(
    alloc: Global,
    order: &Order,
    system: System,
    keeps: bool,
    before: Option<Rows>,
    first: FirstRows,
    steps: &mut Steps<L>,
) -> Result<(BoundTable, Seat), NoMemory>
    requires begins { CanBeginTable order.now system keeps before
        (option_or first.own first.floor) }
    requires own { first.alone ≡ true
        → IfSome (option_or first.own first.floor) (λ rows. AreOwnRows system rows.words) }
    ensures { IfOk result (λ pair. BeginsTable system keeps before pair.0 pair.1
        (spent_of steps.old steps.new)) }
{
    let FirstRows { own, floor, alone } = first;
    match own {
        Some(rows) => {
            if keeps || !alone {
                let floor = widened(alloc, &rows)?;
                drop(rows);
                return shared_table(alloc, order, system, keeps, before, Some(floor), steps);
            }
            drop(before);
            let _shape = system.shape();
            let (table, seat) = BoundTable::firm(alloc, system, rows)?;
            Ok((table, seat))
        }
        None => shared_table(alloc, order, system, keeps, before, floor, steps),
    }
}

/// The table of the system from which a conjunction begins that shares its words. Of rows of before
/// those with a cut are firm, and where there are none the bottom's is.
fn shared_table<L: Ledger>(
    alloc: Global,
    order: &Order,
    system: System,
    keeps: bool,
    before: Option<Rows>,
    floor: Option<Floor>,
    steps: &mut Steps<L>,
) -> Result<(BoundTable, Seat), NoMemory>
    requires begins { CanBeginTable order.now system keeps before floor }
    ensures { IfOk result (λ pair. BeginsTable system keeps before pair.0 pair.1
        (spent_of steps.old steps.new)) }
{
    let _shape = system.shape();
    let begins = beginning_of(alloc, order, &system, keeps, before, floor, steps)?;
    let Beginning {
        floor,
        finals,
        bottom,
    } = begins;
    let firm = Firm::new(order.shape(), finals, bottom);
    let (table, seat) = BoundTable::behind(alloc, system, floor, firm)?;
    Ok((table, seat))
}
