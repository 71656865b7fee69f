//! Rows of asks: what the pulls from a process ask of each process, for each value of its
//! component.
ghost use Rattle.std.specs.Prelude.{◌+◌, ◌<◌, length, slice_index, IsTrue, IfOk, OnOk};
ghost use Rattle.pull_system.specs.System.{SystemView, IsSystem};
ghost use Rattle.pull_fans.specs.Fans.{pulls_of_fans};
ghost use Rattle.pull_fans.specs.inside.Asks.{AreAskRows, AreAllAsks, HoldsAsks, OwnAreAsks};
ghost use Rattle.pull_fans.specs.inside.Asks.{StaysWith};
ghost use Rattle.pull_fans.specs.inside.First.{first_system};

use crate::fan::Fan;
use crate::lone::lone_fan;
use pota_base::{List, NoMemory, Shape};
use std::alloc::Global;

/// What the pulls from one process ask, for each value of its component.
#[derive(Debug, Drop)]
pub(crate) enum AskRows {
    /// Rows of their own, one for each value, of one entry per process.
    Own(List<u16>),
    /// The rows of the fan of this number: it alone has pulls from the process, one to each process
    /// in turn, or to each but the process itself.
    OfFan(usize),
}

impl AskRows {
    /// Whether the fan whose rows these are, if there is one, is among the first so many.
    pub(crate) fn stays_with(&self, count: usize) -> bool
        ensures { IsTrue result → StaysWith count self.now }
    {
        match self {
            AskRows::Own(_) => true,
            AskRows::OfFan(number) => *number < count,
        }
    }
}

/// The rows of asks of each process, one after the other.
pub(crate) fn all_asks(
    alloc: Global,
    shape: &Shape,
    fans: &List<Fan>,
) -> Result<List<AskRows>, NoMemory>
    requires { IsSystem record { lens = shape.now; pulls = pulls_of_fans fans.now } }
    ensures { let system : SystemView = record { lens = shape.now; pulls = pulls_of_fans fans.now }
        in IfOk result (AreAllAsks system fans.now) }
{
    let mut asks = List::new(alloc);
    for process in 0..shape.procs() {
        asks.push(held_asks(alloc, shape, fans.as_slice(), process)?)?;
    }
    Ok(asks)
}

/// The rows of asks of a process: those of a fan, where they are these, and else rows of their own.
pub(crate) fn held_asks(
    alloc: Global,
    shape: &Shape,
    fans: &[Fan],
    process: u32,
) -> Result<AskRows, NoMemory>
    requires system { IsSystem record { lens = shape.now; pulls = pulls_of_fans fans.now } }
    requires process { process < length shape.now }
    ensures { let system : SystemView = record { lens = shape.now; pulls = pulls_of_fans fans.now }
        in IfOk result (HoldsAsks system fans.now process (slice_index shape.now process + 2)) }
{
    if let Some(number) = lone_fan(shape, fans, process) {
        return Ok(AskRows::OfFan(number));
    }
    Ok(AskRows::Own(ask_rows(alloc, shape, fans, process)?))
}

/// The rows of asks of a process, one for each value of its component: zeros, raised by each of the
/// fans from it in turn.
fn ask_rows(alloc: Global, shape: &Shape, fans: &[Fan], process: u32) -> Result<List<u16>, NoMemory>
    requires system { IsSystem record { lens = shape.now; pulls = pulls_of_fans fans.now } }
    requires process { process < length shape.now }
    ensures { let system : SystemView = record { lens = shape.now; pulls = pulls_of_fans fans.now }
        in IfOk result (AreAskRows system process (slice_index shape.now process + 2)) }
{
    let values = shape.len_of(process) as usize + 2;
    let procs = shape.procs() as usize;
    let mut rows = vec![in alloc; 0u16; values * procs]?;
    for fan in fans {
        if fan.source() != process {
            continue;
        }
        fan.raise(values, procs, &mut rows);
    }
    Ok(List::from_vec(rows))
}

/// The rows of asks of a process as rows of their own: those that are held, and else made anew.
fn own_rows(
    alloc: Global,
    shape: &Shape,
    fans: &[Fan],
    process: u32,
    held: AskRows,
) -> Result<List<u16>, NoMemory>
    requires system { IsSystem record { lens = shape.now; pulls = pulls_of_fans fans.now } }
    requires process { process < length shape.now }
    requires held { let system : SystemView
        = record { lens = shape.now; pulls = pulls_of_fans fans.now }
        in OwnAreAsks system process (slice_index shape.now process + 2) held }
    ensures { let system : SystemView = record { lens = shape.now; pulls = pulls_of_fans fans.now }
        in IfOk result (AreAskRows system process (slice_index shape.now process + 2)) }
{
    match held {
        AskRows::Own(rows) => Ok(rows),
        AskRows::OfFan(_) => ask_rows(alloc, shape, fans, process),
    }
}

/// Raises the rows of asks of the source of the fan of this number, where it has pulls, to what
/// they ask. Rows of a fan before it become rows of their own first.
pub(crate) fn raise_asks(
    alloc: Global,
    shape: &Shape,
    fans: &[Fan],
    number: usize,
    asks: &mut List<AskRows>,
) -> Result<(), NoMemory>
    requires system { IsSystem record { lens = shape.now; pulls = pulls_of_fans fans.now } }
    requires number { number < length fans.now }
    requires asks { AreAllAsks (first_system shape.now fans.now number) fans.now asks.old }
    ensures { OnOk result
        (AreAllAsks (first_system shape.now fans.now (number + 1)) fans.now asks.new) }
{
    let fan = &fans[number];
    if fan.targets().is_empty() {
        return Ok(());
    }
    let process = fan.source();
    let held = asks.replace(process as usize, AskRows::OfFan(number));
    let (before, _) = fans.split_at(number);
    let mut rows = own_rows(alloc, shape, before, process, held)?.into_vec();
    let values = shape.len_of(process) as usize + 2;
    fan.raise(values, shape.procs() as usize, &mut rows);
    drop(asks.replace(process as usize, AskRows::Own(List::from_vec(rows))));
    Ok(())
}
