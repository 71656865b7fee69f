//! The first fans of a system: more put behind them, and the others taken off.
ghost use Rattle.std.specs.Prelude.{◌≡◌, ◌≤◌, ◌++◌, length, take, All, IsTrue, IfOk, IfSome, OnOk};
ghost use Rattle.pull_system.specs.System.{IsSystem};
ghost use Rattle.pull_fans.specs.Fans.{pulls_of_fans};
ghost use Rattle.pull_fans.specs.inside.Asks.{AreAllAsks, StaysWith};
ghost use Rattle.pull_fans.specs.inside.First.{first_system, HavePulls, IsFromOther, IsKnown};
ghost use Rattle.pull_fans.specs.inside.Sources.{AreBySource};

use crate::asks::{AskRows, held_asks, raise_asks};
use crate::fan::{Fan, pulls_of};
use crate::lone::first_from;
use crate::places::{Place, numbers_from, places_of, push_numbers, push_places};
use pota_base::{List, NoMemory, Shape};
use pull_system::Pull;
use std::alloc::Global;

/// The fans, and others behind them.
pub(crate) fn joined(own: List<Fan>, others: List<Fan>) -> Result<List<Fan>, NoMemory>
    ensures { IfOk result (λ fans. fans ≡ own ++ others) }
{
    let mut fans = own;
    for fan in others.into_vec() {
        fans.push(fan)?;
    }
    Ok(fans)
}

/// The first so many items.
pub(crate) fn first_of<T: Drop>(items: List<T>, count: usize) -> List<T>
    ensures { result ≡ take count items }
{
    let mut items = items.into_vec();
    items.truncate(count);
    List::from_vec(items)
}

/// How many first fans have so many pulls, where no fan has the last of them and others too.
pub(crate) fn fans_with(fans: &[Fan], pulls: usize) -> Option<usize>
    ensures { IfSome result (λ count. HavePulls fans.now count pulls) }
{
    let mut left = pulls;
    for (number, fan) in fans.iter().enumerate() {
        if left == 0 {
            return Some(number);
        }
        let width = fan.targets().len();
        if left < width {
            return None;
        }
        left -= width;
    }
    (left == 0).then_some(fans.len())
}

/// The first so many pulls of the fans, each with a table of its own.
pub(crate) fn first_pulls(
    alloc: Global,
    fans: &List<Fan>,
    count: usize,
) -> Result<List<Pull>, NoMemory>
    ensures { IfOk result (λ pulls. pulls ≡ take count (pulls_of_fans fans.now)) }
{
    Ok(first_of(pulls_of(alloc, fans.as_slice())?, count))
}

/// Whether what is held of a process's rows of asks stays as it is without the other fans, those
/// behind the first so many: none of their pulls comes from it, and its rows are none of theirs.
fn keeps_asks(others: &[Fan], stay: usize, process: u32, held: &AskRows) -> bool
    ensures from { IsTrue result → All (IsFromOther process) (pulls_of_fans others.now) }
    ensures held { IsTrue result → StaysWith stay held.now }
{
    first_from(others, process).is_none() && held.stays_with(stay)
}

/// Takes up the pulls of the fans behind the first so many: their places, their numbers, and what
/// they ask.
pub(crate) fn learn_behind(
    alloc: Global,
    shape: &Shape,
    fans: &[Fan],
    known: usize,
    places: &mut List<Place>,
    by_source: &mut List<List<u32>>,
    asks: &mut List<AskRows>,
) -> Result<(), NoMemory>
    requires system { IsSystem record { lens = shape.now; pulls = pulls_of_fans fans.now } }
    requires known { IsKnown shape.now fans.now known places.old by_source.old asks.old }
    ensures { OnOk result
        (IsKnown shape.now fans.now (length fans.now) places.new by_source.new asks.new) }
{
    for number in known..fans.len() {
        push_numbers(alloc, shape, fans, number, places.len(), by_source)?;
        push_places(number, &fans[number], places)?;
        raise_asks(alloc, shape, fans, number, asks)?;
    }
    Ok(())
}

/// Forgets the pulls of the fans behind the first so many: makes anew the numbers of the pulls and
/// the rows of asks of the processes that they come from, and of those whose rows are theirs.
pub(crate) fn forget_behind(
    alloc: Global,
    shape: &Shape,
    fans: &[Fan],
    stay: usize,
    by_source: &mut List<List<u32>>,
    asks: &mut List<AskRows>,
) -> Result<(), NoMemory>
    requires system { IsSystem record { lens = shape.now; pulls = pulls_of_fans fans.now } }
    requires stay { stay ≤ length fans.now }
    requires numbers { AreBySource record { lens = shape.now; pulls = pulls_of_fans fans.now }
        by_source.old }
    requires asks { AreAllAsks record { lens = shape.now; pulls = pulls_of_fans fans.now } fans.now
        asks.old }
    ensures numbers { OnOk result
        (AreBySource (first_system shape.now fans.now stay) by_source.new) }
    ensures asks { OnOk result
        (AreAllAsks (first_system shape.now fans.now stay) (take stay fans.now) asks.new) }
{
    let (first, others) = fans.split_at(stay);
    let places = places_of(alloc, first)?;
    for process in 0..shape.procs() {
        if keeps_asks(others, stay, process, asks.get(process as usize)) {
            continue;
        }
        let numbers = numbers_from(alloc, process, first, places.as_slice())?;
        drop(by_source.replace(process as usize, numbers));
        let rows = held_asks(alloc, shape, first, process)?;
        drop(asks.replace(process as usize, rows));
    }
    Ok(())
}
