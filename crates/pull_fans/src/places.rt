//! Where the pulls stand that fans hold, by their numbers.
ghost use Rattle.std.specs.Prelude.{◌≡◌, ◌+◌, ◌<◌, ◌^◌, ◌++◌, List as ListOf, length, IfOk, OnOk};
ghost use Rattle.std.specs.List.{range_with_len};
ghost use Rattle.pull_system.specs.declared.pull.Pull.{Pull};
ghost use Rattle.pull_system.specs.System.{SystemView, IsSystem};
ghost use Rattle.pull_fans.specs.Sources.{numbers_from};
ghost use Rattle.pull_fans.specs.inside.Sources.{AreBySource};
ghost use Rattle.pull_fans.specs.Fans.{FanView, pulls_of_fan, pulls_of_fans};
ghost use Rattle.pull_fans.specs.inside.First.{first_system, HavePulls};
ghost use Rattle.pull_fans.specs.inside.Places.{ArePlaces, fan_at};

use crate::fan::Fan;
use pota_base::{List, NoMemory, Shape};
use std::alloc::Global;

/// The number of a fan, and the index of one of its targets.
#[derive(Clone, Copy, Debug)]
pub(crate) struct Place {
    pub fan: usize,
    pub index: usize,
}

/// The places of the pulls of all fans, in their order.
pub(crate) fn places_of(alloc: Global, fans: &[Fan]) -> Result<List<Place>, NoMemory>
    ensures { IfOk result (λ places. ArePlaces fans.now places (pulls_of_fans fans.now)) }
{
    let mut places = List::new(alloc);
    for (number, fan) in fans.iter().enumerate() {
        push_places(number, fan, &mut places)?;
    }
    Ok(places)
}

/// Appends the places of the pulls of the fan of this number.
pub(crate) fn push_places(
    number: usize,
    fan: &Fan,
    places: &mut List<Place>,
) -> Result<(), NoMemory>
    ensures { OnOk result ((fans : ListOf FanView) (pulls : ListOf Pull) → number < length fans
        → fan_at fans number ≡ fan.now → ArePlaces fans places.old pulls
        → ArePlaces fans places.new (pulls ++ pulls_of_fan fan.now)) }
{
    for index in 0..fan.targets().len() {
        places.push(Place { fan: number, index })?;
    }
    Ok(())
}

/// The numbers of the pulls of each process of the shape.
pub(crate) fn sort_by_source(
    alloc: Global,
    shape: &Shape,
    fans: &List<Fan>,
    places: &List<Place>,
) -> Result<List<List<u32>>, NoMemory>
    requires places { ArePlaces fans.now places.now (pulls_of_fans fans.now) }
    requires count { length (pulls_of_fans fans.now) < 2 ^ 32 }
    ensures { let system : SystemView = record { lens = shape.now; pulls = pulls_of_fans fans.now }
        in IfOk result (AreBySource system) }
{
    let mut by_source = List::new(alloc);
    for process in 0..shape.procs() {
        let numbers = numbers_from(alloc, process, fans.as_slice(), places.as_slice())?;
        by_source.push(numbers)?;
    }
    Ok(by_source)
}

/// The numbers of the pulls from the process.
pub(crate) fn numbers_from(
    alloc: Global,
    process: u32,
    fans: &[Fan],
    places: &[Place],
) -> Result<List<u32>, NoMemory>
    requires places { ArePlaces fans.now places.now (pulls_of_fans fans.now) }
    requires count { length (pulls_of_fans fans.now) < 2 ^ 32 }
    ensures { let pulls = pulls_of_fans fans.now in
        IfOk result (λ numbers. numbers ≡ numbers_from pulls process (length pulls)) }
{
    let mut numbers = List::new(alloc);
    for (k, place) in places.iter().enumerate() {
        if fans[place.fan].source() == process {
            numbers.push(k as u32)?;
        }
    }
    Ok(numbers)
}

/// Puts the numbers of the pulls of the fan of this number, which are those from `first` on, behind
/// the others of its source.
pub(crate) fn push_numbers(
    alloc: Global,
    shape: &Shape,
    fans: &[Fan],
    number: usize,
    first: usize,
    by_source: &mut List<List<u32>>,
) -> Result<(), NoMemory>
    requires system { IsSystem record { lens = shape.now; pulls = pulls_of_fans fans.now } }
    requires fans { HavePulls fans.now number first }
    requires number { number < length fans.now }
    requires numbers { AreBySource (first_system shape.now fans.now number) by_source.old }
    ensures { OnOk result
        (AreBySource (first_system shape.now fans.now (number + 1)) by_source.new) }
{
    let fan = &fans[number];
    if fan.targets().is_empty() {
        return Ok(());
    }
    let process = fan.source() as usize;
    let mut numbers = by_source.replace(process, List::new(alloc));
    push_range(first, fan.targets().len(), &mut numbers)?;
    drop(by_source.replace(process, numbers));
    Ok(())
}

/// Appends so many numbers, from `first` on.
fn push_range(first: usize, count: usize, numbers: &mut List<u32>) -> Result<(), NoMemory>
    requires { first + count < 2 ^ 32 }
    ensures { OnOk result (numbers.new ≡ numbers.old ++ range_with_len first count) }
{
    for k in 0..count {
        numbers.push((first + k) as u32)?;
    }
    Ok(())
}
