//! Fans on a longer shape: their first rows stay, and more come behind them.
ghost use Rattle.std.specs.Prelude.{◌≡◌, ℕ, ◌<◌, length, get_or, map, All, IfOk, OnOk};
ghost use Rattle.std.specs.Prelude.{slice_index};
ghost use Rattle.pull_fans.specs.inside.Growing.{longer_fan, grown_fan, FitsRows, MayGrow};

use crate::fan::Fan;
use pota_base::{List, NoMemory, Shape};
use std::alloc::Global;

/// The fans on a shape that is longer than this one.
pub(crate) fn grown_fans(
    alloc: Global,
    shape: &Shape,
    fans: List<Fan>,
    more: &[List<u32>],
) -> Result<List<Fan>, NoMemory>
    requires rows { length more.now ≡ length shape.now }
    requires fans { All (MayGrow shape.now more.now) fans }
    ensures { IfOk result (λ now. now ≡ map (grown_fan shape.now more.now) fans) }
{
    let mut grown = List::with_capacity(alloc, fans.len())?;
    for fan in fans.into_vec() {
        grown.push(grown_fan(alloc, shape, fan, more)?)?;
    }
    Ok(grown)
}

/// The fan on a shape that is longer than this one.
fn grown_fan(alloc: Global, shape: &Shape, fan: Fan, more: &[List<u32>]) -> Result<Fan, NoMemory>
    requires rows { length more.now ≡ length shape.now }
    requires fan { MayGrow shape.now more.now fan }
    ensures { IfOk result (λ now. now ≡ grown_fan shape.now more.now fan) }
{
    if fan.is_empty() {
        return Ok(fan);
    }
    let source = fan.source();
    let stay = shape.len_of(source) as usize + 1;
    let rows = more[source as usize].as_slice();
    longer_fan(alloc, fan, stay, shape.procs() as usize, rows)
}

/// The fan with so many of its rows, and behind them what rows of one entry per process have of its
/// targets.
fn longer_fan(
    alloc: Global,
    fan: Fan,
    stay: usize,
    procs: usize,
    more: &[u32],
) -> Result<Fan, NoMemory>
    requires procs { 0 < procs }
    requires rows { FitsRows fan procs more.now }
    ensures { IfOk result (λ now. now ≡ longer_fan stay procs more.now fan) }
{
    let mut fan = fan;
    fan.keep(stay);
    let mut row = Vec::new(alloc);
    for x in 0..more.len() / procs {
        gather(&more[x * procs..x * procs + procs], fan.targets(), &mut row)?;
        fan.push_row(&row)?;
    }
    Ok(fan)
}

/// Makes `numbers` the entries of the row at these places.
fn gather(row: &[u32], places: &[u32], numbers: &mut Vec<u32>) -> Result<(), NoMemory>
    requires { (index : ℕ) → index < length places.now
        → slice_index places.now index < length row.now }
    ensures { OnOk result
        (numbers.new.items ≡ map (λ place. get_or row.now place 0) places.now) }
{
    numbers.clear();
    for &place in places {
        numbers.push(row[place as usize])?;
    }
    Ok(())
}
