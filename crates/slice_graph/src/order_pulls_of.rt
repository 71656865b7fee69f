//! The pulls of the order of a run.
ghost use Rattle.std.specs.Prelude.{◌≡◌, ℕ, ◌+◌, ◌-◌, ◌*◌, ◌^◌, ◌<◌, ◌≤◌, ◌↔◌, length, map};
ghost use Rattle.std.specs.Prelude.{flat_map, slice_index, All, IfOk};
ghost use Rattle.std.specs.List.{range_with_len};
ghost use Rattle.run_model.specs.Cut.{Cut, count, IsWithin, lengths};
ghost use Rattle.run_model.specs.Consistent.{IsConsistent};
ghost use Rattle.pota_base.specs.Limits.{most_processes};
ghost use Rattle.pull_system.specs.System.{IsPull};
ghost use Rattle.pull_system.specs.Pulls.{ClosedUnder};
ghost use Rattle.pull_fans.specs.Fans.{pulls_of_fan, pulls_of_fans};
ghost use Rattle.slice_graph.specs.PullLists.{past_count, order_pull, pulls_of_order};
ghost use Rattle.slice_graph.specs.inside.PullLists.{other};

use causal_order::Order;
use pota_base::{EventId, List, MOST_PROCESSES, NoMemory};
use pull_fans::{Fan, pulls_of};
use pull_system::Pull;
use std::alloc::Global;

/// The pulls of the order: for each source and each other process as the target, in this order,
/// what the clocks of the source's events have of the target.
pub fn order_pulls(alloc: Global, order: &Order) -> Result<List<Pull>, NoMemory>
    ensures list { IfOk result (λ pulls. pulls ≡ pulls_of_order order.now) }
    ensures count { IfOk result (λ pulls. length pulls
        ≡ length order.now * (length order.now - 1)) }
    ensures pulls { IfOk result (λ pulls. All (IsPull (lengths order.now)) pulls) }
    ensures closed { IfOk result (λ pulls. (c : Cut) → length c ≡ length order.now
        → IsWithin c (lengths order.now) → ClosedUnder pulls c ↔ IsConsistent order.now c) }
{
    let fans = order_fans(alloc, order)?;
    pulls_of(alloc, fans.as_slice())
}

/// The pulls of the order side by side: for each source a fan to the other processes, in this
/// order, with what the clocks of the source's events have of the targets.
pub fn order_fans(alloc: Global, order: &Order) -> Result<List<Fan>, NoMemory>
    ensures list { IfOk result (λ fans. pulls_of_fans fans ≡ pulls_of_order order.now) }
    ensures count { IfOk result (λ fans. length (pulls_of_fans fans)
        ≡ length order.now * (length order.now - 1)) }
    ensures pulls { IfOk result (λ fans. All (IsPull (lengths order.now)) (pulls_of_fans fans)) }
    ensures closed { IfOk result (λ fans. (c : Cut) → length c ≡ length order.now
        → IsWithin c (lengths order.now)
        → ClosedUnder (pulls_of_fans fans) c ↔ IsConsistent order.now c) }
{
    let mut fans = List::new(alloc);
    for source in 0..order.shape().procs() {
        fans.push(order_fan(alloc, order, source)?)?;
    }
    Ok(fans)
}

/// The pulls from one process to the others.
fn order_fan(alloc: Global, order: &Order, source: u32) -> Result<Fan, NoMemory>
    requires { source < length order.now }
    ensures { IfOk result (λ fan. pulls_of_fan fan
        ≡ flat_map (order_pull order.now source) (range_with_len 0 (length order.now))) }
{
    let shape = order.shape();
    let procs = shape.procs();
    let len = shape.len_of(source);
    let zeros = [0; MOST_PROCESSES];
    let none = &zeros[..procs as usize];
    let mut room = [0; MOST_PROCESSES];
    let room = &mut room[..procs as usize - 1];
    let targets = other_processes(alloc, procs, source)?;
    let mut fan = Fan::new(alloc, source, targets, len as usize + 2)?;
    for position in 0..len + 2 {
        leave_out(past(order, source, position.min(len), none), source, room);
        fan.push_row(room)?;
    }
    Ok(fan)
}

/// All processes but one.
fn other_processes(alloc: Global, procs: u32, process: u32) -> Result<List<u32>, NoMemory>
    requires { process < procs }
    ensures { IfOk result (λ others. others ≡ map (other process) (range_with_len 0 (procs - 1))) }
{
    let mut others = List::with_capacity(alloc, procs as usize - 1)?;
    for index in 0..procs - 1 {
        others.push(other(process, index))?;
    }
    Ok(others)
}

/// Makes `into` the counts of the other processes.
fn leave_out(counts: &[u32], process: u32, into: &mut [u32])
    requires process { process < length counts.now }
    requires width { length into.old + 1 ≡ length counts.now }
    requires few { length counts.now ≤ most_processes }
    ensures width { length into.new ≡ length into.old }
    ensures counts { (index : ℕ) → index < length into.new
        → slice_index into.new index ≡ count counts.now (other process index) }
{
    let process = process as usize;
    into[..process].copy_from_slice(&counts[..process]);
    into[process..].copy_from_slice(&counts[process + 1..]);
}

/// The process at this index among all but one.
fn other(process: u32, index: u32) -> u32
    requires { index + 1 < 2 ^ 32 }
    ensures { result ≡ other process index }
{
    if index < process { index } else { index + 1 }
}

/// How many events of each process the pasts of the source's first events have, which is `none`
/// where there is no event.
pub(crate) fn past<'a>(order: &'a Order, source: u32, position: u32, none: &'a [u32]) -> &'a [u32]
    requires source { source < length order.now }
    requires position { position ≤ count (lengths order.now) source }
    requires width { length none.now ≡ length order.now }
    requires none { (target : ℕ) → count none.now target ≡ 0 }
    ensures width { length result.now ≡ length order.now }
    ensures past { (target : ℕ) → count result.now target
        ≡ past_count order.now source target position }
{
    if position == 0 {
        return none;
    }
    order.clock(EventId {
        process: source,
        position,
    })
}
