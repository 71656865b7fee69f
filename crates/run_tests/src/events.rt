//! Names and events that several tests stand on.
ghost use Rattle.std.specs.Prelude.{◌≡◌, ◌+◌, ◌<◌, ◌≤◌, ◌∷◌, [], length, IfOk, OnOk};
ghost use Rattle.std.specs.List.{AllByRecursion};
ghost use Rattle.event_log.specs.declared.log.Header.{Header};
ghost use Rattle.event_log.specs.LogText.{KindWithin};
ghost use Rattle.event_log.specs.States.{IsKnown};
ghost use Rattle.vector_clock.specs.Events.{EventFits};

use event_log::{Event, Kind, Name};
use pota_base::{List, NoMemory};
use std::alloc::Global;
use std::process::Abort;

/// The name of these bytes, which are one.
pub fn name(rt: &impl Abort, alloc: Global, bytes: &[u8]) -> Result<Name, NoMemory>
    ensures { IfOk result (λ name. name ≡ bytes.now) }
{
    let name = Name::new(alloc, bytes)?;
    Ok(name.expect(rt, "a name"))
}

/// The names `P` and `Q`.
pub fn p_and_q(rt: &impl Abort, alloc: Global) -> Result<List<Name>, NoMemory>
    ensures { IfOk result (λ names. names ≡ (80 ∷ []) ∷ (81 ∷ []) ∷ []) }
{
    let mut names = List::new(alloc);
    names.push(name(rt, alloc, b"P")?)?;
    names.push(name(rt, alloc, b"Q")?)?;
    Ok(names)
}

/// Puts an event without assignments behind those of a batch.
pub fn add(
    alloc: Global,
    batch: &mut List<Event>,
    process: u32,
    line: u32,
    clock: &[u32],
    kind: Kind,
) -> Result<(), NoMemory>
    requires process { process < length clock.now }
    requires peer { KindWithin (length clock.now) kind }
    ensures fits { OnOk result (AllByRecursion (EventFits (length clock.now)) batch.old
        → AllByRecursion (EventFits (length clock.now)) batch.new) }
    ensures known { OnOk result ((h : Header) → length h.procs ≡ length clock.now
        → AllByRecursion (IsKnown h) batch.old → AllByRecursion (IsKnown h) batch.new) }
    ensures len { OnOk result (length batch.new ≡ length batch.old + 1) }
{
    let clock = List::from_vec(Vec::from_slice(alloc, clock)?);
    batch.push(Event {
        process,
        line,
        clock,
        kind,
        assigns: List::new(alloc),
    })
}

/// `ev P 1,0 send Q 1`, and `ev Q n,1 recv P 1`.
pub fn a_message(alloc: Global, n: u32) -> Result<List<Event>, NoMemory>
    ensures fits { IfOk result (λ batch. AllByRecursion (EventFits 2) batch) }
    ensures known { IfOk result (λ batch. (h : Header) → length h.procs ≡ 2
        → AllByRecursion (IsKnown h) batch) }
    ensures len { IfOk result (λ batch. length batch ≤ 2) }
{
    let mut batch = List::new(alloc);
    add(
        alloc,
        &mut batch,
        0,
        3,
        &[1, 0],
        Kind::Send { to: 1, id: 1 },
    )?;
    add(
        alloc,
        &mut batch,
        1,
        4,
        &[n, 1],
        Kind::Receive { sender: 0, id: 1 },
    )?;
    Ok(batch)
}
