ghost use Rattle.std.specs.Prelude.{
  ◌≡◌,
  ◌∷◌,
  [],
  ◌^◌,
  pos,
  neg_ℤ,
  ◌≤ℤ◌,
  length,
  All,
  IfOk,
};
ghost use Rattle.event_log.specs.States.{AreNamedApart};
ghost use Rattle.counter_preds.specs.Counters.{AreCounters, IsVariable, IsCounter};

use crate::events::{name, p_and_q};
use counter_preds::{Variable, a_header_has_counters, diff_at_least, diff_at_most, first_fall};
use event_log::{
    Assign, Binding, Event, Header, Kind, LogCode, LogFault, Name, States, var_lines_of,
};
use pota_base::{List, NoMemory};
use pull_system::Pull;
use std::alloc::Global;
use std::process::Abort;

const X: Variable = Variable {
    process: 0,
    number: 0,
};

const Y: Variable = Variable {
    process: 1,
    number: 0,
};

fn one<T: Drop>(alloc: Global, item: T) -> Result<List<T>, NoMemory>
    ensures { IfOk result (λ list. list ≡ item ∷ []) }
{
    let mut list = List::new(alloc);
    list.push(item)?;
    Ok(list)
}

// `x=3`, or `y=0`.
fn opening(alloc: Global, name: Name, value: i64) -> Result<List<Binding>, NoMemory>
    ensures apart { IfOk result AreNamedApart }
    ensures one { IfOk result (λ bindings. length bindings ≡ 1) }
{
    one(alloc, Binding { name, value })
}

// `procs P Q`, `vars P x=3`, `vars Q y=0`
fn two_counters(rt: &impl Abort, alloc: Global) -> Result<States, NoMemory>
    ensures there { IfOk result (λ s. IsVariable s X × IsVariable s Y) }
    ensures rise { IfOk result (λ s. IsCounter s X × IsCounter s Y) }
{
    let procs = p_and_q(rt, alloc)?;
    let mut vars = List::new(alloc);
    vars.push(opening(alloc, name(rt, alloc, b"x")?, 3)?)?;
    vars.push(opening(alloc, name(rt, alloc, b"y")?, 0)?)?;
    let var_lines = var_lines_of(alloc, vars.as_slice())?;
    a_header_has_counters();
    let states = States::new(
        alloc,
        Header {
            version: 1,
            procs,
            vars,
            var_lines,
        },
    )?;
    Ok(states)
}

// Whether there is one pull, from the one process to the other, with this table.
fn is_only(pulls: &List<Pull>, src: u32, dst: u32, table: &[u32]) -> bool {
    match pulls.as_slice() {
        [pull] => pull.src == src && pull.dst == dst && pull.table.as_slice() == table,
        _ => false,
    }
}

// Whether a difference of at most `k` asks one pull with this table.
fn asks_at_most(alloc: Global, states: &States, k: i128, table: &[u32]) -> Result<bool, NoMemory>
    requires counters { AreCounters states.now X Y }
    requires low { neg_ℤ (pos (2 ^ 64)) ≤ℤ k }
    requires high { k ≤ℤ pos (2 ^ 64) }
{
    let pulls = diff_at_most(alloc, states, X, Y, k)?;
    Ok(is_only(&pulls, 0, 1, table))
}

// Whether a difference of at least `k` asks one pull with this table.
fn asks_at_least(alloc: Global, states: &States, k: i128, table: &[u32]) -> Result<bool, NoMemory>
    requires counters { AreCounters states.now X Y }
    requires low { neg_ℤ (pos (2 ^ 64)) ≤ℤ k }
    requires high { k ≤ℤ pos (2 ^ 64) }
{
    let pulls = diff_at_least(alloc, states, X, Y, k)?;
    Ok(is_only(&pulls, 1, 0, table))
}

// That a difference of 3 is at most 3 and not at most 2.
fn judge_at_most(rt: &impl Abort, alloc: Global, states: &States) -> Result<(), NoMemory>
    requires there { IsVariable states.now X × IsVariable states.now Y }
    requires rise { IsCounter states.now X × IsCounter states.now Y }
{
    let first = asks_at_most(alloc, states, 2, &[1, 1])?;
    let second = asks_at_most(alloc, states, 3, &[0, 0])?;
    assert!(rt; first);
    assert!(rt; second);
    Ok(())
}

// That a difference of 3 is at least 3 and not at least 4.
fn judge_at_least(rt: &impl Abort, alloc: Global, states: &States) -> Result<(), NoMemory>
    requires there { IsVariable states.now X × IsVariable states.now Y }
    requires rise { IsCounter states.now X × IsCounter states.now Y }
{
    let first = asks_at_least(alloc, states, 3, &[0, 0])?;
    let second = asks_at_least(alloc, states, 4, &[1, 1])?;
    assert!(rt; first);
    assert!(rt; second);
    Ok(())
}

// That both come out so.
fn judge_differences(rt: &impl Abort, alloc: Global, states: &States) -> Result<(), NoMemory>
    requires there { IsVariable states.now X × IsVariable states.now Y }
    requires rise { IsCounter states.now X × IsCounter states.now Y }
{
    judge_at_most(rt, alloc, states)?;
    judge_at_least(rt, alloc, states)
}

#[test]
fn differences_at_the_opening(rt: HostRuntime) -> Result<(), NoMemory> {
    judge_differences(&rt, rt.alloc(), &two_counters(&rt, rt.alloc())?)
}

// `ev P int x=4` or the like, at its line.
fn sets(alloc: Global, process: u32, line: u32, value: i64) -> Result<Event, NoMemory> {
    Ok(Event {
        process,
        line,
        clock: List::new(alloc),
        kind: Kind::Internal,
        assigns: one(alloc, Assign { variable: 0, value })?,
    })
}

// `x=4`, `y=1` and `x=4` at the lines 5 to 7, then `x=3` and `y=0`, which fall.
fn falling_batch(alloc: Global) -> Result<Vec<Event>, NoMemory> {
    let mut batch = Vec::new(alloc);
    batch.push(sets(alloc, 0, 5, 4)?)?;
    batch.push(sets(alloc, 1, 6, 1)?)?;
    batch.push(sets(alloc, 0, 7, 4)?)?;
    batch.push(sets(alloc, 0, 8, 3)?)?;
    batch.push(sets(alloc, 1, 9, 0)?)?;
    Ok(batch)
}

// The fault of a counter that falls at this line.
fn falls(line: u32) -> Option<LogFault> {
    Some(LogFault {
        code: LogCode::CounterFalls,
        line,
    })
}

// That of these events the first one that falls is found, and none of the first three falls.
fn judge_falls(rt: &impl Abort, states: &States, batch: &[Event])
    requires there { IsVariable states.now X × IsVariable states.now Y }
{
    assert!(rt; first_fall(states, batch, &[Y, X]) == falls(8));
    assert!(rt; first_fall(states, batch, &[Y]) == falls(9));
    assert!(rt; first_fall(states, batch, &[]) == None);
    assert!(rt; batch.len() >= 3);
    assert!(rt; first_fall(states, &batch[..3], &[X, Y]) == None);
}

fn judge_batch(rt: &impl Abort, alloc: Global, states: &States) -> Result<(), NoMemory>
    requires there { IsVariable states.now X × IsVariable states.now Y }
{
    let batch = falling_batch(alloc)?;
    judge_falls(rt, states, &batch);
    Ok(())
}

#[test]
fn a_counter_falls(rt: HostRuntime) -> Result<(), NoMemory> {
    judge_batch(&rt, rt.alloc(), &two_counters(&rt, rt.alloc())?)
}
