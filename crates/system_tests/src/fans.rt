//! Systems of fans: three processes with three, two and one events.
ghost use Rattle.std.specs.Prelude.{◌≤◌, ◌^◌, All, IfOk, OnOk, length};
ghost use Rattle.pull_fans.specs.Fans.{pulls_of_fans};
ghost use Rattle.pull_system.specs.System.{IsPull};

use crate::systems::{self, EMPTY_CHANNEL, NO_CUT, order_and};
use pota_base::{List, NoMemory, Shape};
use pull_fans::{Fan, System, pulls_of};
use pull_system::all_fit;
use std::alloc::Global;
use std::process::Abort;

/// The pulls from a process to these targets, with a row for each value of its component.
fn fan(
    rt: &impl Abort,
    alloc: Global,
    src: u32,
    targets: &[u32],
    rows: &[&[u32]],
) -> Result<Fan, NoMemory> {
    let targets = List::from_vec(Vec::from_slice(alloc, targets)?);
    let mut fan = Fan::new(alloc, src, targets, rows.len())?;
    for row in rows {
        assert!(rt; row.len() == fan.targets().len());
        assert!(rt; row.iter().all(|&entry| entry < 1 << 16));
        fan.push_row(row)?;
    }
    Ok(fan)
}

/// The source of a fan, its targets and its rows.
type FanRows<'a> = (u32, &'a [u32], &'a [&'a [u32]]);

fn fans(rt: &impl Abort, alloc: Global, texts: &[FanRows]) -> Result<List<Fan>, NoMemory> {
    let mut fans = List::new(alloc);
    for &(source, targets, rows) in texts {
        fans.push(fan(rt, alloc, source, targets, rows)?)?;
    }
    Ok(fans)
}

/// That the pulls of the fans fit the shape, and that they are few.
fn fit(rt: &impl Abort, alloc: Global, shape: &Shape, fans: &List<Fan>) -> Result<(), NoMemory>
    ensures fit { OnOk result (All (IsPull shape.now) (pulls_of_fans fans.now)) }
    ensures few { OnOk result (length (pulls_of_fans fans.now) ≤ 8) }
{
    let pulls = pulls_of(alloc, fans.as_slice())?;
    assert!(rt; all_fit(pulls.as_slice(), shape));
    assert!(rt; pulls.len() <= 8);
    Ok(())
}

/// Fans whose pulls fit the shape.
fn fitting(
    rt: &impl Abort,
    alloc: Global,
    shape: &Shape,
    texts: &[FanRows],
) -> Result<List<Fan>, NoMemory>
    ensures fit { IfOk result (λ fans. All (IsPull shape.now) (pulls_of_fans fans)) }
    ensures few { IfOk result (λ fans. length (pulls_of_fans fans) ≤ 8) }
{
    let fans = fans(rt, alloc, texts)?;
    fit(rt, alloc, shape, &fans)?;
    Ok(fans)
}

/// The system of the pulls of these fans.
fn system_of(rt: &impl Abort, alloc: Global, texts: &[FanRows]) -> Result<System, NoMemory> {
    let shape = Shape::new(alloc, &[3, 2, 1])?;
    System::of_fans(alloc, &shape, fitting(rt, alloc, &shape, texts)?)
}

/// The system with the pulls of these fans behind its own.
fn with(
    rt: &impl Abort,
    alloc: Global,
    system: System,
    texts: &[FanRows],
) -> Result<System, NoMemory> {
    assert!(rt; system.pulls() <= 8);
    let fans = fitting(rt, alloc, system.shape(), texts)?;
    system.with_fans(alloc, fans)
}

/// From process 0 there is a fan to both others and one to process 1 alone.
fn three_fans(rt: &impl Abort, alloc: Global) -> Result<System, NoMemory> {
    system_of(
        rt,
        alloc,
        &[
            (0, &[1, 2], &[&[0, 0], &[1, 0], &[1, 1], &[2, 1], &[3, 2]]),
            (1, &[0], &[&[0], &[2], &[3], &[4]]),
            (0, &[1], &[&[0], &[0], &[2], &[2], &[3]]),
        ],
    )
}

/// The three fans, and behind them one from process 1 to the others and one from process 2.
fn five_fans(rt: &impl Abort, alloc: Global) -> Result<System, NoMemory> {
    with(
        rt,
        alloc,
        three_fans(rt, alloc)?,
        &[
            (1, &[0, 2], &[&[1, 0], &[1, 1], &[3, 1], &[4, 2]]),
            (2, &[1], &[&[0], &[2], &[3]]),
        ],
    )
}

/// The fan from process 0 goes to each process in turn and is its only one; that from process 1 to
/// each too, but not in turn.
fn lone_fans(rt: &impl Abort, alloc: Global) -> Result<System, NoMemory> {
    system_of(
        rt,
        alloc,
        &[
            (
                1,
                &[1, 0, 2],
                &[&[0, 0, 0], &[1, 2, 0], &[2, 3, 1], &[3, 4, 2]],
            ),
            (
                0,
                &[0, 1, 2],
                &[&[0, 0, 0], &[1, 0, 0], &[2, 1, 0], &[3, 1, 1], &[4, 3, 2]],
            ),
        ],
    )
}

/// The fans to all, and behind them two more from process 0 and, between these, one from process 2
/// to all in turn.
fn lone_fans_and_three(rt: &impl Abort, alloc: Global) -> Result<System, NoMemory> {
    with(
        rt,
        alloc,
        lone_fans(rt, alloc)?,
        &[
            (0, &[1], &[&[0], &[2], &[2], &[2], &[3]]),
            (2, &[0, 1, 2], &[&[1, 0, 0], &[1, 2, 1], &[4, 3, 2]]),
            (0, &[2], &[&[0], &[0], &[1], &[2], &[2]]),
        ],
    )
}

/// From process 1 there is a fan to both others.
fn a_fan_to_others(rt: &impl Abort, alloc: Global) -> Result<System, NoMemory> {
    system_of(
        rt,
        alloc,
        &[(1, &[0, 2], &[&[0, 0], &[2, 0], &[3, 1], &[4, 2]])],
    )
}

/// The systems that are asked.
#[derive(Clone, Copy)]
pub enum Asked {
    /// The order of two processes with three and two events, and an empty channel.
    EmptyChannel,
    /// The same order, where process 0 asks itself for more events than it has.
    NoCut,
    /// The same order, where process 0 has no cut with one event alone.
    Skipped,
    /// One process with two events, of which only the second may end a cut.
    OneProcess,
    Three,
    Five,
    Lone,
    LoneAndThree,
    ToOthers,
    /// The three of the five, with the last two taken off.
    ThreeOfFive,
    /// The five without the last one, and of the fourth its first pull.
    FiveInPart,
    /// The three of those.
    ThreeOfPart,
    /// The three, with more pulls kept than there are.
    AllOfThree,
    /// Those, with none kept.
    NoneOfThree,
    /// The fans to all, with the three behind them taken off.
    LoneOfThree,
    /// The fans to all with the first one behind them.
    LoneAndOne,
    /// The first of the fans to all.
    FirstLone,
}

/// How many first pulls are kept, one after the other.
fn kept(asked: Asked) -> &'static [u32] {
    match asked {
        Asked::ThreeOfFive => &[4],
        Asked::FiveInPart => &[5],
        Asked::ThreeOfPart => &[5, 4],
        Asked::AllOfThree => &[9],
        Asked::NoneOfThree => &[9, 0],
        Asked::LoneOfThree => &[6],
        Asked::LoneAndOne => &[7],
        Asked::FirstLone => &[3],
        _ => &[],
    }
}

/// The system before any pulls are taken off.
fn whole(rt: &impl Abort, alloc: Global, asked: Asked) -> Result<System, NoMemory> {
    match asked {
        Asked::EmptyChannel => order_and(rt, alloc, EMPTY_CHANNEL),
        Asked::NoCut => order_and(rt, alloc, NO_CUT),
        Asked::Skipped => order_and(rt, alloc, (0, 0, &[0, 2, 2, 3, 4])),
        Asked::OneProcess => systems::system_of(rt, alloc, &[2], &[(0, 0, &[0, 2, 2, 3])]),
        Asked::Three | Asked::AllOfThree | Asked::NoneOfThree => three_fans(rt, alloc),
        Asked::Five | Asked::ThreeOfFive | Asked::FiveInPart | Asked::ThreeOfPart => {
            five_fans(rt, alloc)
        }
        Asked::Lone | Asked::FirstLone => lone_fans(rt, alloc),
        Asked::LoneAndThree | Asked::LoneOfThree | Asked::LoneAndOne => {
            lone_fans_and_three(rt, alloc)
        }
        Asked::ToOthers => a_fan_to_others(rt, alloc),
    }
}

pub fn system(rt: &impl Abort, alloc: Global, asked: Asked) -> Result<System, NoMemory> {
    let mut system = whole(rt, alloc, asked)?;
    for &pulls in kept(asked) {
        system = system.with_first_pulls(alloc, pulls)?;
    }
    Ok(system)
}
