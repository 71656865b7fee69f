ghost use Rattle.pota_base.specs.Blanks.{IsBlankOf};
ghost use Rattle.std.specs.Prelude.{◌<◌};

use crate::fans::{Asked, system};
use crate::systems::pull;
use Asked::*;
use Question::*;
use least_cut::least;
use pota_base::{NoMemory, Shape, Steps};
use pull_fans::System;
use std::alloc::Global;
use std::marker::Brand;
use std::process::Abort;
use std::sync::ledger::{Blank, Ledger};

/// What a system is asked. The answer is a number, of those that begin with "whether" 0 or 1.
#[derive(Clone, Copy)]
enum Question {
    /// How many pulls it has.
    Pulls,
    /// How many processes it has.
    Processes,
    /// Whether the pull of this number goes from the first to the second process.
    Ends(u32, (u32, u32)),
    /// Whether the pulls from a process have these numbers.
    From(u32, &'static [u32]),
    /// What the pull of this number asks of its target, where this is its source's component.
    Pull(u32, u64),
    /// What the pulls from a process, where this is its component, ask of another process.
    Asks(u32, u64, u32),
    /// Whether the vector fits the shape.
    Fits([u64; 2]),
    /// Whether the vector is closed.
    IsClosed([u64; 2]),
    /// Whether from the first vector the second one is the least that is closed.
    Least([u64; 2], [u64; 2]),
}

fn has_ends(rt: &impl Abort, system: &System, k: u32, ends: (u32, u32)) -> bool {
    assert!(rt; k < system.pulls());
    system.ends(k) == ends
}

fn come_from(rt: &impl Abort, system: &System, process: u32, numbers: &[u32]) -> bool {
    assert!(rt; process < system.shape().procs());
    system.pulls_from(process) == numbers
}

fn pulled<L: Ledger>(
    rt: &impl Abort,
    system: &System,
    k: u32,
    x: u64,
    steps: &mut Steps<L>,
) -> u64 {
    assert!(rt; k < system.pulls());
    let (source, _) = system.ends(k);
    assert!(rt; x <= system.shape().len_of(source) as u64 + 1);
    system.pull(k, x, steps)
}

fn asked<L: Ledger>(
    rt: &impl Abort,
    system: &System,
    process: u32,
    x: u64,
    target: u32,
    steps: &mut Steps<L>,
) -> u64 {
    assert!(rt; process < system.shape().procs());
    assert!(rt; x <= system.shape().len_of(process) as u64 + 1);
    assert!(rt; target < system.shape().procs());
    system.asks(process, x, steps)[target as usize] as u64
}

fn is_closed<L: Ledger>(
    rt: &impl Abort,
    system: &System,
    vector: &[u64],
    steps: &mut Steps<L>,
) -> bool {
    assert!(rt; system.fits(vector));
    system.is_closed(vector, steps)
}

fn is_least<L: Ledger>(
    rt: &impl Abort,
    system: &System,
    mut vector: [u64; 2],
    end: [u64; 2],
    steps: &mut Steps<L>,
) -> bool {
    assert!(rt; system.fits(&vector));
    least(system, &mut vector, steps);
    vector == end
}

fn answer<L: Ledger>(
    rt: &impl Abort,
    system: &System,
    question: Question,
    steps: &mut Steps<L>,
) -> u64 {
    match question {
        Question::Pulls => system.pulls() as u64,
        Question::Processes => system.shape().procs() as u64,
        Question::Ends(k, ends) => has_ends(rt, system, k, ends) as u64,
        Question::From(process, numbers) => come_from(rt, system, process, numbers) as u64,
        Question::Pull(k, x) => pulled(rt, system, k, x, steps),
        Question::Asks(process, x, target) => asked(rt, system, process, x, target, steps),
        Question::Fits(vector) => system.fits(&vector) as u64,
        Question::IsClosed(vector) => is_closed(rt, system, &vector, steps) as u64,
        Question::Least(start, end) => is_least(rt, system, start, end, steps) as u64,
    }
}

fn told<L: Ledger>(
    rt: &impl Abort,
    alloc: Global,
    blank: Blank,
    asked: Asked,
    question: Question,
) -> Result<u64, NoMemory>
    requires blank { IsBlankOf L.name L.parts blank }
{
    let system = system(rt, alloc, asked)?;
    Ok(answer(rt, &system, question, &mut Steps::<L>::new(blank)))
}

/// A system, what it is asked, and what it must answer.
type Row = (Asked, Question, u64);

/// That each system answers so.
fn answer_so(rt: &impl Abort, alloc: Global, rows: &[Row]) -> Result<(), NoMemory> {
    for &(asked, question, wanted) in rows {
        let told = told::<Brand>(rt, alloc, Blank::new(1), asked, question)?;
        assert!(rt; told == wanted);
    }
    Ok(())
}

/// How many pulls there are, and how they are numbered.
const NUMBERS: [Row; 52] = [
    (EmptyChannel, Pulls, 3),
    (EmptyChannel, Processes, 2),
    (Three, Pulls, 4),
    (Three, Processes, 3),
    (Five, Pulls, 7),
    (Five, Processes, 3),
    (ThreeOfFive, Pulls, 4),
    (ThreeOfFive, Processes, 3),
    (FiveInPart, Pulls, 5),
    (FiveInPart, Processes, 3),
    (ThreeOfPart, Pulls, 4),
    (ThreeOfPart, Processes, 3),
    (AllOfThree, Pulls, 4),
    (AllOfThree, Processes, 3),
    (NoneOfThree, Pulls, 0),
    (NoneOfThree, Processes, 3),
    (Lone, Pulls, 6),
    (Lone, Processes, 3),
    (LoneAndThree, Pulls, 11),
    (LoneAndThree, Processes, 3),
    (LoneOfThree, Pulls, 6),
    (LoneOfThree, Processes, 3),
    (LoneAndOne, Pulls, 7),
    (LoneAndOne, Processes, 3),
    (FirstLone, Pulls, 3),
    (FirstLone, Processes, 3),
    (ToOthers, Pulls, 2),
    (ToOthers, Processes, 3),
    (EmptyChannel, Ends(1, (1, 0)), 1),
    (Three, Ends(1, (0, 2)), 1),
    (Three, Ends(2, (1, 0)), 1),
    (Five, Ends(5, (1, 2)), 1),
    (ThreeOfFive, Ends(3, (0, 1)), 1),
    (ThreeOfPart, Ends(3, (0, 1)), 1),
    (AllOfThree, Ends(3, (0, 1)), 1),
    (ToOthers, Ends(1, (1, 2)), 1),
    (EmptyChannel, From(0, &[0, 2]), 1),
    (Five, From(0, &[0, 1, 3]), 1),
    (Five, From(1, &[2, 4, 5]), 1),
    (Five, From(2, &[6]), 1),
    (ThreeOfFive, From(0, &[0, 1, 3]), 1),
    (ThreeOfFive, From(1, &[2]), 1),
    (ThreeOfFive, From(2, &[]), 1),
    (FiveInPart, From(1, &[2, 4]), 1),
    (ThreeOfPart, From(0, &[0, 1, 3]), 1),
    (ThreeOfPart, From(1, &[2]), 1),
    (ThreeOfPart, From(2, &[]), 1),
    (AllOfThree, From(0, &[0, 1, 3]), 1),
    (AllOfThree, From(1, &[2]), 1),
    (AllOfThree, From(2, &[]), 1),
    (NoneOfThree, From(0, &[]), 1),
    (LoneAndThree, From(0, &[3, 4, 5, 6, 10]), 1),
];

#[test]
fn pulls_are_numbered_by_fan_and_target(rt: HostRuntime) -> Result<(), NoMemory> {
    answer_so(&rt, rt.alloc(), &NUMBERS)
}

/// What pulls ask, and what processes ask.
const ASKS: [Row; 81] = [
    (Three, Pull(0, 4), 3),
    (Three, Pull(1, 3), 1),
    (Three, Pull(2, 1), 2),
    (Three, Pull(3, 2), 2),
    (Three, Pull(3, 1), 0),
    (EmptyChannel, Asks(0, 0, 1), 0),
    (EmptyChannel, Asks(0, 1, 1), 1),
    (EmptyChannel, Asks(0, 3, 1), 2),
    (EmptyChannel, Asks(0, 3, 0), 0),
    (EmptyChannel, Asks(1, 2, 0), 1),
    (Three, Asks(0, 2, 1), 2),
    (Three, Asks(0, 2, 2), 1),
    (Three, Asks(0, 4, 1), 3),
    (Three, Asks(1, 2, 0), 3),
    (Three, Asks(2, 1, 1), 0),
    (Five, Asks(0, 2, 1), 2),
    (Five, Asks(1, 0, 0), 1),
    (Five, Asks(1, 1, 0), 2),
    (Five, Asks(1, 1, 2), 1),
    (Five, Asks(2, 1, 1), 2),
    // nothing is left of what those asked that are taken off
    (ThreeOfFive, Asks(0, 2, 1), 2),
    (ThreeOfFive, Asks(0, 2, 2), 1),
    (ThreeOfFive, Asks(1, 0, 0), 0),
    (ThreeOfFive, Asks(1, 1, 2), 0),
    (ThreeOfFive, Asks(1, 3, 0), 4),
    (ThreeOfFive, Asks(2, 1, 1), 0),
    (FiveInPart, Asks(1, 0, 0), 1),
    (FiveInPart, Asks(1, 1, 2), 0),
    (FiveInPart, Asks(2, 1, 1), 0),
    (ThreeOfPart, Asks(0, 2, 1), 2),
    (ThreeOfPart, Asks(0, 2, 2), 1),
    (ThreeOfPart, Asks(1, 0, 0), 0),
    (ThreeOfPart, Asks(1, 1, 2), 0),
    (ThreeOfPart, Asks(1, 3, 0), 4),
    (ThreeOfPart, Asks(2, 1, 1), 0),
    (AllOfThree, Asks(0, 2, 1), 2),
    (AllOfThree, Asks(0, 2, 2), 1),
    (AllOfThree, Asks(1, 0, 0), 0),
    (AllOfThree, Asks(1, 1, 2), 0),
    (AllOfThree, Asks(1, 3, 0), 4),
    (AllOfThree, Asks(2, 1, 1), 0),
    (NoneOfThree, Asks(0, 4, 1), 0),
    (Lone, Asks(0, 0, 2), 0),
    (Lone, Asks(0, 1, 0), 1),
    (Lone, Asks(0, 1, 1), 0),
    (Lone, Asks(0, 3, 1), 1),
    (Lone, Asks(0, 4, 0), 4),
    (Lone, Asks(0, 4, 2), 2),
    (Lone, Asks(1, 1, 0), 2),
    (Lone, Asks(1, 1, 1), 1),
    (Lone, Asks(1, 2, 2), 1),
    (Lone, Asks(2, 1, 0), 0),
    (LoneAndThree, Asks(0, 1, 0), 1),
    (LoneAndThree, Asks(0, 1, 1), 2),
    (LoneAndThree, Asks(0, 3, 1), 2),
    (LoneAndThree, Asks(0, 3, 2), 2),
    (LoneAndThree, Asks(1, 1, 0), 2),
    (LoneAndThree, Asks(2, 0, 0), 1),
    (LoneAndThree, Asks(2, 1, 1), 2),
    (LoneOfThree, Asks(0, 0, 2), 0),
    (LoneOfThree, Asks(0, 1, 0), 1),
    (LoneOfThree, Asks(0, 1, 1), 0),
    (LoneOfThree, Asks(0, 3, 1), 1),
    (LoneOfThree, Asks(0, 4, 0), 4),
    (LoneOfThree, Asks(0, 4, 2), 2),
    (LoneOfThree, Asks(1, 1, 0), 2),
    (LoneOfThree, Asks(1, 1, 1), 1),
    (LoneOfThree, Asks(1, 2, 2), 1),
    (LoneOfThree, Asks(2, 1, 0), 0),
    (LoneAndOne, Asks(0, 1, 1), 2),
    (LoneAndOne, Asks(0, 1, 0), 1),
    (LoneAndOne, Asks(0, 3, 2), 1),
    (LoneAndOne, Asks(2, 1, 1), 0),
    (FirstLone, Asks(0, 4, 0), 0),
    (FirstLone, Asks(0, 1, 0), 0),
    (FirstLone, Asks(1, 1, 0), 2),
    (ToOthers, Asks(1, 1, 0), 2),
    (ToOthers, Asks(1, 2, 2), 1),
    (ToOthers, Asks(1, 3, 1), 0),
    (ToOthers, Asks(1, 3, 2), 2),
    (ToOthers, Asks(0, 1, 2), 0),
];

#[test]
fn processes_ask_the_most_of_their_pulls(rt: HostRuntime) -> Result<(), NoMemory> {
    answer_so(&rt, rt.alloc(), &ASKS)
}

/// Vectors of the systems without fans.
const VECTORS: [Row; 18] = [
    (EmptyChannel, Fits([5, 0]), 0),
    (EmptyChannel, IsClosed([0, 0]), 1),
    (EmptyChannel, IsClosed([1, 0]), 0),
    (EmptyChannel, IsClosed([1, 1]), 1),
    (EmptyChannel, IsClosed([2, 1]), 1),
    (EmptyChannel, IsClosed([3, 1]), 0),
    (EmptyChannel, IsClosed([0, 1]), 0),
    (EmptyChannel, IsClosed([4, 2]), 1),
    (EmptyChannel, Least([0, 0], [0, 0]), 1),
    (EmptyChannel, Least([1, 0], [1, 1]), 1),
    (EmptyChannel, Least([3, 0], [3, 2]), 1),
    (EmptyChannel, Least([0, 1], [1, 1]), 1),
    (NoCut, Least([0, 0], [0, 0]), 1),
    (NoCut, Least([1, 0], [4, 2]), 1),
    (NoCut, Least([0, 1], [4, 2]), 1),
    (Skipped, Least([1, 0], [2, 0]), 1),
    (Skipped, Least([0, 1], [2, 1]), 1),
    (Skipped, Least([3, 0], [3, 2]), 1),
];

#[test]
fn closed_vectors_keep_each_pull(rt: HostRuntime) -> Result<(), NoMemory> {
    answer_so(&rt, rt.alloc(), &VECTORS)
}

#[test]
fn a_table_that_falls_is_no_pull(rt: HostRuntime) -> Result<(), NoMemory> {
    let shape = Shape::new(rt.alloc(), &[3, 2])?;
    let falling = pull(rt.alloc(), 0, 1, &[0, 1, 0, 1, 1])?;
    assert!(rt; !falling.fits(&shape));
    Ok(())
}
