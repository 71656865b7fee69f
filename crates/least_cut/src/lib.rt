//! The least closed vector of a system of pulls, on one thread.
#![tactic(auto)]

ghost use Rattle.std.specs.Prelude.{◌≡◌, ◌≢◌, ◌+◌, ◌*◌, ◌<◌, ◌≤◌, length, sum};
ghost use Rattle.pull_system.specs.Vector.{IsVector};
ghost use Rattle.pull_system.specs.System.{IsSystem, IsLeastFrom, source_of};
ghost use Rattle.least_cut.specs.inside.Climb.{AreHeld, IsLook, IsClimb, AreMarks};

mod risen;

use crate::risen::Risen;
use pota_base::Steps;
use pull_fans::System;
use std::sync::ledger::Ledger;

/// Raises the vector to the least closed vector at or above it. It takes no memory.
///
/// Each pull is looked at once, and then again each time that its source has risen. So with P
/// pulls, and `out(i)` of them from process i, it takes at most P look-ups and `out(i)` more for
/// each rise of component i, which is never above `P * (1 + rise)`.
pub fn least<L: Ledger>(system: &System, vector: &mut [u64], steps: &mut Steps<L>)
    requires { IsVector system.now.lens vector.old }
    ensures least { IsLeastFrom system.now vector.old vector.new }
    ensures looks { steps.new + length system.now.pulls * sum vector.old
        ≤ steps.old + length system.now.pulls * (1 + sum vector.new) }
{
    let mut risen = Risen::new();
    look_at_all(system, vector, &mut risen, steps);
    while let Some(process) = risen.take() {
        look_from(system, process, vector, &mut risen, steps);
    }
}

/// Looks at each pull once.
fn look_at_all<L: Ledger>(
    system: &System,
    vector: &mut [u64],
    risen: &mut Risen,
    steps: &mut Steps<L>,
)
    requires vector { IsVector system.now.lens vector.old }
    requires marks { AreMarks system.now.lens risen.old }
    ensures settled { AreHeld system.now vector.new risen.new (λ k. Unit {0}) }
    ensures climb { IsClimb system.now vector.old vector.new risen.old risen.new }
    ensures looks { steps.new ≡ steps.old + length system.now.pulls }
{
    for k in 0..system.pulls() {
        look_at(system, k, vector, risen, steps);
    }
}

/// Looks at each pull from the process, where all pulls from the others are settled.
fn look_from<L: Ledger>(
    system: &System,
    process: u32,
    vector: &mut [u64],
    risen: &mut Risen,
    steps: &mut Steps<L>,
)
    requires process { process < length system.now.lens }
    requires vector { IsVector system.now.lens vector.old }
    requires marks { AreMarks system.now.lens risen.old }
    requires settled { AreHeld system.now vector.old risen.old
        (λ k. source_of system.now k ≢ process) }
    ensures settled { AreHeld system.now vector.new risen.new (λ k. Unit {0}) }
    ensures climb { IsClimb system.now vector.old vector.new risen.old risen.new }
    ensures looks { steps.new ≤ steps.old + length system.now.pulls }
{
    for &k in system.pulls_from(process) {
        look_at(system, k, vector, risen, steps);
    }
}

/// Looks at one pull: where it does not hold, its target rises to what it asks for and is marked.
fn look_at<L: Ledger>(
    system: &System,
    k: u32,
    vector: &mut [u64],
    risen: &mut Risen,
    steps: &mut Steps<L>,
)
    requires pull { k < length system.now.pulls }
    requires vector { IsVector system.now.lens vector.old }
    requires marks { AreMarks system.now.lens risen.old }
    ensures look { IsLook system.now k vector.old vector.new risen.old risen.new }
    ensures climb { IsClimb system.now vector.old vector.new risen.old risen.new }
    ensures system { IsSystem system.now }
    ensures step { steps.new ≡ steps.old + 1 }
{
    let (source, target) = system.ends(k);
    let asked = system.pull(k, vector[source as usize], steps);
    if vector[target as usize] < asked {
        vector[target as usize] = asked;
        risen.mark(target);
    }
}
