ghost use Rattle.std.specs.Prelude.{◌≡◌};

use crate::systems::{EMPTY_CHANNEL, order_and};
use pota_base::NoMemory;
use pull_system::Rows;
use raise_machine::{Machine, Step};
use std::alloc::Global;
use std::process::Abort;

/// The machine of the order and of an empty channel, whose rows begin at their starts.
#[tactic(auto, using(raise_machine::proofs::Raising::starts_bounds))]
fn empty_machine(rt: &impl Abort, alloc: Global) -> Result<Machine, NoMemory> {
    let system = order_and(rt, alloc, EMPTY_CHANNEL)?;
    let floor = Rows::new(alloc, system.shape())?;
    Machine::new(alloc, system, &floor)
}

/// The word of a row that is there.
fn word(rt: &impl Abort, machine: &mut Machine, row: u32, process: u32) -> u64 {
    assert!(rt; machine.step(Step::Look { row, process }));
    machine.word(row, process)
}

/// That pull `k` is done at the row with `x` or refused, and which word of row 1 stands then.
fn pulled(rt: &impl Abort, machine: &mut Machine, row: u32, k: u32, x: u64) -> (bool, u64) {
    let done = machine.step(Step::Pull { row, k, x });
    (done, word(rt, machine, 1, 1))
}

#[test]
fn steps_raise_what_their_words_show(rt: HostRuntime) -> Result<(), NoMemory> {
    let mut machine = empty_machine(&rt, rt.alloc())?;
    for (row, k, x, done, raised) in [
        // past the source's word, at no row, and no pull
        (1, 2, 2, false, 0),
        (6, 2, 0, false, 0),
        (1, 3, 0, false, 0),
        (1, 2, 1, true, 1),
        // no word falls
        (1, 2, 0, true, 1),
    ] {
        assert!(rt; pulled(&rt, &mut machine, row, k, x) == (done, raised));
    }
    Ok(())
}

fn lend(to_row: u32, from_row: u32, process: u32, y: u64) -> Step {
    Step::Lend {
        to_row,
        from_row,
        process,
        y,
    }
}

#[test]
fn rows_lend_to_rows_with_their_events(rt: HostRuntime) -> Result<(), NoMemory> {
    let mut machine = empty_machine(&rt, rt.alloc())?;
    let steps = [
        Step::Pull { row: 1, k: 2, x: 1 },
        lend(2, 1, 1, 1),
        lend(4, 1, 1, 1),
        lend(2, 1, 1, 2),
        lend(5, 0, 0, 0),
    ];
    assert!(rt; machine.run(&steps) == 3);
    for (row, process, raised) in [(2, 0, 2), (2, 1, 1), (4, 0, 0)] {
        assert!(rt; word(&rt, &mut machine, row, process) == raised);
    }
    Ok(())
}
