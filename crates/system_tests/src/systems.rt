//! The systems of pulls that several tests stand on, and tables of them.
ghost use Rattle.std.specs.Prelude.{◌≡◌, IfOk, ◌∷◌, []};
ghost use Rattle.pota_base.specs.Shape.{IsShape};

use bound_table::{BoundTable, Seat};
use pota_base::{List, NoMemory, Shape};
use pull_fans::System;
use pull_system::{Pull, Rows, all_fit};
use std::alloc::Global;
use std::process::Abort;

/// The source, the target and the table of a pull.
pub type Ends = (u32, u32, &'static [u32]);

/// The channel from process 0 to process 1 is empty.
pub const EMPTY_CHANNEL: Ends = (0, 1, &[0, 1, 1, 1, 1]);

/// Process 0 asks itself for more events than it has.
pub const NO_CUT: Ends = (0, 0, &[0, 4, 4, 4, 4]);

pub fn pull(alloc: Global, src: u32, dst: u32, table: &[u32]) -> Result<Pull, NoMemory> {
    let table = List::from_vec(Vec::from_slice(alloc, table)?);
    Ok(Pull { src, dst, table })
}

fn pulls_of(alloc: Global, ends: &[Ends]) -> Result<List<Pull>, NoMemory> {
    let mut pulls = List::new(alloc);
    for &(src, dst, table) in ends {
        pulls.push(pull(alloc, src, dst, table)?)?;
    }
    Ok(pulls)
}

/// The system of these pulls on processes of these lengths.
pub fn system_of(
    rt: &impl Abort,
    alloc: Global,
    lens: &[u32],
    ends: &[Ends],
) -> Result<System, NoMemory>
    requires { IsShape lens.now }
    ensures { IfOk result (λ system. system.lens ≡ lens.now) }
{
    let shape = Shape::new(alloc, lens)?;
    let pulls = pulls_of(alloc, ends)?;
    assert!(rt; all_fit(pulls.as_slice(), &shape));
    assert!(rt; pulls.len() <= 3 && pulls.len() == ends.len());
    System::new(alloc, &shape, pulls)
}

/// The pulls of the order of a run of two processes with three and two events, and one more pull.
pub fn order_and(rt: &impl Abort, alloc: Global, more: Ends) -> Result<System, NoMemory>
    ensures lens { IfOk result (λ system. system.lens ≡ 3 ∷ 2 ∷ []) }
{
    let order_and = [
        (0, 1, [0, 0, 0, 2, 2].as_slice()),
        (1, 0, &[0, 1, 1, 1]),
        more,
    ];
    system_of(rt, alloc, &[3, 2], &order_and)
}

/// The table of the system, whose rows begin at their starts.
#[tactic(auto, using(raise_machine::proofs::Raising::starts_bounds))]
pub fn table_of(alloc: Global, system: System) -> Result<(BoundTable, Seat), NoMemory>
    ensures seat { IfOk result (λ pair. pair.1.table ≡ pair.0) }
    ensures system { IfOk result (λ pair. pair.0.system ≡ system) }
{
    let floor = Rows::new(alloc, system.shape())?;
    BoundTable::new(alloc, system, &floor)
}
