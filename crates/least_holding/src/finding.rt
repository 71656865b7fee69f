//! The least closed vector of a system, as a cut.
ghost use Rattle.least_holding.specs.inside.Finding.{IsLeastCut};
ghost use Rattle.slice_graph.specs.Fitting.{IsCutOfVector};
ghost use Rattle.std.specs.Prelude.{◌≡◌, length, IfOk};

use cut_lattice::Cut;
use least_cut::least;
use pota_base::{NoMemory, Shape, Steps};
use pull_fans::System;
use std::alloc::Global;
use std::sync::ledger::Ledger;

// The cut that the vector is, and none where a component is above its length.
fn cut_of(alloc: Global, shape: &Shape, vector: &[u64]) -> Result<Option<Cut>, NoMemory>
    requires { length vector.now ≡ length shape.now }
    ensures { IfOk result (IsCutOfVector shape.now vector.now) }
{
    let lens = shape.lens();
    let mut cut = Cut::new(alloc, shape.procs())?;
    for process in 0..lens.len() {
        let count = vector[process];
        if count > lens[process] as u64 {
            return Ok(None);
        }
        cut.set(process as u32, count as u32);
    }
    Ok(Some(cut))
}

/// The cut that the least closed vector of the system is, where it is one.
pub fn least_cut_of<L: Ledger>(
    alloc: Global,
    system: &System,
    steps: &mut Steps<L>,
) -> Result<Option<Cut>, NoMemory>
    ensures { IfOk result (IsLeastCut system.now) }
{
    let shape = system.shape();
    let mut vector = vec![in alloc; 0u64; shape.procs() as usize]?;
    least(system, vector.as_mut_slice(), steps);
    let cut = cut_of(alloc, shape, vector.as_slice())?;
    Ok(cut)
}
