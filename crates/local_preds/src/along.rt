//! Truths along a process as pulls.
ghost use Rattle.std.specs.Prelude.{◌≡◌, ℕ, ◌+◌, ◌<◌, ◌≤◌, ◌↔◌, List as ListOf, [], ◌∷◌};
ghost use Rattle.std.specs.Prelude.{true, false, length, slice_index, slice_index_or, All, IfOk};
ghost use Rattle.pull_system.specs.System.{IsPull};
ghost use Rattle.pull_system.specs.Pulls.{ClosedUnder};
ghost use Rattle.local_preds.specs.LocalPulls.{local_pull, constant_pulls_of};

use pota_base::{List, NoMemory, Shape};
use pull_system::Pull;
use std::alloc::Global;

/// One pull from the process to itself: its entry at a position is the least position from there on
/// whose truth is true, or one past the last position where there is none, as past the last one.
///
/// It is one pass over the truths, from the last one on. (Local predicates are regular: Garg and
/// Mittal.)
pub fn pulls_of(
    alloc: Global,
    shape: &Shape,
    process: u32,
    row: &[bool],
) -> Result<List<Pull>, NoMemory>
    requires process { process < length shape.now }
    requires row { length row.now ≡ slice_index shape.now process + 1 }
    ensures pulls { IfOk result (λ pulls. pulls ≡ local_pull process row.now ∷ []) }
    ensures fit { IfOk result (All (IsPull shape.now)) }
    ensures closed { (v : ListOf ℕ) → slice_index v process ≤ slice_index shape.now process
        → IfOk result (λ pulls.
        ClosedUnder pulls v ↔ (slice_index_or row.now (slice_index v process) false ≡ true)) }
{
    let none = shape.len_of(process) + 1;
    let mut table = vec![in alloc; none; row.len() + 1]?;
    let mut next = none;
    for position in (0..row.len()).rev() {
        if row[position] {
            next = position as u32;
        }
        table[position] = next;
    }
    stay(alloc, process, table)
}

/// No pull for true, and for false one that no cut keeps: from process 0 to itself, with every
/// entry past its last position.
pub fn constant_pulls(alloc: Global, shape: &Shape, value: bool) -> Result<List<Pull>, NoMemory>
    ensures pulls { IfOk result (λ pulls. pulls ≡ constant_pulls_of shape.now value) }
    ensures fit { IfOk result (All (IsPull shape.now)) }
    ensures closed { (v : ListOf ℕ) → slice_index v 0 ≤ slice_index shape.now 0
        → IfOk result (λ pulls. ClosedUnder pulls v ↔ (value ≡ true)) }
{
    if value {
        return Ok(List::new(alloc));
    }
    let none = shape.lens()[0] + 1;
    let table = vec![in alloc; none; none as usize + 1]?;
    stay(alloc, 0, table)
}

/// The list of one pull alone, from a process to itself.
fn stay(alloc: Global, process: u32, table: Vec<u32>) -> Result<List<Pull>, NoMemory>
    ensures { IfOk result (λ pulls.
        pulls ≡ record { src = process; dst = process; table = table.items } ∷ []) }
{
    let mut pulls = List::new(alloc);
    pulls.push(Pull {
        src: process,
        dst: process,
        table: List::from_vec(table),
    })?;
    Ok(pulls)
}
