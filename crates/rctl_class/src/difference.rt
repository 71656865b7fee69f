//! Differences of counters as parts with one bound each.
ghost use Rattle.rctl_class.specs.NamedParts.{diff_at_least, diff_at_most, piece_of, pieces_of};
ghost use Rattle.rctl_class.specs.Walk.{difference_bounds};
ghost use Rattle.rctl_grammar.specs.Shape.{relation_of};
ghost use Rattle.std.specs.Prelude.{◌≡◌, ◌++◌, IfOk, OnOk};

use crate::local::copy_place;
use crate::named::NamedPart;
use pota_base::{List, NoMemory};
use rctl_grammar::{Compare, Place};
use std::alloc::Global;

#[tactic(auto, using(crate::proofs::Rules::named))]
fn at_most(
    alloc: Global,
    left_process: &Place,
    left: &Place,
    right_process: &Place,
    right: &Place,
    k: i128,
) -> Result<NamedPart, NoMemory>
    ensures { IfOk result (λ part. piece_of part
        ≡ diff_at_most left_process.now left.now right_process.now right.now k) }
{
    Ok(NamedPart::DiffAtMost {
        left_process: copy_place(alloc, left_process)?,
        left: copy_place(alloc, left)?,
        right_process: copy_place(alloc, right_process)?,
        right: copy_place(alloc, right)?,
        k,
    })
}

#[tactic(auto, using(crate::proofs::Rules::named))]
fn at_least(
    alloc: Global,
    left_process: &Place,
    left: &Place,
    right_process: &Place,
    right: &Place,
    k: i128,
) -> Result<NamedPart, NoMemory>
    ensures { IfOk result (λ part. piece_of part
        ≡ diff_at_least left_process.now left.now right_process.now right.now k) }
{
    Ok(NamedPart::DiffAtLeast {
        left_process: copy_place(alloc, left_process)?,
        left: copy_place(alloc, left)?,
        right_process: copy_place(alloc, right_process)?,
        right: copy_place(alloc, right)?,
        k,
    })
}

/// Appends the bounds that a comparison of a difference says; "unequal" says none.
pub fn push_difference(
    alloc: Global,
    left_process: &Place,
    left: &Place,
    right_process: &Place,
    right: &Place,
    compare: Compare,
    k: i64,
    parts: &mut List<NamedPart>,
) -> Result<(), NoMemory>
    ensures { OnOk result (pieces_of parts.new ≡ pieces_of parts.old ++ difference_bounds
        left_process.now left.now right_process.now right.now (relation_of compare) k) }
{
    let k = i128::from(k);
    match compare {
        Compare::Eq => {
            parts.push(at_most(alloc, left_process, left, right_process, right, k)?)?;
            parts.push(at_least(alloc, left_process, left, right_process, right, k)?)
        }
        Compare::Ne => Ok(()),
        Compare::Lt => parts.push(at_most(alloc, left_process, left, right_process, right, k - 1)?),
        Compare::Le => parts.push(at_most(alloc, left_process, left, right_process, right, k)?),
        Compare::Gt => parts.push(at_least(
            alloc,
            left_process,
            left,
            right_process,
            right,
            k + 1,
        )?),
        Compare::Ge => parts.push(at_least(alloc, left_process, left, right_process, right, k)?),
    }
}
