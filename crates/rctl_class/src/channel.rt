//! Channel comparisons as parts with one bound each.
ghost use Rattle.rctl_class.specs.NamedParts.{at_least, at_most, never, piece_of, pieces_of};
ghost use Rattle.rctl_class.specs.Walk.{bounds, empty_bound, fewer_than, next_count};
ghost use Rattle.rctl_grammar.specs.Shape.{relation_of};
ghost use Rattle.run_model.specs.Class.{after_sign};
ghost use Rattle.std.specs.Prelude.{◌≡◌, ◌++◌, ◌∷◌, [], IfOk, OnOk};

use crate::local::copy_place;
use crate::named::NamedPart;
use pota_base::{List, NoMemory};
use rctl_grammar::{Compare, Place};
use std::alloc::Global;

/// The comparison that holds exactly where this one does not, where the sign is negative.
pub fn after_sign(sign: bool, compare: Compare) -> Compare
    ensures { relation_of result ≡ after_sign sign (relation_of compare) }
{
    if sign {
        return compare;
    }
    match compare {
        Compare::Eq => Compare::Ne,
        Compare::Ne => Compare::Eq,
        Compare::Lt => Compare::Ge,
        Compare::Le => Compare::Gt,
        Compare::Gt => Compare::Le,
        Compare::Ge => Compare::Lt,
    }
}

#[tactic(auto, using(crate::proofs::Rules::named))]
fn at_most(alloc: Global, sender: &Place, receiver: &Place, k: u64) -> Result<NamedPart, NoMemory>
    ensures { IfOk result (λ part. piece_of part ≡ at_most sender.now receiver.now k) }
{
    Ok(NamedPart::AtMost {
        sender: copy_place(alloc, sender)?,
        receiver: copy_place(alloc, receiver)?,
        k,
    })
}

#[tactic(auto, using(crate::proofs::Rules::named))]
fn at_least(alloc: Global, sender: &Place, receiver: &Place, k: u64) -> Result<NamedPart, NoMemory>
    ensures { IfOk result (λ part. piece_of part ≡ at_least sender.now receiver.now k) }
{
    Ok(NamedPart::AtLeast {
        sender: copy_place(alloc, sender)?,
        receiver: copy_place(alloc, receiver)?,
        k,
    })
}

#[tactic(auto, using(crate::proofs::Rules::named))]
fn never(alloc: Global, sender: &Place, receiver: &Place) -> Result<NamedPart, NoMemory>
    ensures { IfOk result (λ part. piece_of part ≡ never sender.now receiver.now) }
{
    Ok(NamedPart::Never {
        sender: copy_place(alloc, sender)?,
        receiver: copy_place(alloc, receiver)?,
    })
}

/// Fewer than `k` messages are under way.
fn fewer_than(
    alloc: Global,
    sender: &Place,
    receiver: &Place,
    k: u64,
) -> Result<NamedPart, NoMemory>
    ensures { IfOk result (λ part. piece_of part ∷ [] ≡ fewer_than sender.now receiver.now k) }
{
    if k == 0 {
        return never(alloc, sender, receiver);
    }
    at_most(alloc, sender, receiver, k - 1)
}

/// More than `k` messages are under way; `k` is below 2^63 in each formula that was read.
fn more_than(alloc: Global, sender: &Place, receiver: &Place, k: u64) -> Result<NamedPart, NoMemory>
    ensures { IfOk result
        (λ part. piece_of part ≡ at_least sender.now receiver.now (next_count k)) }
{
    at_least(alloc, sender, receiver, k.saturating_add(1))
}

/// Appends the bounds that a comparison with the messages under way says; "unequal" says none.
pub fn push_bounds(
    alloc: Global,
    sender: &Place,
    receiver: &Place,
    compare: Compare,
    k: u64,
    parts: &mut List<NamedPart>,
) -> Result<(), NoMemory>
    ensures { OnOk result (pieces_of parts.new
        ≡ pieces_of parts.old ++ bounds sender.now receiver.now (relation_of compare) k) }
{
    match compare {
        Compare::Eq => {
            parts.push(at_most(alloc, sender, receiver, k)?)?;
            parts.push(at_least(alloc, sender, receiver, k)?)
        }
        Compare::Ne => Ok(()),
        Compare::Lt => parts.push(fewer_than(alloc, sender, receiver, k)?),
        Compare::Le => parts.push(at_most(alloc, sender, receiver, k)?),
        Compare::Gt => parts.push(more_than(alloc, sender, receiver, k)?),
        Compare::Ge => parts.push(at_least(alloc, sender, receiver, k)?),
    }
}

/// No message is under way, or some is where the sign is negative.
pub fn emptiness(
    alloc: Global,
    sign: bool,
    sender: &Place,
    receiver: &Place,
) -> Result<NamedPart, NoMemory>
    ensures { IfOk result (λ part. piece_of part ≡ empty_bound sign sender.now receiver.now) }
{
    if sign {
        at_most(alloc, sender, receiver, 0)
    } else {
        at_least(alloc, sender, receiver, 1)
    }
}
