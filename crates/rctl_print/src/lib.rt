//! The canonical text of a formula: `print` gives it for every tree. That it is read again as that
//! tree is the round trip's law, in a crate above.
#![tactic(auto)]

ghost use Rattle.std.specs.Prelude.{◌≡◌, IfOk};
ghost use Rattle.rctl_grammar.specs.Shape.{shape_of};
ghost use Rattle.rctl_print.specs.Canonical.{canonical};

mod atom;
mod joint;
mod tree;

use pota_base::{Bytes, NoMemory};
use rctl_grammar::Formula;
use std::alloc::Global;

/// The canonical text of the formula.
///
/// Members of an And are joined by ` & `, those of an Or by ` | `. An operator's word is followed
/// by one space and its operand, `EX` by its process between, `!` by its operand at once, and an
/// until is `E[f U g]` or `A[f U g]`. A pair of round brackets stands round an And or an Or that is
/// a member of an And or stands under `!` or an operator, and round an Or that is a member of an
/// Or. Leaves are `P.x = 2`, `P.x <= P.y`, `P.x - Q.y <= 2`, `P@calm`, `intransit(P,Q) <= 1`,
/// `empty(P,Q)`, `true` and `false`. An And or an Or of one member is printed as that member, an
/// And of none as `true` and an Or of none as `false`.
pub fn print(alloc: Global, formula: &Formula) -> Result<Bytes, NoMemory>
    ensures { IfOk result (λ text. text ≡ canonical (shape_of formula.now.tree)) }
{
    let mut out = Bytes::new(alloc);
    tree::put_tree(&mut out, &formula.tree)?;
    Ok(out)
}
