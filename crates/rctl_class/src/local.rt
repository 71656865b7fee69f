//! Formulas over the states of one process.
ghost use Rattle.rctl_class.specs.NamedParts.{expr_of};
ghost use Rattle.rctl_class.specs.Nodes.{formula_of, node_of, nodes_of};
ghost use Rattle.rctl_class.specs.inside.Seen.{expr_seen, exprs_seen, name_seen, part_seen};
ghost use Rattle.rctl_class.specs.inside.Seen.{place_seen};
ghost use Rattle.rctl_class.specs.inside.Seen.{some_if};
ghost use Rattle.rctl_class.specs.Uses.{all_uses, atom_uses, uses_of};
ghost use Rattle.rctl_class.specs.Walk.{atom_expr, expr_from, exprs_from};
ghost use Rattle.rctl_class.specs.inside.Walk.{all_over, atom_is_over};
ghost use Rattle.rctl_class.specs.Walk.{first_place, local_part, side_from};
ghost use Rattle.rctl_class.specs.inside.Walk.{is_on, is_over};
ghost use Rattle.rctl_class.specs.Walk.{signed};
ghost use Rattle.rctl_class.specs.inside.Walk.{side_is_over};
ghost use Rattle.run_model.specs.Class.{is_local};
ghost use Rattle.std.specs.Prelude.{◌≡◌, IfOk, map};

use crate::named::{NamedExpr, NamedPart, NamedSide};
use pota_base::{List, NoMemory};
use rctl_grammar::{Atom, Boxed, Place, Side, Tree};
use std::alloc::Global;

/// The place, of its own.
pub fn copy_place(alloc: Global, place: &Place) -> Result<Place, NoMemory>
    ensures { IfOk result (λ copy. copy ≡ place.now) }
{
    Ok(Place {
        name: place.name.copy(alloc)?,
        at: place.at,
    })
}

/// The place of the first name of a process in a leaf's text.
fn first_of_atom(atom: &Atom) -> Option<&Place>
    ensures { place_seen result ≡ first_place (atom_uses atom.now) }
{
    match atom {
        Atom::Truth(_) => None,
        Atom::Local { process, .. } => Some(process),
        Atom::Watch { process, .. } => Some(process),
        Atom::InTransit { sender, .. } => Some(sender),
        Atom::Empty { sender, .. } => Some(sender),
        Atom::Difference { left_process, .. } => Some(left_process),
    }
}

/// That of the first of the members that has one.
#[cycle(process)]
fn first_of_members(members: &[Tree]) -> Option<&Place>
    ensures { place_seen result ≡ first_place (all_uses (nodes_of (map node_of members.now))) }
{
    'members: for member in members {
        if let Some(place) = first_process(member) {
            return Some(place);
        }
    }
    None
}

/// The place of the first name of a process in a tree's text.
#[cycle(process)]
#[tactic(auto, using(crate::proofs::Rules::nodes))]
fn first_process(tree: &Tree) -> Option<&Place>
    ensures { place_seen result ≡ first_place (uses_of (node_of tree.now)) }
{
    match tree {
        Tree::Leaf { atom, .. } => first_of_atom(atom),
        Tree::Not { inner, .. } => first_process(inner.get()),
        Tree::And { members, .. } => first_of_members(members.as_slice()),
        Tree::Or { members, .. } => first_of_members(members.as_slice()),
        Tree::Temporal { inner, .. } => first_process(inner.get()),
        Tree::Next { process, .. } => Some(process),
        Tree::Until { left, right, .. } => match first_process(left.get()) {
            Some(place) => Some(place),
            None => first_process(right.get()),
        },
    }
}

/// Whether the name is that of the process.
fn is_on(process: Option<&Place>, name: &Place) -> bool
    ensures { result ≡ is_on (name_seen process.entry) name.now.name }
{
    match process {
        Some(process) => process.name.as_bytes() == name.name.as_bytes(),
        None => false,
    }
}

/// The right side of a comparison, where it has no other process.
fn side_at(
    alloc: Global,
    side: &Side,
    process: Option<&Place>,
) -> Result<Option<NamedSide>, NoMemory>
    ensures { IfOk result (λ found. found
        ≡ some_if (side_is_over (name_seen process.entry) side.now) (side_from side.now)) }
{
    match side {
        Side::Number(value) => Ok(Some(NamedSide::Number(*value))),
        Side::Variable {
            process: named,
            variable,
        } => {
            if !is_on(process, named) {
                return Ok(None);
            }
            Ok(Some(NamedSide::Variable(copy_place(alloc, variable)?)))
        }
    }
}

/// The expression of a leaf, where it is local and names no other process.
#[tactic(auto, using(crate::proofs::Rules::named))]
fn atom_at(
    alloc: Global,
    atom: &Atom,
    process: Option<&Place>,
) -> Result<Option<NamedExpr>, NoMemory>
    ensures { IfOk result (λ found. expr_seen found ≡ some_if
        (atom_is_over (name_seen process.entry) atom.now) (atom_expr atom.now)) }
{
    match atom {
        Atom::Truth(value) => Ok(Some(NamedExpr::Truth(*value))),
        Atom::Local {
            process: named,
            variable,
            compare,
            side,
        } => {
            if !is_on(process, named) {
                return Ok(None);
            }
            let Some(side) = side_at(alloc, side, process)? else {
                return Ok(None);
            };
            Ok(Some(NamedExpr::Compare {
                left: copy_place(alloc, variable)?,
                compare: *compare,
                side,
            }))
        }
        Atom::Watch {
            process: named,
            watch,
        } => {
            if !is_on(process, named) {
                return Ok(None);
            }
            Ok(Some(NamedExpr::Watch {
                watch: copy_place(alloc, watch)?,
            }))
        }
        Atom::InTransit { .. } => Ok(None),
        Atom::Empty { .. } => Ok(None),
        Atom::Difference { .. } => Ok(None),
    }
}

/// The expressions of the members, where all are local and name no other process.
#[cycle(expr)]
fn exprs_at(
    alloc: Global,
    members: &[Tree],
    process: Option<&Place>,
) -> Result<Option<List<NamedExpr>>, NoMemory>
    ensures { IfOk result (λ found. exprs_seen found ≡ some_if
        (all_over (name_seen process.entry) (nodes_of (map node_of members.now)))
        (exprs_from (nodes_of (map node_of members.now)))) }
{
    let mut exprs = List::new(alloc);
    'members: for member in members {
        let Some(expr) = expr_at(alloc, member, process)? else {
            return Ok(None);
        };
        exprs.push(expr)?;
    }
    Ok(Some(exprs))
}

/// The expression of a tree, where it is local and names no other process.
#[cycle(expr)]
#[tactic(auto, using(crate::proofs::Rules::named))]
fn expr_at(
    alloc: Global,
    tree: &Tree,
    process: Option<&Place>,
) -> Result<Option<NamedExpr>, NoMemory>
    ensures { IfOk result (λ found. expr_seen found ≡ some_if
        (is_over (name_seen process.entry) (node_of tree.now)) (expr_from (node_of tree.now))) }
{
    match tree {
        Tree::Leaf { atom, .. } => atom_at(alloc, atom, process),
        Tree::Not { inner, .. } => match expr_at(alloc, inner.get(), process)? {
            Some(expr) => Ok(Some(NamedExpr::Not(Boxed::new(alloc, expr)?))),
            None => Ok(None),
        },
        Tree::And { members, .. } => match exprs_at(alloc, members.as_slice(), process)? {
            Some(exprs) => Ok(Some(NamedExpr::And(exprs))),
            None => Ok(None),
        },
        Tree::Or { members, .. } => match exprs_at(alloc, members.as_slice(), process)? {
            Some(exprs) => Ok(Some(NamedExpr::Or(exprs))),
            None => Ok(None),
        },
        Tree::Temporal { .. } => Ok(None),
        Tree::Next { .. } => Ok(None),
        Tree::Until { .. } => Ok(None),
    }
}

/// The expression, negated where the sign is.
#[tactic(auto, using(crate::proofs::Rules::named))]
fn signed(alloc: Global, sign: bool, expr: NamedExpr) -> Result<NamedExpr, NoMemory>
    ensures { IfOk result (λ made. expr_of made ≡ signed sign (expr_of expr)) }
{
    if sign {
        return Ok(expr);
    }
    Ok(NamedExpr::Not(Boxed::new(alloc, expr)?))
}

/// The place, of its own, where there is one.
fn copy_some(alloc: Global, place: Option<&Place>) -> Result<Option<Place>, NoMemory>
    ensures { IfOk result (λ copy. copy ≡ place_seen place.entry) }
{
    match place {
        Some(place) => Ok(Some(copy_place(alloc, place)?)),
        None => Ok(None),
    }
}

/// The part that the tree with this sign is, where it is local.
#[tactic(auto, using(crate::proofs::Rules::named))]
pub fn local_part(alloc: Global, sign: bool, tree: &Tree) -> Result<Option<NamedPart>, NoMemory>
    ensures { IfOk result (λ found. part_seen found ≡ some_if
        (is_local (formula_of (node_of tree.now))) (local_part sign (node_of tree.now))) }
{
    let process = first_process(tree);
    let Some(expr) = expr_at(alloc, tree, process)? else {
        return Ok(None);
    };
    Ok(Some(NamedPart::Local {
        process: copy_some(alloc, process)?,
        expr: signed(alloc, sign, expr)?,
    }))
}
