//! The walk over a formula with a sign: its parts and disjuncts, or its first fault.
ghost use Rattle.rctl_class.specs.Faults.{atom_fault, first_fault, first_of};
ghost use Rattle.rctl_class.specs.Faults.{negated_fault, operator_fault, until_code};
ghost use Rattle.rctl_class.specs.NamedParts.{disjuncts_of, piece_of, pieces_of};
ghost use Rattle.rctl_class.specs.Nodes.{node_of, nodes_of};
ghost use Rattle.rctl_class.specs.Walk.{all_disjuncts, all_parts, channel_parts, disjuncts_from};
ghost use Rattle.rctl_class.specs.Walk.{parts_from};
ghost use Rattle.rctl_grammar.specs.Shape.{relation_of};
ghost use Rattle.rctl_grammar.specs.declared.fault.FormulaCode.TheVariants.{NotRegular};
ghost use Rattle.rctl_round_trip.specs.PassedOn.{Faults};
ghost use Rattle.run_model.specs.Class.{after_sign as turned_by, are_bounded};
ghost use Rattle.std.specs.Prelude.{◌≡◌, ◌++◌, ◌∷◌, [], false, map, MatchResult, None, OnOk};
ghost use Rattle.std.specs.Prelude.{Some, true};

use crate::channel::{after_sign, emptiness, push_bounds};
use crate::difference::push_difference;
use crate::local::{copy_place, local_part};
use crate::named::NamedPart;
use crate::stop::{Stop, fault};
use pota_base::{List, NoMemory};
use rctl_grammar::{Atom, Compare, FormulaCode, Operator, Outside, Place, Tree};
use std::alloc::Global;

/// Appends the parts of a leaf that isn't local. A comparison of one process and a watch are local.
fn push_leaf(
    alloc: Global,
    sign: bool,
    atom: &Atom,
    at: u32,
    parts: &mut List<NamedPart>,
) -> Result<(), Stop>
    ensures { MatchResult result
        (λ _. (atom_fault sign atom.now at ≡ None)
        × (pieces_of parts.new ≡ pieces_of parts.old ++ channel_parts sign atom.now))
        (λ stop. Faults stop (λ f. atom_fault sign atom.now at ≡ Some f)) }
{
    match atom {
        Atom::Truth(_) => Ok(()),
        Atom::Local { .. } => Err(fault(FormulaCode::NotRegular, at)),
        Atom::Watch { .. } => Ok(()),
        Atom::InTransit {
            sender,
            receiver,
            compare,
            k,
        } => match after_sign(sign, *compare) {
            Compare::Ne => Err(fault(FormulaCode::NotRegular, at)),
            turned => Ok(push_bounds(alloc, sender, receiver, turned, *k, parts)?),
        },
        Atom::Empty { sender, receiver } => {
            Ok(parts.push(emptiness(alloc, sign, sender, receiver)?)?)
        }
        Atom::Difference {
            left_process,
            left,
            right_process,
            right,
            compare,
            k,
        } => {
            let turned = judge_difference(sign, left_process, right_process, *compare, at)?;
            Ok(push_difference(
                alloc,
                left_process,
                left,
                right_process,
                right,
                turned,
                *k,
                parts,
            )?)
        }
    }
}

/// The comparison of a difference after the sign, where that is of two processes and no `!=`.
fn judge_difference(
    sign: bool,
    left_process: &Place,
    right_process: &Place,
    compare: Compare,
    at: u32,
) -> Result<Compare, Stop>
    ensures { MatchResult result (λ turned. (are_bounded sign left_process.now.name
        right_process.now.name (relation_of compare) ≡ true)
        × (relation_of turned ≡ turned_by sign (relation_of compare))) (λ stop. Faults stop (λ f.
        (are_bounded sign left_process.now.name right_process.now.name (relation_of compare)
        ≡ false) × (f ≡ record { code = NotRegular; place = at }))) }
{
    if left_process.name.as_bytes() == right_process.name.as_bytes() {
        return Err(fault(FormulaCode::NotRegular, at));
    }
    match after_sign(sign, compare) {
        Compare::Ne => Err(fault(FormulaCode::NotRegular, at)),
        turned => Ok(turned),
    }
}

/// Lets an operator pass that is not negated.
fn judge_sign(sign: bool, at: u32) -> Result<(), Stop>
    ensures { MatchResult result (λ _. negated_fault sign at ≡ None)
        (λ stop. Faults stop (λ f. negated_fault sign at ≡ Some f)) }
{
    if sign {
        return Ok(());
    }
    Err(fault(FormulaCode::NotRegular, at))
}

/// Lets an operator pass that is analysed and not negated.
fn judge(sign: bool, operator: Operator, at: u32) -> Result<(), Stop>
    ensures { MatchResult result (λ _. operator_fault sign operator at ≡ None)
        (λ stop. Faults stop (λ f. operator_fault sign operator at ≡ Some f)) }
{
    match operator {
        Operator::Ef | Operator::Ag | Operator::Eg => judge_sign(sign, at),
        Operator::Af => Err(fault(FormulaCode::OutsideClass(Outside::Af), at)),
        Operator::Ex(_) | Operator::Ax => Err(fault(FormulaCode::OutsideClass(Outside::Ax), at)),
    }
}

fn until_code(all: bool) -> Outside
    ensures { result ≡ until_code all }
{
    if all { Outside::Au } else { Outside::Eu }
}

/// Appends the parts of the members of a conjunction.
#[cycle(inside)]
fn conjunctions(
    alloc: Global,
    sign: bool,
    members: &[Tree],
    parts: &mut List<NamedPart>,
) -> Result<(), Stop>
    ensures { MatchResult result (λ _.
        (first_of true sign (nodes_of (map node_of members.now)) ≡ None) × (pieces_of parts.new
        ≡ pieces_of parts.old ++ all_parts sign (nodes_of (map node_of members.now)))) (λ stop.
        Faults stop (λ f. first_of true sign (nodes_of (map node_of members.now)) ≡ Some f)) }
{
    'members: for member in members {
        conjunction(alloc, sign, member, parts)?;
    }
    Ok(())
}

/// Appends the parts of a formula that has to be a conjunction of regular parts.
#[cycle(inside)]
#[tactic(auto, using(crate::proofs::Rules::named))]
fn conjunction(
    alloc: Global,
    sign: bool,
    tree: &Tree,
    parts: &mut List<NamedPart>,
) -> Result<(), Stop>
    ensures { MatchResult result
        (λ _. (first_fault true sign (node_of tree.now) ≡ None)
        × (pieces_of parts.new ≡ pieces_of parts.old ++ parts_from sign (node_of tree.now)))
        (λ stop. Faults stop (λ f. first_fault true sign (node_of tree.now) ≡ Some f)) }
{
    if let Some(part) = local_part(alloc, sign, tree)? {
        return Ok(parts.push(part)?);
    }
    match tree {
        Tree::Leaf { atom, at } => push_leaf(alloc, sign, atom, *at, parts),
        Tree::Not { inner, .. } => conjunction(alloc, !sign, inner.get(), parts),
        Tree::And { members, .. } if sign => conjunctions(alloc, sign, members.as_slice(), parts),
        Tree::Or { members, .. } if !sign => conjunctions(alloc, sign, members.as_slice(), parts),
        Tree::And { at, .. } => Err(fault(FormulaCode::DisjunctionInside, *at)),
        Tree::Or { at, .. } => Err(fault(FormulaCode::DisjunctionInside, *at)),
        Tree::Temporal {
            operator,
            inner,
            at,
        } => {
            judge(sign, *operator, *at)?;
            let mut operand = List::new(alloc);
            conjunction(alloc, true, inner.get(), &mut operand)?;
            Ok(parts.push(NamedPart::Temporal {
                operator: *operator,
                parts: operand,
            })?)
        }
        Tree::Next { process, inner, at } => {
            judge_sign(sign, *at)?;
            let mut operand = List::new(alloc);
            conjunction(alloc, true, inner.get(), &mut operand)?;
            Ok(parts.push(NamedPart::Next {
                process: copy_place(alloc, process)?,
                parts: operand,
            })?)
        }
        Tree::Until { all, at, .. } => {
            Err(fault(FormulaCode::OutsideClass(until_code(*all)), *at))
        }
    }
}

/// Appends the one disjunct that a conjunction of regular parts is.
fn single(
    alloc: Global,
    sign: bool,
    tree: &Tree,
    disjuncts: &mut List<List<NamedPart>>,
) -> Result<(), Stop>
    ensures { MatchResult result
        (λ _. (first_fault true sign (node_of tree.now) ≡ None)
        × (disjuncts_of disjuncts.new
        ≡ disjuncts_of disjuncts.old ++ parts_from sign (node_of tree.now) ∷ []))
        (λ stop. Faults stop (λ f. first_fault true sign (node_of tree.now) ≡ Some f)) }
{
    let mut parts = List::new(alloc);
    conjunction(alloc, sign, tree, &mut parts)?;
    Ok(disjuncts.push(parts)?)
}

/// Appends the one disjunct of one part.
fn push_part(
    alloc: Global,
    part: NamedPart,
    disjuncts: &mut List<List<NamedPart>>,
) -> Result<(), NoMemory>
    ensures { OnOk result (disjuncts_of disjuncts.new
        ≡ disjuncts_of disjuncts.old ++ (piece_of part ∷ []) ∷ []) }
{
    let mut parts = List::new(alloc);
    parts.push(part)?;
    disjuncts.push(parts)
}

/// Appends the disjuncts of the members of a disjunction.
#[cycle(outside)]
fn disjunctions(
    alloc: Global,
    sign: bool,
    members: &[Tree],
    disjuncts: &mut List<List<NamedPart>>,
) -> Result<(), Stop>
    ensures { MatchResult result (λ _.
        (first_of false sign (nodes_of (map node_of members.now)) ≡ None) × (disjuncts_of
        disjuncts.new ≡ disjuncts_of disjuncts.old ++ all_disjuncts sign
        (nodes_of (map node_of members.now)))) (λ stop. Faults stop (λ f. first_of false sign
        (nodes_of (map node_of members.now)) ≡ Some f)) }
{
    'members: for member in members {
        disjunction(alloc, sign, member, disjuncts)?;
    }
    Ok(())
}

/// Appends the disjuncts of a formula.
#[cycle(outside)]
#[tactic(auto, using(crate::proofs::Rules::named))]
pub fn disjunction(
    alloc: Global,
    sign: bool,
    tree: &Tree,
    disjuncts: &mut List<List<NamedPart>>,
) -> Result<(), Stop>
    ensures { MatchResult result
        (λ _. (first_fault false sign (node_of tree.now) ≡ None)
        × (disjuncts_of disjuncts.new
        ≡ disjuncts_of disjuncts.old ++ disjuncts_from sign (node_of tree.now)))
        (λ stop. Faults stop (λ f. first_fault false sign (node_of tree.now) ≡ Some f)) }
{
    if let Some(part) = local_part(alloc, sign, tree)? {
        return Ok(push_part(alloc, part, disjuncts)?);
    }
    match tree {
        Tree::Not { inner, .. } => disjunction(alloc, !sign, inner.get(), disjuncts),
        Tree::And { members, .. } if !sign => {
            disjunctions(alloc, sign, members.as_slice(), disjuncts)
        }
        Tree::Or { members, .. } if sign => {
            disjunctions(alloc, sign, members.as_slice(), disjuncts)
        }
        Tree::And { .. } => single(alloc, sign, tree, disjuncts),
        Tree::Or { .. } => single(alloc, sign, tree, disjuncts),
        Tree::Leaf { .. } => single(alloc, sign, tree, disjuncts),
        Tree::Temporal { .. } => single(alloc, sign, tree, disjuncts),
        Tree::Next { .. } => single(alloc, sign, tree, disjuncts),
        Tree::Until { .. } => single(alloc, sign, tree, disjuncts),
    }
}
