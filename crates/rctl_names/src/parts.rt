//! Parts with numbers in the place of names.
ghost use Rattle.rctl_class.specs.NamedParts.{disjuncts_of as named_disjuncts};
ghost use Rattle.rctl_class.specs.NamedParts.{expr_of as named_expr, local};
ghost use Rattle.rctl_class.specs.NamedParts.{pieces as named_operand};
ghost use Rattle.rctl_class.specs.NamedParts.{piece_of as named_of, pieces_of as named_list};
ghost use Rattle.rctl_names.specs.inside.Numbers.{disjuncts_fault, operand_fault, part_fault};
ghost use Rattle.rctl_names.specs.inside.Resolving.{AreDisjunctsIn, ArePiecesIn, IsPieceIn};
ghost use Rattle.rctl_names.specs.inside.Seen.{names_in, watched_in};
ghost use Rattle.rctl_parse.specs.Reading.{Faults};
ghost use Rattle.rctl_parts.specs.Pieces.{disjuncts_of, piece_of, pieces, pieces_of};
ghost use Rattle.std.specs.Prelude.{◌≡◌, MatchResult, None, Some};

use crate::exprs::resolve_expr;
use crate::numbers::process_number;
use crate::process::Process;
use crate::scope::Scope;
use crate::watches::Watches;
use crate::{channel, difference};
use pota_base::List;
use rctl_class::{NamedExpr, NamedPart, Stop};
use rctl_grammar::{Operator, Place};
use rctl_parts::Part;
use std::alloc::Global;

/// A local expression over the process that is named.
#[tactic(auto, using(crate::proofs::Rules::pieces))]
fn resolve_over(
    alloc: Global,
    scope: &Scope,
    watches: &mut Watches,
    place: &Place,
    expr: &NamedExpr,
) -> Result<Part, Stop>
    ensures { MatchResult result (λ made. IsPieceIn scope.now watches.old watches.new
        (local (Some place.now) (named_expr expr.now)) (piece_of made)) (λ stop. Faults stop (λ f.
        part_fault (names_in scope.now watches.old) (watched_in watches.old)
        (local (Some place.now) (named_expr expr.now)) ≡ Some f)) }
{
    let number = process_number(scope, place)?;
    let variables = scope.variables[number as usize].as_slice();
    let on = Process { number, variables };
    Ok(Part::Local {
        process: Some(number),
        expr: resolve_expr(alloc, &on, watches, expr)?,
    })
}

/// A local expression that names no process, so neither a variable nor a watch.
#[tactic(auto, using(crate::proofs::Rules::pieces))]
fn resolve_constant(
    alloc: Global,
    scope: &Scope,
    watches: &mut Watches,
    expr: &NamedExpr,
) -> Result<Part, Stop>
    ensures { MatchResult result (λ made. IsPieceIn scope.now watches.old watches.new
        (local None (named_expr expr.now)) (piece_of made)) (λ stop. Faults stop (λ f. part_fault
        (names_in scope.now watches.old) (watched_in watches.old) (local None (named_expr expr.now))
        ≡ Some f)) }
{
    let on = Process {
        number: 0,
        variables: &[],
    };
    Ok(Part::Local {
        process: None,
        expr: resolve_expr(alloc, &on, watches, expr)?,
    })
}

/// A local expression over the process that is named, or over none.
fn resolve_local(
    alloc: Global,
    scope: &Scope,
    watches: &mut Watches,
    process: &Option<Place>,
    expr: &NamedExpr,
) -> Result<Part, Stop>
    ensures { MatchResult result (λ made. IsPieceIn scope.now watches.old watches.new
        (local process.now (named_expr expr.now)) (piece_of made)) (λ stop. Faults stop (λ f.
        part_fault (names_in scope.now watches.old) (watched_in watches.old)
        (local process.now (named_expr expr.now)) ≡ Some f)) }
{
    match process {
        Some(place) => resolve_over(alloc, scope, watches, place, expr),
        None => resolve_constant(alloc, scope, watches, expr),
    }
}

/// The parts of a conjunction, one after the other.
#[cycle(part)]
fn resolve_parts(
    alloc: Global,
    scope: &Scope,
    watches: &mut Watches,
    parts: &[NamedPart],
) -> Result<List<Part>, Stop>
    ensures { MatchResult result (λ made. ArePiecesIn scope.now watches.old watches.new
        (named_operand (named_list parts.now)) (pieces (pieces_of made))) (λ stop. Faults stop (λ f.
        operand_fault (names_in scope.now watches.old) (watched_in watches.old)
        (named_operand (named_list parts.now)) ≡ Some f)) }
{
    let mut made = List::new(alloc);
    'parts: for part in parts {
        made.push(resolve_part(alloc, scope, watches, part)?)?;
    }
    Ok(made)
}

/// A part. `Fault` is the first of its names that is unknown, or a watch that stands on another
/// process.
#[cycle(part)]
#[tactic(auto, using(crate::proofs::Rules::pieces))]
fn resolve_part(
    alloc: Global,
    scope: &Scope,
    watches: &mut Watches,
    part: &NamedPart,
) -> Result<Part, Stop>
    ensures { MatchResult result
        (λ made. IsPieceIn scope.now watches.old watches.new (named_of part.now) (piece_of made))
        (λ stop. Faults stop
        (λ f. part_fault (names_in scope.now watches.old) (watched_in watches.old)
        (named_of part.now) ≡ Some f)) }
{
    match part {
        NamedPart::Local { process, expr } => resolve_local(alloc, scope, watches, process, expr),
        NamedPart::AtMost {
            sender,
            receiver,
            k,
        } => channel::at_most(scope, sender, receiver, *k),
        NamedPart::AtLeast {
            sender,
            receiver,
            k,
        } => channel::at_least(scope, sender, receiver, *k),
        NamedPart::Never { sender, receiver } => channel::never(scope, sender, receiver),
        NamedPart::DiffAtMost {
            left_process,
            left,
            right_process,
            right,
            k,
        } => difference::at_most(scope, left_process, left, right_process, right, *k),
        NamedPart::DiffAtLeast {
            left_process,
            left,
            right_process,
            right,
            k,
        } => difference::at_least(scope, left_process, left, right_process, right, *k),
        NamedPart::Temporal { operator, parts } => Ok(Part::Temporal {
            operator: *operator,
            parts: resolve_parts(alloc, scope, watches, parts.as_slice())?,
        }),
        NamedPart::Next { process, parts } => {
            let number = process_number(scope, process)?;
            let operand = resolve_parts(alloc, scope, watches, parts.as_slice())?;
            Ok(Part::Temporal {
                operator: Operator::Ex(number),
                parts: operand,
            })
        }
    }
}

/// The disjuncts, one after the other.
pub fn resolve_disjuncts(
    alloc: Global,
    scope: &Scope,
    watches: &mut Watches,
    disjuncts: &[List<NamedPart>],
) -> Result<List<List<Part>>, Stop>
    ensures { MatchResult result (λ made. AreDisjunctsIn scope.now watches.old watches.new
        (named_disjuncts disjuncts.now) (disjuncts_of made)) (λ stop. Faults stop (λ f.
        disjuncts_fault (names_in scope.now watches.old) (watched_in watches.old)
        (named_disjuncts disjuncts.now) ≡ Some f)) }
{
    let mut made = List::new(alloc);
    'disjuncts: for disjunct in disjuncts {
        made.push(resolve_parts(alloc, scope, watches, disjunct.as_slice())?)?;
    }
    Ok(made)
}
