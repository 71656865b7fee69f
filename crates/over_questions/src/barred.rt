//! What a question over processes may not have.
ghost use Rattle.over_questions.specs.Barred.{barred_at, barred_disjuncts, barred_expr};
ghost use Rattle.over_questions.specs.Barred.{barred_exprs, barred_part, barred_parts, first};
ghost use Rattle.over_questions.specs.declared.barred.BarredKind.TheVariants as kind_is;
ghost use Rattle.rctl_class.specs.NamedParts.{disjuncts_of, expr_of, exprs, piece_of, pieces_of};
ghost use Rattle.std.specs.Prelude.{◌≡◌, map};

use pota_base::List;
use rctl_class::{NamedExpr, NamedPart};
use rctl_grammar::Place;

/// Which of the things it is that a question over processes may not have.
#[derive(Clone, Copy, Debug, PartialEq, Eq)]
pub enum BarredKind {
    /// A watch.
    Watch,
    /// A difference of variables.
    Difference,
}

/// One of them, and the byte of the formula at which it is, from 0.
#[derive(Clone, Copy, Debug, PartialEq, Eq)]
pub struct Barred {
    pub kind: BarredKind,
    pub place: u32,
}

// What is barred of this kind at a place.
fn barred_at(kind: BarredKind, place: &Place) -> Option<Barred>
    ensures { result ≡ barred_at kind place.now }
{
    Some(Barred {
        kind,
        place: place.at,
    })
}

// The first of two, which may be none.
fn first(one: Option<Barred>, other: Option<Barred>) -> Option<Barred>
    ensures { result ≡ first one other }
{
    match one {
        Some(_) => one,
        None => other,
    }
}

// The first watch of the members of an expression.
#[cycle(exprs)]
fn barred_exprs(members: &[NamedExpr]) -> Option<Barred>
    ensures { result ≡ barred_exprs (exprs (map expr_of members.now)) }
{
    let mut found = None;
    'members: for member in members {
        found = first(found, barred_expr(member));
    }
    found
}

// The first watch of an expression.
#[cycle(exprs)]
#[tactic(auto, using(rctl_class::proofs::Rules::named))]
fn barred_expr(expr: &NamedExpr) -> Option<Barred>
    ensures { result ≡ barred_expr (expr_of expr.now) }
{
    match expr {
        NamedExpr::Truth(_) => None,
        NamedExpr::Compare { .. } => None,
        NamedExpr::Watch { watch } => barred_at(BarredKind::Watch, watch),
        NamedExpr::Not(inner) => barred_expr(inner.get()),
        NamedExpr::And(members) => barred_exprs(members.as_slice()),
        NamedExpr::Or(members) => barred_exprs(members.as_slice()),
    }
}

// What is barred first of a part, or of its operand.
#[cycle(parts)]
#[tactic(auto, using(rctl_class::proofs::Rules::named, crate::proofs::Barring::operand_is))]
fn barred_part(part: &NamedPart) -> Option<Barred>
    ensures { result ≡ barred_part (piece_of part.now) }
{
    match part {
        NamedPart::Local { expr, .. } => barred_expr(expr),
        NamedPart::AtMost { .. } => None,
        NamedPart::AtLeast { .. } => None,
        NamedPart::Never { .. } => None,
        NamedPart::DiffAtMost { left_process, .. } => {
            barred_at(BarredKind::Difference, left_process)
        }
        NamedPart::DiffAtLeast { left_process, .. } => {
            barred_at(BarredKind::Difference, left_process)
        }
        NamedPart::Temporal { parts, .. } => barred_parts(parts.as_slice()),
        NamedPart::Next { parts, .. } => barred_parts(parts.as_slice()),
    }
}

// What is barred first of the parts of a conjunction.
#[cycle(parts)]
fn barred_parts(parts: &[NamedPart]) -> Option<Barred>
    ensures { result ≡ barred_parts (pieces_of parts.now) }
{
    let mut found = None;
    'parts: for part in parts {
        found = first(found, barred_part(part));
    }
    found
}

/// The first watch or difference of the disjuncts.
pub fn barred_in(disjuncts: &[List<NamedPart>]) -> Option<Barred>
    ensures { result ≡ barred_disjuncts (disjuncts_of disjuncts.now) }
{
    let mut found = None;
    'disjuncts: for disjunct in disjuncts {
        found = first(found, barred_parts(disjunct.as_slice()));
    }
    found
}
