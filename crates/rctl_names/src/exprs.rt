//! Local expressions with numbers in the place of names.
ghost use Rattle.rctl_class.specs.NamedParts.{expr_of as named_of, exprs as named_list};
ghost use Rattle.rctl_names.specs.inside.Numbers.{all_local_names, local_names, side_fault};
ghost use Rattle.rctl_names.specs.Resolving.{side_in};
ghost use Rattle.rctl_names.specs.inside.Resolving.{AreExprsIn, IsExprIn, fault_on};
ghost use Rattle.rctl_names.specs.inside.Seen.{variables_on};
ghost use Rattle.rctl_parse.specs.Reading.{Faults};
ghost use Rattle.rctl_parts.specs.Exprs.{expr_of, exprs};
ghost use Rattle.std.specs.Prelude.{◌≡◌, map, MatchResult, None, Some};

use crate::numbers::{variable_number, watch_number};
use crate::process::Process;
use crate::watches::Watches;
use pota_base::List;
use rctl_class::{NamedExpr, NamedSide, Stop};
use rctl_grammar::Boxed;
use rctl_parts::{LocalExpr, LocalSide};
use std::alloc::Global;

fn resolve_side(on: &Process, side: &NamedSide) -> Result<LocalSide, Stop>
    ensures { MatchResult result
        (λ made. (side_fault (variables_on on.now) side.now ≡ None)
        × (made ≡ side_in (variables_on on.now) side.now))
        (λ stop. Faults stop (λ f. side_fault (variables_on on.now) side.now ≡ Some f)) }
{
    match side {
        NamedSide::Number(value) => Ok(LocalSide::Number(*value)),
        NamedSide::Variable(variable) => {
            Ok(LocalSide::Variable(variable_number(on.variables, variable)?))
        }
    }
}

/// The members of an expression, one after the other.
#[cycle(expr)]
fn resolve_exprs(
    alloc: Global,
    on: &Process,
    watches: &mut Watches,
    members: &[NamedExpr],
) -> Result<List<LocalExpr>, Stop>
    ensures { MatchResult result
        (λ made. AreExprsIn on.now watches.old watches.new
        (named_list (map named_of members.now)) (exprs (map expr_of made)))
        (λ stop. Faults stop (λ f. fault_on on.now watches.old
        (all_local_names (named_list (map named_of members.now))) ≡ Some f)) }
{
    let mut made = List::new(alloc);
    'members: for member in members {
        made.push(resolve_expr(alloc, on, watches, member)?)?;
    }
    Ok(made)
}

/// The expression over the states of the process. `Fault` is the first name that is no variable of
/// it and no watch, or a watch that stands on another process.
#[cycle(expr)]
#[tactic(auto, using(crate::proofs::Rules::exprs))]
pub fn resolve_expr(
    alloc: Global,
    on: &Process,
    watches: &mut Watches,
    expr: &NamedExpr,
) -> Result<LocalExpr, Stop>
    ensures { MatchResult result
        (λ made. IsExprIn on.now watches.old watches.new (named_of expr.now) (expr_of made))
        (λ stop. Faults stop
        (λ f. fault_on on.now watches.old (local_names (named_of expr.now)) ≡ Some f)) }
{
    match expr {
        NamedExpr::Truth(value) => Ok(LocalExpr::Truth(*value)),
        NamedExpr::Compare {
            left,
            compare,
            side,
        } => Ok(LocalExpr::Compare {
            left: variable_number(on.variables, left)?,
            compare: *compare,
            side: resolve_side(on, side)?,
        }),
        NamedExpr::Watch { watch } => Ok(LocalExpr::Watch {
            watch: watch_number(watches, watch, on.number)?,
        }),
        NamedExpr::Not(inner) => {
            let inner = resolve_expr(alloc, on, watches, inner.get())?;
            Ok(LocalExpr::Not(Boxed::new(alloc, inner)?))
        }
        NamedExpr::And(members) => {
            Ok(LocalExpr::And(resolve_exprs(alloc, on, watches, members.as_slice())?))
        }
        NamedExpr::Or(members) => {
            Ok(LocalExpr::Or(resolve_exprs(alloc, on, watches, members.as_slice())?))
        }
    }
}
