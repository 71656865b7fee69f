//! The session of a formula over a header.

ghost use Rattle.std.specs.Prelude.{◌≡◌, length, IfOk, IfSome};
ghost use Rattle.event_log.specs.States.{IsHeader};
ghost use Rattle.rctl_parts.specs.Pieces.{disjuncts_of as pieces_of};
ghost use Rattle.rctl_parts.specs.MadeFor.{AreMadeFor};
ghost use Rattle.rctl_class.specs.NamedParts.{AreDisjuncts, disjuncts_of};
ghost use Rattle.rctl_class.specs.Nodes.{IsWithinLimits, node_of};
ghost use Rattle.part_pulls.specs.Observing.{scope_seen};
ghost use Rattle.observation.specs.Growing.{opened_observed};

use event_log::Header;
use log_fitting::{has_few_variables, is_header};
use pota_base::{List, MOST_WATCHES, NoMemory, Refused};
use pota_names::Name;
use rctl_class::{Classed, classify, read_formulas_are_within_limits};
use rctl_names::resolve;
use rctl_parse::{Formula, parse};
use rctl_parts::Resolved;
use session::Session;
use std::alloc::Global;
use watch::Handed;

// The formula of a text, none where the text has a fault.
fn parsed(alloc: Global, text: &str) -> Result<Option<Formula>, NoMemory>
    ensures { IfOk result (λ o. IfSome o (λ formula. IsWithinLimits (node_of formula.tree))) }
{
    match parse(alloc, text.as_bytes()) {
        Ok(formula) => {
            read_formulas_are_within_limits();
            Ok(Some(formula))
        }
        Err(Refused::Fault(_)) => Ok(None),
        Err(Refused::NoMemory) => Err(NoMemory),
    }
}

// The disjuncts of a formula, none where it is not of the class.
fn disjuncts(alloc: Global, formula: &Formula) -> Result<Option<Classed>, NoMemory>
    requires { IsWithinLimits (node_of formula.now.tree) }
    ensures { IfOk result (λ o. IfSome o (λ c. AreDisjuncts (disjuncts_of c.disjuncts))) }
{
    match classify(alloc, formula) {
        Ok(classed) => Ok(Some(classed)),
        Err(Refused::Fault(_)) => Ok(None),
        Err(Refused::NoMemory) => Err(NoMemory),
    }
}

// The disjuncts of a text, none where it has a fault.
fn classed(alloc: Global, text: &str) -> Result<Option<Classed>, NoMemory>
    ensures { IfOk result (λ o. IfSome o (λ c. AreDisjuncts (disjuncts_of c.disjuncts))) }
{
    let Some(formula) = parsed(alloc, text)? else {
        return Ok(None);
    };
    let classed = disjuncts(alloc, &formula);
    drop(formula);
    classed
}

fn names_of(alloc: Global, watches: &[Handed]) -> Result<List<Name>, NoMemory> {
    let mut names = List::new(alloc);
    for handed in watches {
        names.push(handed.name.copy(alloc)?)?;
    }
    Ok(names)
}

// The formula by the numbers of the header and of these names, none where it has another name.
fn resolved_by(
    alloc: Global,
    classed: &Classed,
    header: &Header,
    names: &List<Name>,
) -> Result<Option<Resolved>, NoMemory>
    requires { AreDisjuncts (disjuncts_of classed.now.disjuncts) }
    ensures header { IfOk result (λ o. IfSome o (λ _. IsHeader header.now)) }
    ensures made { IfOk result (λ o. IfSome o (λ resolved. AreMadeFor
        (scope_seen (opened_observed header.now resolved.watch_process))
        (pieces_of resolved.disjuncts))) }
    ensures paired { IfOk result (λ o. IfSome o (λ resolved.
        length resolved.watch_process ≡ length names.now)) }
{
    if names.len() > MOST_WATCHES || !is_header(header) || !has_few_variables(header) {
        return Ok(None);
    }
    match resolve(alloc, classed, header, names) {
        Ok(resolved) => Ok(Some(resolved)),
        Err(Refused::Fault(_)) => Ok(None),
        Err(Refused::NoMemory) => Err(NoMemory),
    }
}

// The same of a text, none where it has a fault.
fn resolved(
    alloc: Global,
    formula: &str,
    header: &Header,
    watches: &[Handed],
) -> Result<Option<Resolved>, NoMemory>
    ensures header { IfOk result (λ o. IfSome o (λ _. IsHeader header.now)) }
    ensures made { IfOk result (λ o. IfSome o (λ resolved. AreMadeFor
        (scope_seen (opened_observed header.now resolved.watch_process))
        (pieces_of resolved.disjuncts))) }
    ensures paired { IfOk result (λ o. IfSome o (λ resolved.
        length resolved.watch_process ≡ length watches.now)) }
{
    let names = names_of(alloc, watches)?;
    let Some(classed) = classed(alloc, formula)? else {
        return Ok(None);
    };
    if names.len() != watches.len() {
        drop(classed);
        return Ok(None);
    }
    let resolved = resolved_by(alloc, &classed, header, &names);
    drop(classed);
    resolved
}

/// The session without batches, none where the formula or a name of it is not one.
pub fn session_of(
    alloc: Global,
    formula: &str,
    header: Header,
    watches: Vec<Handed>,
) -> Result<Option<Session>, NoMemory> {
    let Some(resolved) = resolved(alloc, formula, &header, watches.as_slice())? else {
        return Ok(None);
    };
    Ok(Some(Session::new(alloc, header, resolved, watches)?))
}
