//! Formulas of the class that is decided, as disjunctions of conjunctions of regular parts, by the
//! names of processes, variables and watches.
//!
//! `classify` gives the disjuncts, or exactly the first fault: what is wrong with one node stands
//! in three tables, and nodes are judged before their members, members from left to right. Laws:
//! a formula has no fault exactly where it is of the class (`faultless_formulas_are_of_the_class`),
//! the disjuncts mean the formula (`disjuncts_mean_the_formula`), what a formula asks of a run is
//! that none of its counters falls (`counters_are_what_is_asked`), and what `classify` asks is so
//! of each formula that was read (`read_formulas_are_within_limits`). *Not said*: that memory
//! suffices.
#![tactic(auto)]

ghost use Rattle.rctl_class.specs.Classed.{IsClassed};
ghost use Rattle.rctl_class.specs.Faults.{first_fault};
ghost use Rattle.rctl_class.specs.NamedParts.{disjuncts_of};
ghost use Rattle.rctl_class.specs.Nodes.{IsWithinLimits, node_of};
ghost use Rattle.rctl_round_trip.specs.PassedOn.{Faults};
ghost use Rattle.std.specs.Prelude.{◌≡◌, false, MatchResult, Some, true};

mod channel;
mod difference;
mod laws;
mod local;
mod named;
mod stop;
mod walk;

pub use laws::{
    counters_are_what_is_asked, disjuncts_mean_the_formula, faultless_formulas_are_of_the_class,
    read_formulas_are_within_limits,
};
pub use named::{Classed, NamedExpr, NamedPart, NamedSide};
use pota_base::{List, Refused};
use rctl_grammar::{Formula, FormulaFault};
use std::alloc::Global;
pub use stop::{Stop, fault};

/// The disjuncts of the formula, each by its parts. `Fault` is its first fault, at the node:
/// `NotRegular` is a comparison of two processes, a difference within one process, messages under
/// way or a difference compared as unequal, or an operator, under a sign that no regular predicate
/// has (Garg and Mittal; Sen and Garg);
/// `DisjunctionInside` stands in a conjunction or in an operand; `OutsideClass` is an operator
/// that is not decided.
///
/// The condition is met by each formula that was read (`read_formulas_are_within_limits`).
pub fn classify(alloc: Global, formula: &Formula) -> Result<Classed, Refused<FormulaFault>>
    requires { IsWithinLimits (node_of formula.now.tree) }
    ensures { MatchResult result
        (λ classed. IsClassed (node_of formula.now.tree) (disjuncts_of classed.disjuncts))
        (λ stop. Faults stop (λ f. first_fault false true (node_of formula.now.tree) ≡ Some f)) }
{
    let mut disjuncts = List::new(alloc);
    walk::disjunction(alloc, true, &formula.tree, &mut disjuncts)?;
    Ok(Classed { disjuncts })
}
