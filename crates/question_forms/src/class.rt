//! Formulas that have to be regular, and negations.
ghost use Rattle.question_forms.specs.Taking.{negated, negation_fault, regular_fault};
ghost use Rattle.question_forms.specs.Taking.{regular_negation_fault};
ghost use Rattle.rctl_class.specs.Classed.{IsClassed};
ghost use Rattle.rctl_class.specs.NamedParts.{disjuncts_of};
ghost use Rattle.rctl_class.specs.Nodes.{IsWithinLimits, node_count, node_of};
ghost use Rattle.rctl_parse.specs.Reading.{Faults};
ghost use Rattle.std.specs.Prelude.{◌≡◌, nat_le, IfOk, MatchResult, None, Some};

use crate::nodes::{node_count, split_place};
use pota_base::NoMemory;
use rctl_class::{Classed, Stop, classify, fault};
use rctl_grammar::{Boxed, Formula, FormulaCode, Tree};
use std::alloc::Global;

/// The most nodes of a formula that may be negated: the negation is one node more.
const MOST_NEGATED: u32 = 63;

/// The one disjunct of a regular formula.
pub fn one_disjunct(alloc: Global, formula: &Formula) -> Result<Classed, Stop>
    requires { IsWithinLimits (node_of formula.now.tree) }
    ensures { MatchResult result
        (λ classed. (regular_fault (node_of formula.now.tree) ≡ None)
        × IsClassed (node_of formula.now.tree) (disjuncts_of classed.disjuncts))
        (λ stop. Faults stop (λ f. regular_fault (node_of formula.now.tree) ≡ Some f)) }
{
    let classed = classify(alloc, formula)?;
    if classed.disjuncts.len() == 1 {
        return Ok(classed);
    }
    Err(fault(FormulaCode::DisjunctionInside, split_place(&formula.tree)))
}

// The negation of the formula.
#[tactic(auto, using(rctl_class::proofs::Rules::nodes))]
fn negate(alloc: Global, formula: Formula) -> Result<Formula, NoMemory>
    ensures { IfOk result (λ made. node_of made.tree ≡ negated (node_of formula.tree)) }
{
    let Formula { tree } = formula;
    let inner = Boxed::new(alloc, tree)?;
    Ok(Formula {
        tree: Tree::Not { inner, at: 0 },
    })
}

// Whether the formula is small enough to be negated.
fn may_be_negated(formula: &Formula) -> bool
    requires { IsWithinLimits (node_of formula.now.tree) }
    ensures { result ≡ nat_le (node_count (node_of formula.now.tree)) 63 }
{
    node_count(&formula.tree) <= MOST_NEGATED
}

/// The disjuncts of the formula's negation.
pub fn negation(alloc: Global, formula: Formula) -> Result<Classed, Stop>
    requires { IsWithinLimits (node_of formula.tree) }
    ensures { MatchResult result
        (λ classed. (negation_fault (node_of formula.tree) ≡ None)
        × IsClassed (negated (node_of formula.tree)) (disjuncts_of classed.disjuncts))
        (λ stop. Faults stop (λ f. negation_fault (node_of formula.tree) ≡ Some f)) }
{
    if !may_be_negated(&formula) {
        drop(formula);
        return Err(fault(FormulaCode::TooManyNodes, 0));
    }
    let negated = negate(alloc, formula)?;
    let classed = classify(alloc, &negated);
    drop(negated);
    classed
}

/// The one disjunct of the formula's negation, where that is regular.
pub fn regular_negation(alloc: Global, formula: Formula) -> Result<Classed, Stop>
    requires { IsWithinLimits (node_of formula.tree) }
    ensures { MatchResult result
        (λ classed. (regular_negation_fault (node_of formula.tree) ≡ None)
        × IsClassed (negated (node_of formula.tree)) (disjuncts_of classed.disjuncts))
        (λ stop. Faults stop (λ f. regular_negation_fault (node_of formula.tree) ≡ Some f)) }
{
    if !may_be_negated(&formula) {
        drop(formula);
        return Err(fault(FormulaCode::TooManyNodes, 0));
    }
    let negated = negate(alloc, formula)?;
    let classed = one_disjunct(alloc, &negated);
    drop(negated);
    classed
}
