//! The formula of a question.
ghost use Rattle.std.specs.Prelude.{MatchResult, ℕ, List};
ghost use Rattle.run_model.specs.Class.{IsOfClass};
ghost use Rattle.rctl_class.specs.Nodes.{formula_of, node_of};
ghost use Rattle.rctl_parse.specs.Reading.{Faults};
ghost use Rattle.stated_formula.specs.Stating.{IsShortText, IsStated, IsFormulaFault};
ghost use Rattle.stated_formula.specs.declared.formula.Stated.{Stated as StatedIs};

use pota_base::{Bytes, Refused};
use rctl_class::{Classed, classify};
use rctl_parse::{Formula, FormulaFault, parse, print};
use std::alloc::Global;

/// A formula of the class that is analysed.
#[derive(Debug, Drop)]
pub struct Stated {
    pub formula: Formula,
    /// The formula as a disjunction of conjunctions of regular parts.
    pub classed: Classed,
    /// Its canonical text.
    pub text: Bytes,
}

/// A stated formula is of the class.
pub fn stated_formulas_are_of_the_class()
    ensures { (text : List ℕ) (s : StatedIs) → IsStated text s
        → IsOfClass (formula_of (node_of s.formula.tree)) }
{}

// The formula, classified and printed.
fn state(alloc: Global, formula: Formula) -> Result<Stated, Refused<FormulaFault>>
    requires { (text : List ℕ) × IsShortText text formula.tree }
    ensures { (text : List ℕ) → IsShortText text formula.tree → MatchResult result (IsStated text)
        (λ stop. Faults stop (IsFormulaFault text)) }
{
    let classed = match classify(alloc, &formula) {
        Ok(classed) => classed,
        Err(refused) => {
            drop(formula);
            return Err(refused);
        }
    };
    match print(alloc, &formula) {
        Ok(text) => Ok(Stated {
            formula,
            classed,
            text,
        }),
        Err(_) => {
            drop(classed);
            drop(formula);
            Err(Refused::NoMemory)
        }
    }
}

/// Reads a formula of at most 4,096 bytes. `Fault` is its first fault: of its text, or else of its
/// class.
pub fn read_formula(alloc: Global, text: &[u8]) -> Result<Stated, Refused<FormulaFault>>
    ensures { MatchResult result (IsStated text.now)
        (λ stop. Faults stop (IsFormulaFault text.now)) }
{
    match parse(alloc, text) {
        Ok(formula) => state(alloc, formula),
        Err(refused) => Err(refused),
    }
}
