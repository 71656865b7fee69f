//! The reading of a text as a formula.

ghost use Rattle.pota_base.specs.declared.fault.Refused.TheVariants.{NoMemory as OutOfMemory};
ghost use Rattle.rctl_grammar.specs.FirstFault.{first_fault};
ghost use Rattle.rctl_grammar.specs.declared.tree.Tree.{Tree as TreeOf};
ghost use Rattle.rctl_parse.specs.Parsing.{fault_of_text, long_fault, IsReadAs, IsTreeOf};
ghost use Rattle.rctl_parse.specs.Reading.{Faults};
ghost use Rattle.std.specs.Prelude.{◌≡◌, ◌<◌, ◌≤◌, length, IfErr, IfOk, MatchResult};
ghost use Rattle.pota_base.specs.Limits.{longest_formula, longest_lexed};

use crate::around::{Around, Stop, fault, refused_here};
use crate::parser::{Part, formula};
pub use pota_base::LONGEST_FORMULA;
use pota_base::Refused;
use rctl_grammar::{End, Formula, FormulaCode, FormulaFault, Token};
use rctl_laws::lex;
use std::alloc::Global;

// The formula of these tokens.
fn formula_of(alloc: Global, tokens: &[Token], end: End) -> Result<Formula, Stop>
    ensures read { IfOk result (λ formula. IsTreeOf tokens.now end formula.tree) }
    ensures fault { IfErr result (λ stop. Faults stop (λ f. first_fault tokens.now end ≡ Some f)) }
{
    let around = Around {
        end,
        level: 0,
        nodes: 0,
    };
    let Part { tree, rest, .. } = formula(alloc, tokens, around)?;
    match (rest, end) {
        ([], End::Ends(_)) => Ok(Formula { tree }),
        _ => {
            drop(tree);
            Err(refused_here(rest, end))
        }
    }
}

/// Reads a formula of at most 65,536 bytes. `Fault` is its first fault, and never `TooLong`.
pub fn parse_long(alloc: Global, text: &[u8]) -> Result<Formula, Refused<FormulaFault>>
    requires { length text.now ≤ longest_lexed }
    ensures read { IfOk result (λ formula. IsReadAs text.now formula.tree) }
    ensures fault { IfErr result (λ stop. Faults stop (λ f. long_fault text.now ≡ Some f)) }
    ensures complete { (t : TreeOf) → IsReadAs text.now t
        → MatchResult result (λ formula. formula.tree ≡ t) (λ stop. stop ≡ OutOfMemory) }
{
    let lexed = lex(alloc, text)?;
    formula_of(alloc, lexed.tokens.as_slice(), lexed.end)
}

/// Reads a formula. `Fault` is its first fault: `TooLong` where it has more than 4,096 bytes, and
/// else the one with the least place.
pub fn parse(alloc: Global, text: &[u8]) -> Result<Formula, Refused<FormulaFault>>
    ensures read { IfOk result (λ formula. (length text.now ≤ longest_formula)
        × IsReadAs text.now formula.tree) }
    ensures fault { IfErr result (λ stop. Faults stop (λ f. fault_of_text text.now ≡ Some f)) }
    ensures complete { (t : TreeOf) → length text.now ≤ longest_formula → IsReadAs text.now t
        → MatchResult result (λ formula. formula.tree ≡ t) (λ stop. stop ≡ OutOfMemory) }
{
    if text.len() > LONGEST_FORMULA {
        return Err(fault(FormulaCode::TooLong, LONGEST_FORMULA as u32));
    }
    parse_long(alloc, text)
}
