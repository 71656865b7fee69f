//! Reading what was printed.

ghost use Rattle.rctl_grammar.specs.Shape.{shape_of};
ghost use Rattle.rctl_print.specs.Canonical.{canonical};
ghost use Rattle.rctl_round_trip.specs.RoundTrip.{WasRead};
ghost use Rattle.std.specs.Prelude.{◌≡◌, ◌<◌, ◌≤◌, length, IfOk, MatchOption};
ghost use Rattle.pota_base.specs.Limits.{longest_formula};

use pota_base::{NoMemory, Refused};
use rctl_parse::{Formula, LONGEST_FORMULA, parse, parse_long, print};
use std::alloc::Global;

/// Prints a formula that was read, and reads what was printed: the same formula but for its places.
pub fn read_back(alloc: Global, formula: &Formula) -> Result<Formula, NoMemory>
    requires { WasRead formula.now.tree }
    ensures { IfOk result (λ again. shape_of again.tree ≡ shape_of formula.now.tree) }
{
    let text = print(alloc, formula)?;
    match parse_long(alloc, text.as_slice()) {
        Ok(again) => Ok(again),
        Err(Refused::NoMemory) => Err(NoMemory),
        Err(Refused::Fault(_)) => unreachable!(),
    }
}

/// The same by `parse`, and `None` exactly where what is printed has more than 4,096 bytes.
pub fn read_back_short(alloc: Global, formula: &Formula) -> Result<Option<Formula>, NoMemory>
    requires { WasRead formula.now.tree }
    ensures { let printed = canonical (shape_of formula.now.tree) in IfOk result
        (λ found. MatchOption found
        (longest_formula < length printed)
        (λ again. (length printed ≤ longest_formula)
        × (shape_of again.tree ≡ shape_of formula.now.tree))) }
{
    let text = print(alloc, formula)?;
    if text.len() > LONGEST_FORMULA {
        return Ok(None);
    }
    match parse(alloc, text.as_slice()) {
        Ok(again) => Ok(Some(again)),
        Err(Refused::NoMemory) => Err(NoMemory),
        Err(Refused::Fault(_)) => unreachable!(),
    }
}
