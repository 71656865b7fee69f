//! The formula of the words.
ghost use Rattle.std.specs.Prelude.{MatchResult, map, string_bytes};
ghost use Rattle.verify_answers.specs.Asking.{IsFormulaOf, IsMisasked};

use fault_line::Fault;
use pota_base::Refused;
use stated_formula::{Stated, read_formula};
use std::alloc::Global;

/// Reads the formula that the words are: one word, also where that begins with `-`.
pub fn read_words(alloc: Global, words: &[String]) -> Result<Stated, Fault>
    ensures { MatchResult result (IsFormulaOf (map string_bytes words.now))
        (IsMisasked (map string_bytes words.now)) }
{
    if words.len() != 1 {
        return Err(Fault::Usage);
    }
    match read_formula(alloc, words[0].as_bytes()) {
        Ok(stated) => Ok(stated),
        Err(Refused::Fault(fault)) => Err(Fault::Formula(fault)),
        Err(Refused::NoMemory) => Err(Fault::Memory),
    }
}
