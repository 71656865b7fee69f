//! What classifying a text gives, in words.

use pota_base::Refused;
use rctl_class::{Classed, classify, read_formulas_are_within_limits};
use rctl_grammar::{FormulaCode, FormulaFault, Outside};
use rctl_parse::parse;
use std::alloc::{AllocError, Global};

fn outside_word(outside: Outside) -> &'static str {
    match outside {
        Outside::Af => "outside-af",
        Outside::Ax => "outside-ax",
        Outside::Eu => "outside-eu",
        Outside::Au => "outside-au",
    }
}

fn code_word(code: FormulaCode) -> &'static str {
    match code {
        FormulaCode::NotRegular => "not-regular",
        FormulaCode::DisjunctionInside => "disjunction-inside",
        FormulaCode::OutsideClass(outside) => outside_word(outside),
        _ => "unread",
    }
}

fn fault_text(alloc: Global, fault: FormulaFault) -> Result<String, AllocError> {
    Ok(format!(in alloc; "fault {} {}", code_word(fault.code), fault.place)?)
}

fn disjuncts_text(alloc: Global, classed: &Classed) -> Result<String, AllocError> {
    let mut text = String::from_str(alloc, "disjuncts")?;
    for disjunct in classed.disjuncts.as_slice() {
        text.push_str(" ")?;
        let count = format!(in alloc; "{}", disjunct.len())?;
        text.push_str(count.as_str())?;
    }
    Ok(text)
}

/// The first fault of the text, or how many parts each of its disjuncts has.
pub fn class_of(alloc: Global, text: &[u8]) -> Result<String, AllocError> {
    let formula = match parse(alloc, text) {
        Ok(formula) => formula,
        Err(Refused::Fault(fault)) => return fault_text(alloc, fault),
        Err(Refused::NoMemory) => return Err(AllocError),
    };
    read_formulas_are_within_limits();
    let text = match classify(alloc, &formula) {
        Ok(classed) => disjuncts_text(alloc, &classed),
        Err(Refused::Fault(fault)) => fault_text(alloc, fault),
        Err(Refused::NoMemory) => Err(AllocError),
    };
    drop(formula);
    text
}
