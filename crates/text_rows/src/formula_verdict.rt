//! Reading a row's text, and printing what was read.

ghost use Rattle.std.specs.Prelude.{◌≤◌, length};

use crate::formula_row::{Row, Wanted};
use pota_base::{LONGEST_LEXED, NoMemory, Refused};
use rctl_parse::{Formula, FormulaCode, FormulaFault, parse, parse_long, print};
use std::alloc::{AllocError, Global};

/// The most bytes that the common reading takes.
const LONGEST: usize = 4096;

// What a call gave, or want of memory.
fn made<T>(answer: Result<T, NoMemory>) -> Result<T, AllocError> {
    match answer {
        Ok(value) => Ok(value),
        Err(_) => Err(AllocError),
    }
}

// What is wrong with how the formula is printed.
fn judge_printed(
    alloc: Global,
    formula: &Formula,
    text: &[u8],
) -> Result<Option<String>, AllocError> {
    let printed = made(print(alloc, formula))?;
    if printed.as_slice() == text {
        return Ok(None);
    }
    let printed = String::from_utf8_lossy(alloc, printed.as_slice())?;
    Ok(Some(format!(in alloc; "printed {:?}", printed)?))
}

// What is wrong with the formula that a reading of the text gave.
fn judge_formula(
    alloc: Global,
    text: &[u8],
    formula: &Formula,
    wanted: &Wanted,
) -> Result<Option<String>, AllocError> {
    match wanted {
        Wanted::Fault(_) => Ok(Some(format!(in alloc; "read")?)),
        Wanted::AsItStands => judge_printed(alloc, formula, text),
        Wanted::Printed(printed) => judge_printed(alloc, formula, printed.as_slice()),
    }
}

// What is wrong with the fault that a reading gave.
fn judge_refused(
    alloc: Global,
    refused: Refused<FormulaFault>,
    wanted: &Wanted,
) -> Result<Option<String>, AllocError> {
    match (refused, wanted) {
        (Refused::NoMemory, _) => Err(AllocError),
        (Refused::Fault(found), Wanted::Fault(fault)) if *fault == found => Ok(None),
        (Refused::Fault(found), _) => Ok(Some(format!(in alloc; "{:?}", found)?)),
    }
}

// What is wrong with what a reading of the text gave.
fn judge_read(
    alloc: Global,
    text: &[u8],
    read: Result<Formula, Refused<FormulaFault>>,
    wanted: &Wanted,
) -> Result<Option<String>, AllocError> {
    match read {
        Ok(formula) => {
            let wrong = judge_formula(alloc, text, &formula, wanted);
            drop(formula);
            wrong
        }
        Err(refused) => judge_refused(alloc, refused, wanted),
    }
}

// What is wrong with what the common reading and the reading of long texts give.
fn judge_text(
    alloc: Global,
    text: &[u8],
    wanted: &Wanted,
    long: &Wanted,
) -> Result<Option<String>, AllocError> {
    if text.len() > LONGEST_LEXED {
        return Ok(Some(format!(in alloc; "too long for any reading")?));
    }
    let wrong = judge_read(alloc, text, parse(alloc, text), wanted)?;
    if wrong.is_some() {
        return Ok(wrong);
    }
    judge_read(alloc, text, parse_long(alloc, text), long)
}

// What is wrong with the reading of a text that was printed, which must be printed as itself.
fn judge_again(alloc: Global, printed: &[u8]) -> Result<Option<String>, AllocError> {
    if printed.len() <= LONGEST {
        return judge_text(alloc, printed, &Wanted::AsItStands, &Wanted::AsItStands);
    }
    let too_long = Wanted::Fault(FormulaFault {
        code: FormulaCode::TooLong,
        place: 4096,
    });
    judge_text(alloc, printed, &too_long, &Wanted::AsItStands)
}

/// What came out otherwise than the row says, `None` where nothing did.
pub fn judge_row(alloc: Global, row: &Row) -> Result<Option<String>, AllocError> {
    let Some(wanted) = &row.wanted else {
        return Ok(Some(format!(in alloc; "says nothing")?));
    };
    if let Some(line) = &row.unread {
        return Ok(Some(format!(in alloc; "no such line: {}", line.as_str())?));
    }
    let text = row.text.as_slice();
    let long = row.long.as_ref().unwrap_or(wanted);
    let wrong = judge_text(alloc, text, wanted, long)?;
    if wrong.is_some() {
        return Ok(wrong);
    }
    match long {
        Wanted::Fault(_) => Ok(None),
        Wanted::AsItStands => judge_again(alloc, text),
        Wanted::Printed(printed) => judge_again(alloc, printed.as_slice()),
    }
}
