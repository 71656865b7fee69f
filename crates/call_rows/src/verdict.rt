//! Reading and running a case, and what it says.

use crate::reading::{first_fault, number_of};
use row_cases::Case;
use std::alloc::{AllocError, Global};
use std::thread::Threads;

// What reading and checking the log in such pieces finds otherwise than it must.
fn judge_piece(alloc: Global, case: &Case, piece: usize) -> Result<Option<String>, AllocError> {
    let found = match first_fault(alloc, case.text(), piece) {
        Ok(found) => found,
        Err(_) => return Err(AllocError),
    };
    let Some(fault) = found else {
        return Ok(Some(format!(in alloc; "no fault")?));
    };
    let number = number_of(fault.code);
    if number != case.fault || fault.line != case.line {
        return Ok(Some(format!(in alloc; "L{number} at line {}", fault.line)?));
    }
    Ok(None)
}

// The same for each of the case's pieces, where it speaks of a fault.
fn judge_reading(alloc: Global, case: &Case) -> Result<Option<String>, AllocError> {
    if case.fault == 0 {
        return Ok(None);
    }
    for piece in case.sizes(alloc)? {
        if let Some(said) = judge_piece(alloc, case, piece)? {
            return Ok(Some(format!(in alloc; "read in pieces of {piece}: {said}")?));
        }
    }
    Ok(None)
}

/// Reads and runs the case, and says what came out otherwise than it must.
pub fn judge<R: Threads + Sync>(
    rt: &R,
    alloc: Global,
    case: &Case,
) -> Result<Option<String>, AllocError> {
    match judge_reading(alloc, case)? {
        Some(said) => Ok(Some(said)),
        None => row_cases::judge(rt, alloc, case),
    }
}
