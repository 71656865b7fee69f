//! What comes of reading a text, whole, cut short and with a byte changed.

use pota_base::{NoMemory, Refused};
use report::{read_report, write_report};
use std::alloc::{AllocError, Global};

/// What comes of reading a text.
#[derive(Clone, Copy, PartialEq, Eq)]
pub enum Reading {
    /// A report, which is written as the text that was read.
    Same,
    /// A report, which is written otherwise.
    Other,
    /// No report goes on at this line, from 1.
    Fault(u64),
}

/// A byte of the text that is another, and what must come of reading the text with it.
#[derive(Clone, Copy)]
pub struct Change {
    /// From 0.
    pub place: usize,
    pub byte: u8,
    pub wanted: Reading,
}

// What a call gave, or want of memory.
fn given<T>(answer: Result<T, NoMemory>) -> Result<T, AllocError> {
    match answer {
        Ok(value) => Ok(value),
        Err(_) => Err(AllocError),
    }
}

/// Reads the text, and where it is that of a report, writes the report again.
pub fn reading_of(alloc: Global, text: &[u8]) -> Result<Reading, AllocError> {
    let report = match read_report(alloc, text) {
        Ok(report) => report,
        Err(Refused::Fault(fault)) => return Ok(Reading::Fault(fault.line)),
        Err(Refused::NoMemory) => return Err(AllocError),
    };
    let written = given(write_report(alloc, &report))?;
    if written.as_slice() == text {
        Ok(Reading::Same)
    } else {
        Ok(Reading::Other)
    }
}

/// The least number of bytes that are read otherwise than they must be, where the text is that of a
/// report and is cut short behind them. `None` where there is no such number.
pub fn first_bad_cut(alloc: Global, text: &[u8]) -> Result<Option<usize>, AllocError> {
    let mut line = 1u64;
    for kept in 0..text.len() {
        if reading_of(alloc, &text[..kept])? != Reading::Fault(line) {
            return Ok(Some(kept));
        }
        if text[kept] == b'\n' {
            line = line.saturating_add(1);
        }
    }
    Ok(None)
}

/// Whether the text with the change is read as it must be. A place behind the text is none.
pub fn is_as_wanted(alloc: Global, text: &[u8], change: Change) -> Result<bool, AllocError> {
    if change.place >= text.len() {
        return Ok(false);
    }
    let mut changed = Vec::from_slice(alloc, text)?;
    changed[change.place] = change.byte;
    Ok(reading_of(alloc, &changed)? == change.wanted)
}
