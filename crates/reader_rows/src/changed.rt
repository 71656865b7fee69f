//! A section of one certificate, which is verified, cut short at each byte, and changed in each of
//! its lines. Behind the case stands a line for each change, in the order of `changes`: its name,
//! and what must come of it.

use crate::changes::changes_of;
use crate::parted::Parted;
use crate::run::{Reader, Setting, run};
use crate::verdict::judge;
use row_cases::Case;
use row_text::Tally;
use std::alloc::{AllocError, Global};
use std::io;

// What is told of the words and the text.
fn told(alloc: Global, case: &Case, text: &[u8], piece: usize) -> Result<String, AllocError> {
    let setting = Setting::new(case, piece)?;
    let words = case.words.as_slice();
    run(alloc, Reader::Verifier, words, text, &setting)?.answer(alloc)
}

// What was told, where it is otherwise than it must be.
fn other(alloc: Global, told: String, wanted: &str) -> Result<Option<String>, AllocError> {
    if told.as_str() == wanted {
        return Ok(None);
    }
    Ok(Some(format!(in alloc; "{told:?}, not {wanted:?}")?))
}

// Runs the case as it is.
fn judge_whole<R: Print>(rt: &R, alloc: Global, name: &str, case: &Case) -> io::Result<()> {
    let mut tally = Tally::new();
    let said = judge(alloc, Reader::Verifier, case)?;
    tally.count(rt, case.name.as_str(), said)?;
    tally.print(rt, name, "cases")
}

// Cuts the input of the case short at each byte.
fn judge_fronts<R: Print>(
    rt: &R,
    alloc: Global,
    name: &str,
    case: &Case,
    parted: &Parted,
) -> io::Result<()> {
    let mut tally = Tally::new();
    let text = case.text();
    for len in 0..text.len() {
        let front = &text[..len];
        let wanted = parted.answer_of_front(alloc, front)?;
        let said = other(alloc, told(alloc, case, front, 64)?, wanted.as_str())?;
        let name = format!(in alloc; "cut short behind {len} bytes")?;
        tally.count(rt, name.as_str(), said)?;
    }
    tally.print(rt, name, "inputs cut short")
}

// Changes each line of the case's certificate. The text has a line for each change.
fn judge_changes<R: Print>(
    rt: &R,
    alloc: Global,
    name: &str,
    case: &Case,
    parted: &Parted,
    text: &str,
) -> io::Result<()> {
    let mut tally = Tally::new();
    let mut lines = Vec::new(alloc);
    for line in parted.certificate.as_str().lines() {
        lines.push(line)?;
    }
    let mut wanted = text.lines();
    for change in changes_of(alloc, lines.as_slice())? {
        let mut input = parted.log.clone()?;
        input.push_str(change.text(alloc, lines.as_slice())?.as_str())?;
        let told = told(alloc, case, input.as_str().as_bytes(), usize::MAX)?;
        let name = change.name(alloc)?;
        let came = format!(in alloc; "{name}: {}", told.as_str().trim_end())?;
        let said = other(alloc, came, wanted.next().unwrap_or(""))?;
        tally.count(rt, name.as_str(), said)?;
    }
    tally.print(rt, name, "changes")
}

// The case that the lines say.
fn case_of(alloc: Global, text: &str) -> Result<Case, AllocError> {
    let mut case = Case::new(alloc);
    for line in text.lines() {
        case.add_line(alloc, line)?;
    }
    Ok(case)
}

/// Runs the certificate of the section of this name.
pub fn judge_all<R: Print>(rt: &R, alloc: Global, name: &str, rows: &str) -> io::Result<()> {
    let (text, wanted) = rows.split_once("\nend\n\n").unwrap_or((rows, ""));
    let case = case_of(alloc, text)?;
    let parted = Parted::new(alloc, &case)?;
    judge_whole(rt, alloc, name, &case)?;
    judge_fronts(rt, alloc, name, &case, &parted)?;
    judge_changes(rt, alloc, name, &case, &parted, wanted)
}
