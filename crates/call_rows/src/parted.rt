//! Runs from the logs of their processes: the log of a run is taken apart by process, and read
//! merged it must give what the run gives.

use pota_base::Status;
use row_cases::{Case, judge};
use std::alloc::{AllocError, Global};
use std::thread::Threads;

/// More than the reports of any of the runs take.
const ROOM: usize = 65_536;

/// In which order the logs of the processes come.
#[derive(Clone, Copy, PartialEq, Eq)]
pub enum Order {
    AsNamed,
    /// Last to first, and byte by byte.
    Reversed,
}

// The process that a line of a log is of; the lines of no process are those of all.
fn process_of(line: &str) -> Option<&str> {
    let (keyword, behind) = line.split_once(' ')?;
    if keyword != "vars" && keyword != "ev" {
        return None;
    }
    let (name, _) = behind.split_once(' ')?;
    Some(name)
}

// Appends the log of one process: the lines of the log but for those of other processes.
fn put_part(parts: &mut String, log: &str, name: &str) -> Result<(), AllocError> {
    for line in log.lines() {
        if process_of(line).unwrap_or(name) == name {
            parts.push_str(line)?;
            parts.push('\n')?;
        }
    }
    Ok(())
}

// The names of the log's processes, with a blank between them.
fn processes(log: &str) -> &str {
    for line in log.lines() {
        if let Some(names) = line.strip_prefix("procs ") {
            return names;
        }
    }
    ""
}

// The logs of all processes of the log, one behind the other.
fn parts_of(alloc: Global, log: &str, order: Order) -> Result<String, AllocError> {
    let mut names = Vec::new(alloc);
    for name in processes(log).split_whitespace() {
        names.push(name)?;
    }
    if order == Order::Reversed {
        names.reverse();
    }
    let mut parts = String::new(alloc);
    for name in names {
        put_part(&mut parts, log, name)?;
    }
    Ok(parts)
}

// The last of the reports, as that of the first batch.
fn last_report(alloc: Global, reports: &str) -> Result<String, AllocError> {
    let mut last = String::new(alloc);
    for line in reports.lines() {
        if line == "pota-report 1" {
            last.clear();
        }
        let is_batch = line.starts_with("batch ");
        last.push_str(if is_batch { "batch 1" } else { line })?;
        last.push('\n')?;
    }
    Ok(last)
}

fn has_word(case: &Case, asked: &str) -> bool {
    for word in &case.words {
        if word.as_str() == asked {
            return true;
        }
    }
    false
}

/// Whether the case gives a verdict on one log that is read.
pub fn is_run(case: &Case) -> bool {
    let is_true = case.status == Some(Status::True.code());
    let is_verdict = is_true || case.status == Some(Status::False.code());
    if !is_verdict || has_word(case, "--merged") {
        return false;
    }
    has_word(case, "check") && case.text().starts_with(b"pota-log ")
}

// The case of the same run from the logs of its processes.
fn case_of_parts(alloc: Global, case: &Case, order: Order) -> Result<Case, AllocError> {
    let mut parted = Case::new(alloc);
    for word in &case.words {
        if word.as_str() != "--each-batch" {
            parted.words.push(word.clone()?)?;
        }
    }
    parted.words.push(String::from_str(alloc, "--merged")?)?;
    let log = String::from_utf8_lossy(alloc, case.text())?;
    parted.log = parts_of(alloc, log.as_str(), order)?.into_bytes();
    if order == Order::Reversed {
        parted.pieces.push(1)?;
    }
    parted.room = ROOM;
    parted.status = case.status;
    parted.batches = 1;
    let reports = String::from_utf8_lossy(alloc, case.report())?;
    parted.report = last_report(alloc, reports.as_str())?.into_bytes();
    Ok(parted)
}

/// What comes out of the run from the logs of its processes otherwise than it must.
///
/// # Errors
///
/// Where there is no memory.
pub fn differs_parted<R: Threads + Sync>(
    rt: &R,
    alloc: Global,
    case: &Case,
    order: Order,
) -> Result<Option<String>, AllocError> {
    let parted = case_of_parts(alloc, case, order)?;
    judge(rt, alloc, &parted)
}
