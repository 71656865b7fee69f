//! Reading the lines of a case.

use crate::case::{Case, WatchCase, WatchKind};
use std::alloc::{AllocError, Global};

fn put_line(to: &mut String, text: &str) -> Result<(), AllocError> {
    to.push_str(text)?;
    to.push('\n')
}

fn kind_of(word: &str) -> Option<WatchKind> {
    match word {
        "stable" => Some(WatchKind::Stable),
        "owing" => Some(WatchKind::Owing),
        "calm" => Some(WatchKind::Calm),
        "turning" => Some(WatchKind::Turning),
        _ => None,
    }
}

// `NAME KIND`; false where there is no such kind.
fn add_watch(alloc: Global, case: &mut Case, text: &str) -> Result<bool, AllocError> {
    let (name, word) = text.split_once(' ').unwrap_or((text, ""));
    let Some(kind) = kind_of(word) else {
        return Ok(false);
    };
    let name = String::from_str(alloc, name)?;
    case.watches.push(WatchCase { name, kind })?;
    Ok(true)
}

fn add_workers(case: &mut Case, text: &str) -> Result<bool, AllocError> {
    match text.parse::<u32>() {
        Ok(workers) => case.workers.push(workers)?,
        Err(_) => return Ok(false),
    }
    Ok(true)
}

// Takes a line; false where it could not be read.
fn take_line(
    alloc: Global,
    case: &mut Case,
    keyword: &str,
    text: &str,
) -> Result<bool, AllocError> {
    match keyword {
        "case" => case.name = String::from_str(alloc, text)?,
        "formula" => case.formula = String::from_str(alloc, text)?,
        "watch" => return add_watch(alloc, case, text),
        "log" => put_line(&mut case.log, text)?,
        "log-as-before" => case.log.push_str(case.earlier.as_str())?,
        "workers" => return add_workers(case, text),
        "cuttings" => case.cuttings = true,
        "tells" => put_line(&mut case.wanted, text)?,
        _ => return Ok(false),
    }
    Ok(true)
}

/// Adds to the case what the line says, or keeps the line as one that could not be read.
pub fn add_line(alloc: Global, case: &mut Case, line: &str) -> Result<(), AllocError> {
    if line.is_empty() || line.starts_with('#') {
        return Ok(());
    }
    let (keyword, text) = line.split_once(' ').unwrap_or((line, ""));
    if !take_line(alloc, case, keyword, text)? {
        case.unread = Some(String::from_str(alloc, line)?);
    }
    Ok(())
}
