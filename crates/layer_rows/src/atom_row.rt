//! A row of atoms: a log, atoms of its run, and the pulls of each. Each line is a keyword, and
//! behind one space what it speaks of.
//!
//! ```text
//! log TEXT                               one line more of the log
//! atom at-most SENDER RECEIVER K         at most K messages are under way
//! atom at-least SENDER RECEIVER K        at least K are
//! atom compare PROCESS VARIABLE RELATION NUMBER
//! atom constant true|false
//! pull SOURCE -> TARGET: N N ..          the next pull of the atom, with its table
//! ```
//!
//! Processes and variables are numbers.

use crate::atom::pulls_of_line;
use crate::states::states_of;
use event_log::States;
use pull_system::Pull;
use std::alloc::{AllocError, Global};

// The lines of the log, and those behind it.
fn parted(alloc: Global, row: &[String]) -> Result<(String, String), AllocError> {
    let mut log = String::new(alloc);
    let mut atoms = String::new(alloc);
    for line in row {
        if let Some(text) = line.as_str().strip_prefix("log ") {
            log.push_str(text)?;
            log.push('\n')?;
        } else {
            atoms.push_str(line.as_str())?;
            atoms.push('\n')?;
        }
    }
    Ok((log, atoms))
}

// Appends a line for each of the pulls.
fn put_pulls(alloc: Global, text: &mut String, pulls: &[Pull]) -> Result<(), AllocError> {
    for pull in pulls {
        text.push_str(format!(in alloc; "pull {} -> {}:", pull.src, pull.dst)?.as_str())?;
        put_table(alloc, text, pull.table.as_slice())?;
    }
    Ok(())
}

// Appends the table and the end of the line.
fn put_table(alloc: Global, text: &mut String, table: &[u32]) -> Result<(), AllocError> {
    for entry in table {
        text.push_str(format!(in alloc; " {entry}")?.as_str())?;
    }
    text.push('\n')
}

// Each of the atoms with its pulls.
fn told(alloc: Global, states: &States, atoms: &str) -> Result<String, AllocError> {
    let mut text = String::new(alloc);
    for line in atoms.lines() {
        let Some(atom) = line.strip_prefix("atom ") else {
            continue;
        };
        text.push_str(line)?;
        text.push('\n')?;
        match pulls_of_line(alloc, states, atom)? {
            Some(pulls) => put_pulls(alloc, &mut text, pulls.as_slice())?,
            None => text.push_str("no atom of this run\n")?,
        }
    }
    Ok(text)
}

/// What came otherwise than the row with these lines says, `None` where nothing did.
pub fn judge(alloc: Global, row: &[String]) -> Result<Option<String>, AllocError> {
    let (log, atoms) = parted(alloc, row)?;
    let Some(states) = states_of(alloc, log.as_str().as_bytes())? else {
        return Ok(Some(format!(in alloc; "the log has a fault")?));
    };
    let came = told(alloc, &states, atoms.as_str())?;
    if came.as_str() == atoms.as_str() {
        return Ok(None);
    }
    Ok(Some(came))
}
