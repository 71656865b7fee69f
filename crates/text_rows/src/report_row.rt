//! A row of reports: the text of one, and single bytes that are changed in it. Each line is a
//! keyword, and behind one space what it speaks of.
//!
//! ```text
//! line TEXT            one line more of the text of a report
//! fault PLACE BYTE N   this byte at this place makes it no report's, and N is the fault's line
//! report PLACE BYTE    this byte at this place makes it the text of another report
//! ```
//!
//! Places are counted from 0, lines from 1. The line of a fault is the first at which no report
//! goes on. The text of a row must be read, and what was read must be written as it stood. Cut
//! short behind any number of bytes it is no report's, and the fault is at the line of the cut.

use crate::report_reading::{Change, Reading, first_bad_cut, is_as_wanted, reading_of};
use std::alloc::{AllocError, Global};

// The text of a report, and single bytes that are changed in it.
#[derive(Drop)]
struct Row {
    text: String,
    changes: Vec<Change>,
    // The line that could not be read, if there is one.
    unread: Option<String>,
}

// The first word of a line, and what is behind it.
fn parted(line: &str) -> (&str, &str) {
    line.split_once(' ').unwrap_or((line, ""))
}

// `PLACE BYTE`, and what must come of reading the text with this byte.
fn change_of(line: &str, wanted: Reading) -> Option<Change> {
    let (place, byte) = parted(line);
    Some(Change {
        place: place.parse::<usize>().ok()?,
        byte: byte.parse::<u8>().ok()?,
        wanted,
    })
}

// `PLACE BYTE N`.
fn fault_of(line: &str) -> Option<Change> {
    let (change, fault) = line.rsplit_once(' ')?;
    change_of(change, Reading::Fault(fault.parse::<u64>().ok()?))
}

impl Row {
    // A row of which no line was read.
    fn new(alloc: Global) -> Row {
        Row {
            text: String::new(alloc),
            changes: Vec::new(alloc),
            unread: None,
        }
    }

    // Takes a change; false where the line says none.
    fn add_change(&mut self, change: Option<Change>) -> Result<bool, AllocError> {
        match change {
            Some(change) => {
                self.changes.push(change)?;
                Ok(true)
            }
            None => Ok(false),
        }
    }

    // Takes a line; false where it could not be read.
    fn take_line(&mut self, line: &str) -> Result<bool, AllocError> {
        let (keyword, rest) = parted(line);
        match keyword {
            "line" => {
                self.text.push_str(rest)?;
                self.text.push('\n')?;
                Ok(true)
            }
            "fault" => self.add_change(fault_of(rest)),
            "report" => self.add_change(change_of(rest, Reading::Same)),
            _ => Ok(false),
        }
    }

    // Adds to the row what the line says, or keeps the line as one that could not be read.
    fn add_line(&mut self, alloc: Global, line: &str) -> Result<(), AllocError> {
        if !self.take_line(line)? {
            self.unread = Some(String::from_str(alloc, line)?);
        }
        Ok(())
    }

    // The first change with which the text is read otherwise than it must be.
    fn first_bad_change(&self, alloc: Global) -> Result<Option<Change>, AllocError> {
        for change in self.changes.iter() {
            if !is_as_wanted(alloc, self.text.as_bytes(), *change)? {
                return Ok(Some(*change));
            }
        }
        Ok(None)
    }

    // What came otherwise than the row says, `None` where nothing did.
    fn judge(&self, alloc: Global) -> Result<Option<String>, AllocError> {
        if let Some(line) = &self.unread {
            return Ok(Some(format!(in alloc; "no such line: {}", line.as_str())?));
        }
        let text = self.text.as_bytes();
        if reading_of(alloc, text)? != Reading::Same {
            return Ok(Some(format!(in alloc; "not read and written as it stands")?));
        }
        if let Some(kept) = first_bad_cut(alloc, text)? {
            return Ok(Some(format!(in alloc; "cut short behind {} bytes", kept)?));
        }
        if let Some(change) = self.first_bad_change(alloc)? {
            return Ok(Some(format!(in alloc; "byte {} as {}", change.place, change.byte)?));
        }
        Ok(None)
    }
}

/// What came otherwise than the row with these lines says, `None` where nothing did.
pub fn judge(alloc: Global, lines: &[String]) -> Result<Option<String>, AllocError> {
    let mut row = Row::new(alloc);
    for line in lines {
        row.add_line(alloc, line.as_str())?;
    }
    row.judge(alloc)
}
