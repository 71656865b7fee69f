//! A row of requests: a command line or a log, and what must come of it. Each line is a keyword,
//! and behind one space what it speaks of.
//!
//! ```text
//! word TEXT                     one word more of a command line
//! refused                       the command line is refused
//! asks TEXT                     it asks for this, in the words of `asked` in src/asking.rt
//!
//! log SEED PROCS EVENTS         the log of these numbers, in which reading and checking find no
//!                               fault
//! line TEXT                     one line more of its text, where the lines are given
//! ```

use crate::asking::asked;
use crate::made_log::{Numbers, made_text};
use std::alloc::{AllocError, Global};

/// What must come of a row.
#[derive(Drop)]
enum Wanted {
    Refused,
    Asks(String),
    Log(Numbers),
}

/// A command line or a log, and what must come of it.
#[derive(Drop)]
struct Row {
    words: Vec<String>,
    wanted: Option<Wanted>,
    /// The text of the log, as far as it is given.
    text: String,
    /// The line that could not be read, if there is one.
    unread: Option<String>,
}

// The keyword of a line, and what is behind it.
fn parted(line: &str) -> (&str, &str) {
    line.split_once(' ').unwrap_or((line, ""))
}

// `SEED PROCS EVENTS`.
fn numbers_of(line: &str) -> Option<Numbers> {
    let (seed, rest) = parted(line);
    let (procs, events) = parted(rest);
    Some(Numbers {
        seed: seed.parse::<u64>().ok()?,
        procs: procs.parse::<u32>().ok()?,
        events: events.parse::<u32>().ok()?,
    })
}

// What differs, where what came isn't what must come.
fn difference(alloc: Global, came: &str, wanted: &str) -> Result<Option<String>, AllocError> {
    if came == wanted {
        return Ok(None);
    }
    Ok(Some(String::from_str(alloc, came)?))
}

impl Row {
    // A row of which no line was read.
    fn new(alloc: Global) -> Row {
        Row {
            words: Vec::new(alloc),
            wanted: None,
            text: String::new(alloc),
            unread: None,
        }
    }

    // Adds to the row what the line says, or keeps the line as one that could not be read.
    fn add_line(&mut self, alloc: Global, line: &str) -> Result<(), AllocError> {
        let (keyword, rest) = parted(line);
        match keyword {
            "word" => self.words.push(String::from_str(alloc, rest)?)?,
            "refused" => self.wanted = Some(Wanted::Refused),
            "asks" => self.wanted = Some(Wanted::Asks(String::from_str(alloc, rest)?)),
            "line" => {
                self.text.push_str(rest)?;
                self.text.push('\n')?;
            }
            "log" => self.wanted = numbers_of(rest).map(Wanted::Log),
            _ => self.unread = Some(String::from_str(alloc, line)?),
        }
        Ok(())
    }

    // What came otherwise than the row says, `None` where nothing did.
    fn judge(&self, alloc: Global) -> Result<Option<String>, AllocError> {
        if let Some(line) = &self.unread {
            return Ok(Some(format!(in alloc; "no such line: {}", line.as_str())?));
        }
        match &self.wanted {
            None => Ok(Some(format!(in alloc; "says nothing")?)),
            Some(Wanted::Refused) => {
                difference(
                    alloc,
                    asked(alloc, self.words.as_slice())?.as_str(),
                    "refused",
                )
            }
            Some(Wanted::Asks(wanted)) => {
                difference(
                    alloc,
                    asked(alloc, self.words.as_slice())?.as_str(),
                    wanted.as_str(),
                )
            }
            Some(Wanted::Log(numbers)) => {
                let made = made_text(alloc, numbers)?;
                if self.text.is_empty() && made.as_str().starts_with("pota-log 1\n") {
                    return Ok(None);
                }
                difference(alloc, made.as_str(), self.text.as_str())
            }
        }
    }
}

/// What came otherwise than the row with these lines says, `None` where nothing did.
pub fn judge(alloc: Global, row: &[String]) -> Result<Option<String>, AllocError> {
    let mut given = Row::new(alloc);
    for line in row {
        given.add_line(alloc, line.as_str())?;
    }
    given.judge(alloc)
}
