//! A row of formulas: a text, and what reading and printing it must give. Each line is a keyword,
//! and behind one space what it speaks of.
//!
//! ```text
//! text TEXT                 the text of the row, or how it goes on
//! times N TEXT              it goes on with TEXT, N times
//! printed TEXT              it is read, and printed as TEXT, or the printed text goes on with TEXT
//! printed-times N TEXT      the printed text goes on with TEXT, N times
//! printed-as-it-stands      it is read, and printed as itself
//! fault CODE PLACE          it has this first fault, at this byte counted from 0
//! long printed TEXT         what the reading of long texts gives, where that is something else
//! long fault CODE PLACE
//! ```
//!
//! What is printed is also read again, and printed again as itself.

use crate::formula_verdict::judge_row;
use rctl_parse::{FormulaCode, FormulaFault};
use row_text::{put_piece, put_times};
use std::alloc::{AllocError, Global};

/// What reading a text must give.
#[derive(Drop)]
pub enum Wanted {
    /// A formula that is printed as the text.
    AsItStands,
    /// A formula that is printed as this.
    Printed(Vec<u8>),
    Fault(FormulaFault),
}

/// A text, and what reading it must give.
#[derive(Drop)]
pub struct Row {
    pub text: Vec<u8>,
    pub wanted: Option<Wanted>,
    /// What the reading of long texts must give, where that is something else.
    pub long: Option<Wanted>,
    /// The line that could not be read, if there is one.
    pub unread: Option<String>,
}

// The keyword of a line, and what is behind it.
fn parted(line: &str) -> (&str, &str) {
    line.split_once(' ').unwrap_or((line, ""))
}

fn code_of(word: &str) -> Option<FormulaCode> {
    match word {
        "token" => Some(FormulaCode::Token),
        "syntax" => Some(FormulaCode::Syntax),
        "number" => Some(FormulaCode::Number),
        "too-long" => Some(FormulaCode::TooLong),
        "too-deep" => Some(FormulaCode::TooDeep),
        "too-many-nodes" => Some(FormulaCode::TooManyNodes),
        _ => None,
    }
}

// The fault of a line `CODE PLACE`.
fn fault_of(line: &str) -> Option<Wanted> {
    let (word, place) = parted(line);
    let code = code_of(word)?;
    match place.parse::<u32>() {
        Ok(place) => Some(Wanted::Fault(FormulaFault { code, place })),
        Err(_) => None,
    }
}

// What is wanted after a line that goes on with the printed text: by a piece, or by one that stands
// there a number of times.
fn more_printed(
    alloc: Global,
    before: Option<Wanted>,
    piece: &str,
    many: bool,
) -> Result<Option<Wanted>, AllocError> {
    let mut text = match before {
        Some(Wanted::Printed(text)) => text,
        _ => Vec::new(alloc),
    };
    if many {
        let (count, piece) = parted(piece);
        put_times(&mut text, count, piece)?;
    } else {
        put_piece(&mut text, piece)?;
    }
    Ok(Some(Wanted::Printed(text)))
}

// What is wanted after the line, `None` where the line is none of these.
fn more_wanted(
    alloc: Global,
    before: Option<Wanted>,
    line: &str,
) -> Result<Option<Wanted>, AllocError> {
    let (keyword, rest) = parted(line);
    match keyword {
        "printed" => more_printed(alloc, before, rest, false),
        "printed-times" => more_printed(alloc, before, rest, true),
        "printed-as-it-stands" => Ok(Some(Wanted::AsItStands)),
        "fault" => Ok(fault_of(rest)),
        _ => Ok(None),
    }
}

impl Row {
    // A row of which no line was read.
    fn new(alloc: Global) -> Row {
        Row {
            text: Vec::new(alloc),
            wanted: None,
            long: None,
            unread: None,
        }
    }

    // Adds to the row what the line says, or keeps the line as one that could not be read.
    fn add_line(&mut self, alloc: Global, line: &str) -> Result<(), AllocError> {
        let (keyword, rest) = parted(line);
        let known = match keyword {
            "text" => {
                put_piece(&mut self.text, rest)?;
                true
            }
            "times" => {
                let (count, piece) = parted(rest);
                put_times(&mut self.text, count, piece)?
            }
            "long" => {
                self.long = more_wanted(alloc, self.long.take(), rest)?;
                self.long.is_some()
            }
            _ => {
                self.wanted = more_wanted(alloc, self.wanted.take(), line)?;
                self.wanted.is_some()
            }
        };
        if !known {
            self.unread = Some(String::from_str(alloc, line)?);
        }
        Ok(())
    }
}

/// What came otherwise than the row with these lines says, `None` where nothing did.
pub fn judge(alloc: Global, lines: &[String]) -> Result<Option<String>, AllocError> {
    let mut row = Row::new(alloc);
    for line in lines {
        row.add_line(alloc, line.as_str())?;
    }
    judge_row(alloc, &row)
}
