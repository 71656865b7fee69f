//! What one line says of a case.

use crate::Case;
use crate::generated::{put_alone, put_events, put_letters, put_names};
use row_text::{put_piece, word_of};
use std::alloc::{AllocError, Global};

fn put_line(to: &mut Vec<u8>, text: &str) -> Result<(), AllocError> {
    put_piece(to, text)?;
    to.push(b'\n')?;
    Ok(())
}

// Adds a word, if the piece stands for one.
fn add_word(alloc: Global, words: &mut Vec<String>, piece: &str) -> Result<bool, AllocError> {
    let Some(word) = word_of(alloc, piece)? else {
        return Ok(false);
    };
    words.push(word)?;
    Ok(true)
}

// Takes a line with text; false where the keyword is another.
fn add_text(alloc: Global, case: &mut Case, keyword: &str, text: &str) -> Result<bool, AllocError> {
    match keyword {
        "case" => case.name = String::from_str(alloc, text)?,
        "word" => return add_word(alloc, &mut case.words, text),
        "log" => put_line(&mut case.log, text)?,
        "report" => put_line(&mut case.report, text)?,
        "diag" => put_line(&mut case.diag, text)?,
        "workers" => case.workers.push(String::from_str(alloc, text)?)?,
        _ => return Ok(false),
    }
    Ok(true)
}

// Takes a line that is a keyword alone; false where it is another.
fn add_keyword(case: &mut Case, keyword: &str) -> Result<bool, AllocError> {
    match keyword {
        "pieces" => case.pieces.extend_from_slice(&[1, 7, 65_536])?,
        "each-read" => case.each_read = true,
        "each-write" => case.each_write = true,
        "log-as-before" => case.log.extend_from_slice(case.earlier.as_slice())?,
        _ => return Ok(false),
    }
    Ok(true)
}

// Takes a line that makes a part of the log; false where the keyword is another.
fn add_made(log: &mut Vec<u8>, keyword: &str, number: u32) -> Result<bool, AllocError> {
    match keyword {
        "letters" => put_letters(log, number)?,
        "names" => put_names(log, number)?,
        "events" => put_events(log, number)?,
        "alone" => put_alone(log, number)?,
        "byte" => log.push((number % 256) as u8)?,
        _ => return Ok(false),
    }
    Ok(true)
}

// Takes a line with a number that must come out; false where the keyword is another.
fn add_wanted(case: &mut Case, keyword: &str, number: u32) -> bool {
    match keyword {
        "fault" => case.fault = number,
        "line" => case.line = number,
        "status" => case.status = Some((number % 256) as u8),
        "batches" => case.batches = number,
        "written" => case.written = number as usize,
        "meetings" => case.meetings = Some(number),
        _ => return false,
    }
    true
}

// A word of so many spaces.
fn spaces(alloc: Global, count: u32) -> Result<String, AllocError> {
    let mut word = String::new(alloc);
    for _ in 0..count {
        word.push(' ')?;
    }
    Ok(word)
}

// Takes a line with a number of what goes in; false where the keyword is another.
fn add_given(
    alloc: Global,
    case: &mut Case,
    keyword: &str,
    number: u32,
) -> Result<bool, AllocError> {
    match keyword {
        "spaces" => case.words.push(spaces(alloc, number)?)?,
        "cut" => case.cut = number as usize,
        "piece" => case.pieces.push(number as usize)?,
        "room" => case.room = number as usize,
        "fail-log" => case.log_fails.push(u64::from(number))?,
        "fail-out" => case.out_fails.push(u64::from(number))?,
        "fail-diag" => case.diag_fails.push(u64::from(number))?,
        _ => return Ok(false),
    }
    Ok(true)
}

// Takes a line with a number; false where the keyword is another or no number stands there.
fn add_number(
    alloc: Global,
    case: &mut Case,
    keyword: &str,
    text: &str,
) -> Result<bool, AllocError> {
    let Ok(number) = text.parse::<u32>() else {
        return Ok(false);
    };
    if add_wanted(case, keyword, number) {
        return Ok(true);
    }
    if add_given(alloc, case, keyword, number)? {
        return Ok(true);
    }
    add_made(&mut case.log, keyword, number)
}

// Takes a line; false where it is none of the language.
fn add(alloc: Global, case: &mut Case, keyword: &str, text: &str) -> Result<bool, AllocError> {
    if add_text(alloc, case, keyword, text)? {
        return Ok(true);
    }
    if add_keyword(case, keyword)? {
        return Ok(true);
    }
    add_number(alloc, case, keyword, text)
}

impl Case {
    /// Adds to the case what the line says, or keeps the line as one that could not be read.
    ///
    /// # Errors
    ///
    /// Where there is no memory.
    pub fn add_line(&mut self, alloc: Global, line: &str) -> Result<(), AllocError> {
        if line.is_empty() || line.starts_with('#') {
            return Ok(());
        }
        let (keyword, text) = line.split_once(' ').unwrap_or((line, ""));
        if !add(alloc, self, keyword, text)? {
            self.unread = Some(String::from_str(alloc, line)?);
        }
        Ok(())
    }
}
