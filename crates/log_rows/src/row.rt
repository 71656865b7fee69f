//! A row: an input, and what must come out of it.

use row_text::{put_piece, word_of};
use std::alloc::{AllocError, Global};

/// A row as far as its lines came.
#[derive(Drop)]
pub struct Row {
    pub name: String,
    /// Whether it is one of `pota_ask`.
    pub asked: bool,
    pub words: Vec<String>,
    /// The input.
    pub input: Vec<u8>,
    /// Where the input is cut: each number of bytes from the first of these to that before the
    /// second.
    pub cut: Option<(usize, usize)>,
    /// Whether each read fails, and each write.
    pub fails: (bool, bool),
    /// What follows behind a cut.
    pub rest: Vec<u8>,
    /// What must be written.
    pub out: Vec<u8>,
    /// What must be told.
    pub diag: Vec<u8>,
    pub status: u8,
    /// A line that is none of a row.
    pub unread: Option<String>,
}

// Appends the line that the text stands for.
fn put_line(to: &mut Vec<u8>, text: &str) -> Result<(), AllocError> {
    put_piece(to, text)?;
    to.push(b'\n')?;
    Ok(())
}

// Two numbers, a blank between them.
fn two_numbers(text: &str) -> Option<(usize, usize)> {
    let (from, to) = text.split_once(' ')?;
    Some((from.parse::<usize>().ok()?, to.parse::<usize>().ok()?))
}

impl Row {
    /// A row of which nothing was said.
    pub fn new(alloc: Global) -> Row {
        Row {
            name: String::new(alloc),
            asked: false,
            words: Vec::new(alloc),
            input: Vec::new(alloc),
            cut: None,
            fails: (false, false),
            rest: Vec::new(alloc),
            out: Vec::new(alloc),
            diag: Vec::new(alloc),
            status: 0,
            unread: None,
        }
    }

    /// Takes the next line of the row.
    ///
    /// # Errors
    ///
    /// Where there is no memory.
    pub fn add_line(&mut self, alloc: Global, line: &str) -> Result<(), AllocError> {
        let (key, text) = line.split_once(' ').unwrap_or((line, ""));
        match key {
            "row" => self.name = String::from_str(alloc, text)?,
            "program" => self.asked = text == "pota_ask",
            "fails" => self.fails = (text == "read", text == "write"),
            "word" => match word_of(alloc, text)? {
                Some(word) => self.words.push(word)?,
                None => self.unread = Some(String::from_str(alloc, line)?),
            },
            "in" => put_line(&mut self.input, text)?,
            "cut" => self.cut = two_numbers(text),
            "rest" => put_line(&mut self.rest, text)?,
            "out" => put_line(&mut self.out, text)?,
            "diag" => put_line(&mut self.diag, text)?,
            "status" => self.status = text.parse::<u8>().unwrap_or(u8::MAX),
            _ => self.unread = Some(String::from_str(alloc, line)?),
        }
        Ok(())
    }
}
