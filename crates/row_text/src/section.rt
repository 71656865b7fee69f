//! Sections of rows: the rows of one kind, one after another.

use crate::tally::Tally;
use std::alloc::{AllocError, Global};
use std::io;

/// What the rows of a section are.
pub trait RowKind: Copy {
    /// The kind of this name.
    fn named(word: &str) -> Option<Self>;

    /// Whether each line is a row. Else an empty line ends one.
    fn is_by_line(self) -> bool;

    /// What came otherwise than the row with these lines says, `None` where nothing did.
    ///
    /// # Errors
    ///
    /// Where there is no memory.
    fn judge(self, alloc: Global, row: &[String]) -> Result<Option<String>, AllocError>;
}

/// A section up to some line: how many of its rows came out as they must, and the lines of the row
/// that is open.
#[derive(Drop)]
pub struct Section<K> {
    kind: Option<K>,
    name: String,
    lines: u64,
    tally: Tally,
    row: Vec<String>,
}

impl<K: RowKind> Section<K> {
    fn new(alloc: Global, kind: Option<K>, name: String) -> Section<K> {
        Section {
            kind,
            name,
            lines: 0,
            tally: Tally::new(),
            row: Vec::new(alloc),
        }
    }

    /// What stands before the first section.
    pub fn none(alloc: Global) -> Section<K> {
        Section::new(alloc, None, String::new(alloc))
    }

    /// The section that the line begins, if it is such a line.
    ///
    /// # Errors
    ///
    /// Where there is no memory.
    pub fn headed(alloc: Global, line: &str) -> Result<Option<Section<K>>, AllocError> {
        let Some(heading) = line.strip_prefix("rows ") else {
            return Ok(None);
        };
        let (kind, name) = heading.split_once(' ').unwrap_or((heading, ""));
        let name = String::from_str(alloc, name)?;
        Ok(Some(Section::new(alloc, K::named(kind), name)))
    }

    // Counts the open row, and tells of it if it came out otherwise than it must.
    fn end_row<R: Print>(&mut self, rt: &R, alloc: Global) -> io::Result<()> {
        let Some(kind) = self.kind else {
            return Ok(());
        };
        if self.row.is_empty() {
            return Ok(());
        }
        let said = kind.judge(alloc, self.row.as_slice())?;
        let name = format!(in alloc; "{}, up to line {}", self.name.as_str(), self.lines)?;
        self.tally.count(rt, name.as_str(), said)?;
        self.row = Vec::new(alloc);
        Ok(())
    }

    /// Takes the next line.
    ///
    /// # Errors
    ///
    /// Where there is no memory, or what is to be told can't be printed.
    pub fn take_line<R: Print>(&mut self, rt: &R, alloc: Global, line: &str) -> io::Result<()> {
        self.lines = self.lines.saturating_add(1);
        if line.is_empty() {
            return self.end_row(rt, alloc);
        }
        if line.starts_with('#') {
            return Ok(());
        }
        self.row.push(String::from_str(alloc, line)?)?;
        match self.kind {
            Some(kind) if kind.is_by_line() => self.end_row(rt, alloc),
            _ => Ok(()),
        }
    }

    /// Ends the section, and tells how many of its rows came out as they must.
    ///
    /// # Errors
    ///
    /// Where there is no memory, or what is to be told can't be printed.
    pub fn finish<R: Print>(&mut self, rt: &R, alloc: Global) -> io::Result<()> {
        self.end_row(rt, alloc)?;
        if self.kind.is_some() {
            self.tally.print(rt, self.name.as_str(), "rows")?;
        }
        Ok(())
    }
}
