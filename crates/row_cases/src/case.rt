//! One case: what goes in, and what must come out.

use std::alloc::{AllocError, Global};

/// What goes in, and what must come out.
#[derive(Drop)]
pub struct Case {
    pub name: String,
    pub words: Vec<String>,
    pub log: Vec<u8>,
    /// The log of the case before.
    pub earlier: Vec<u8>,
    pub cut: usize,
    /// The sizes of the pieces that the case is run over.
    pub pieces: Vec<usize>,
    /// The numbers of workers that it is run with beside its words.
    pub workers: Vec<String>,
    /// How often workers 1 and 2 enter, where they meet.
    pub meetings: Option<u32>,
    pub each_read: bool,
    pub each_write: bool,
    pub room: usize,
    pub log_fails: Vec<u64>,
    pub out_fails: Vec<u64>,
    pub diag_fails: Vec<u64>,
    /// The number of the fault of the log, 0 where reading is not tried.
    pub fault: u32,
    pub line: u32,
    /// None where the call is not tried.
    pub status: Option<u8>,
    pub batches: u32,
    pub report: Vec<u8>,
    pub written: usize,
    pub diag: Vec<u8>,
    /// The line that could not be read, if there is one.
    pub unread: Option<String>,
}

/// The room of a sink where the case speaks of none.
const ROOM: usize = 4096;

impl Case {
    /// A case of which nothing was said, behind one with this log.
    fn behind(alloc: Global, earlier: Vec<u8>) -> Case {
        Case {
            name: String::new(alloc),
            words: Vec::new(alloc),
            log: Vec::new(alloc),
            earlier,
            cut: 0,
            pieces: Vec::new(alloc),
            workers: Vec::new(alloc),
            meetings: None,
            each_read: false,
            each_write: false,
            room: ROOM,
            log_fails: Vec::new(alloc),
            out_fails: Vec::new(alloc),
            diag_fails: Vec::new(alloc),
            fault: 0,
            line: 0,
            status: None,
            batches: 0,
            report: Vec::new(alloc),
            written: usize::MAX,
            diag: Vec::new(alloc),
            unread: None,
        }
    }

    /// The first case, of which nothing was said.
    pub fn new(alloc: Global) -> Case {
        Case::behind(alloc, Vec::new(alloc))
    }

    /// The case behind this one, of which nothing was said.
    pub fn next(self, alloc: Global) -> Case {
        Case::behind(alloc, self.log)
    }

    /// The text of the log.
    pub fn text(&self) -> &[u8] {
        let len = self.log.len() - self.cut.min(self.log.len());
        &self.log[..len]
    }

    /// What must be written.
    pub fn report(&self) -> &[u8] {
        let report = self.report.as_slice();
        if self.written < report.len() {
            &report[..self.written]
        } else {
            report
        }
    }

    /// The most that a call of the source gives and one of the report's sink takes, in each run.
    ///
    /// # Errors
    ///
    /// Where there is no memory.
    pub fn sizes(&self, alloc: Global) -> Result<Vec<usize>, AllocError> {
        if self.pieces.is_empty() {
            return Vec::from_slice(alloc, &[usize::MAX]);
        }
        self.pieces.clone()
    }
}
