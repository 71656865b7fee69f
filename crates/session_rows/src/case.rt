//! One case: what goes in, and what must be told.

use std::alloc::Global;
use std::mem;

/// What a watch answers.
#[derive(Clone, Copy)]
pub enum WatchKind {
    Stable,
    Owing,
    Calm,
    Turning,
}

/// A watch that is handed in.
#[derive(Drop)]
pub struct WatchCase {
    pub name: String,
    pub kind: WatchKind,
}

#[derive(Drop)]
pub struct Case {
    pub name: String,
    pub formula: String,
    pub watches: Vec<WatchCase>,
    pub log: String,
    /// The log of the case before.
    pub earlier: String,
    /// The numbers of workers that it is run with, each 1 to 16.
    pub workers: Vec<u32>,
    /// Whether the events are cut into batches in each way.
    pub cuttings: bool,
    /// What must be told.
    pub wanted: String,
    /// The line that could not be read, if there is one.
    pub unread: Option<String>,
}

impl Case {
    fn behind(alloc: Global, earlier: String) -> Case {
        Case {
            name: String::new(alloc),
            formula: String::new(alloc),
            watches: Vec::new(alloc),
            log: String::new(alloc),
            earlier,
            workers: Vec::new(alloc),
            cuttings: false,
            wanted: String::new(alloc),
            unread: None,
        }
    }

    /// The first case, of which nothing was said.
    pub fn new(alloc: Global) -> Case {
        Case::behind(alloc, String::new(alloc))
    }

    /// Makes it the case behind it, of which nothing was said.
    pub fn begin_next(&mut self, alloc: Global) {
        let log = mem::replace(&mut self.log, String::new(alloc));
        *self = Case::behind(alloc, log);
    }
}
