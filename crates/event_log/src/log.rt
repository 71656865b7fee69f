//! A log as values: names of processes and variables are numbers, from 0 in the order of the
//! header.

use log_lines::{Name, Named};
use pota_base::List;

/// A variable of a process, with the value that it has in the initial state.
#[derive(Debug, Drop)]
pub struct Binding {
    pub name: Name,
    pub value: i64,
}

impl Named for Binding {
    ghost name = { λ b. b.name };

    fn name(&self) -> &[u8] {
        self.name.as_bytes()
    }
}

/// The processes of a run in their order, and the variables of each one.
#[derive(Debug, Drop)]
pub struct Header {
    /// The version of the log's text, 1 or 2. In version 2 a clock may be left out.
    pub version: u32,
    pub procs: List<Name>,
    /// One list for each process.
    pub vars: List<List<Binding>>,
    /// For each process the line of the log that spells its variables, counted from 1, and 0 where
    /// there is none. It has no part in what the log says.
    pub var_lines: List<u32>,
}

/// What an event does beside its assignments.
#[derive(Clone, Copy, Debug, PartialEq, Eq)]
pub enum Kind {
    Internal,
    /// It sends message `id` to process `to`.
    Send { to: u32, id: u64 },
    /// It receives message `id` of process `sender`.
    Receive { sender: u32, id: u64 },
}

/// The variable has this value from the event on.
#[derive(Clone, Copy, Debug, PartialEq, Eq)]
pub struct Assign {
    /// The number of the variable among those of the event's process.
    pub variable: u32,
    pub value: i64,
}

#[derive(Debug, Drop)]
pub struct Event {
    pub process: u32,
    /// The line of the log that spells it, counted from 1.
    pub line: u32,
    /// The vector clock: how many events of each process are this event or before it. It is empty
    /// where the log's text leaves it out.
    pub clock: List<u32>,
    pub kind: Kind,
    /// In the order of the log's text.
    pub assigns: List<Assign>,
}

/// A whole log. A log that was read has at least one batch; the last one was closed by the `end`
/// line.
#[derive(Debug, Drop)]
pub struct Log {
    pub header: Header,
    pub batches: List<List<Event>>,
}
