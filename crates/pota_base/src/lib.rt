//! What every crate of the analyser stands on: lists, the shape of a run, the outside, numbers, and
//! the answers of a call.
//!
//! A `List` is its items, and each call's list afterwards is a stated function of the list before.
//! `Shape` is its lengths; `row_of` is the row order, and `event_of` gives the event of each row
//! but row 0. Numbers are read exactly in their one spelling, and written so (`read_u64`,
//! `read_i64`, `put_u64`, `put_i64`). A `Source` and a `Sink` say which bytes were taken or put,
//! and that each failure has its cause in a count; `write_all` writes the whole or a prefix;
//! `MemSource` and `MemSink` meet them, and say exactly when they fail. What a run, a log and a
//! formula may be at most has a name each (`MOST_PROCESSES`, `LONGEST_LOG`).
//!
//! Not said: that memory suffices. Tests show that the calls succeed where it is ample.
#![tactic(auto)]

mod fault;
mod gate;
mod limits;
mod list;
mod memory;
mod number;
mod outside;
mod shape;
mod status;
mod steps;

pub use fault::{Failed, NoMemory, Refused};
pub use gate::{FreeGate, Gate};
pub use limits::{
    DEEPEST, LONGEST_CANONICAL, LONGEST_CERTIFICATE_LINE, LONGEST_FORMULA, LONGEST_KEPT,
    LONGEST_LEXED, LONGEST_LINE, LONGEST_LOG, LONGEST_NAME, LONGEST_QUESTION, LONGEST_READ,
    MOST_DISJUNCTS, MOST_EVENTS, MOST_INSTANCES, MOST_NODES, MOST_PARTS, MOST_PROCESSES,
    MOST_QUESTIONS, MOST_SOURCES, MOST_VARIABLES, MOST_WATCHES, MOST_WORKERS,
};
pub use list::{Bytes, List};
pub use memory::{MemSink, MemSource};
pub use number::{number_at, put_i64, put_u64, read_i64, read_u64, signed_at};
pub use outside::{Sink, Source, write_all};
pub use shape::{EventId, Shape};
pub use status::Status;
pub use steps::Steps;
