//! What reading gives, and what is wrong with a text that is no log.

use crate::log::{Event, Header};
use pota_base::List;

/// What is wrong with a log, as its faults are named in the printed lines.
#[derive(Clone, Copy, Debug, PartialEq, Eq)]
pub enum LogCode {
    /// The first line is neither `pota-log 1` nor `pota-log 2`.
    BadHeader,
    /// The second line is no `procs` line.
    BadProcs,
    /// The line is none that may stand there.
    BadLine,
    /// A name of a process isn't in the `procs` line.
    UnknownProcess,
    /// An assigned variable is none of the acting process.
    UnknownVariable,
    /// The clock isn't left out, and has another number of components than there are processes.
    ClockWidth,
    /// The clock's own component isn't the event's position.
    ClockOwn,
    /// A component is less than that of the event before on the process.
    ClockBack,
    /// A component is greater than the number of events of its process.
    ClockDangling,
    /// The clock of an event that the clock names isn't within it.
    ClockOpen,
    /// An event that the clock names has the event in its own past.
    ClockLoop,
    /// The message was sent or received before.
    MessageTwice,
    /// The received message wasn't sent.
    ReceiveUnsent,
    /// The clock doesn't hold the send of the received message.
    ReceiveEarly,
    /// The peer is the acting process.
    SelfMessage,
    /// The input ended before the `end` line did.
    Truncated,
    /// A byte stands after the `end` line.
    Trailing,
    /// This is the 50,001st event.
    TooManyEvents,
    /// The line has more than 4,096 bytes.
    LineTooLong,
    /// The log has more than 67,108,864 bytes.
    LogTooLong,
    /// An assigned variable is lower than before, and stands in a difference of the formula.
    CounterFalls,
}

/// A fault and its line, counted from 1.
#[derive(Clone, Copy, Debug, PartialEq, Eq)]
pub struct LogFault {
    pub code: LogCode,
    pub line: u32,
}

/// A part of a log, in the order of the text.
#[derive(Debug, Drop)]
pub enum Item {
    /// All processes and variables. It comes before what the first line behind them gives.
    Header(Header),
    Event(Event),
    /// A `batch` line closed the batch of the events before it.
    BatchEnd,
    /// The `end` line closed the last batch.
    End,
}

/// What a piece of a log gives: the items that it completes, and the first fault among the bytes so
/// far.
#[derive(Debug, Drop)]
pub struct Fed {
    pub items: List<Item>,
    pub fault: Option<LogFault>,
}
