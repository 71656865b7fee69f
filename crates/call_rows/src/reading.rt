//! Reading a log in pieces, and checking it.

use event_log::{Event, Fed, Header, Item, Log, LogCode, LogFault, Reader};
use log_fitting::can_be_checked;
use pota_base::{List, NoMemory, Refused};
use std::alloc::{AllocError, Global};
use vector_clock::check;

/// The number that the line of a fault has behind the `L`.
pub fn number_of(code: LogCode) -> u32 {
    match code {
        LogCode::BadHeader => 1,
        LogCode::BadProcs => 2,
        LogCode::BadLine => 3,
        LogCode::UnknownProcess => 4,
        LogCode::UnknownVariable => 5,
        LogCode::ClockWidth => 6,
        LogCode::ClockOwn => 7,
        LogCode::ClockBack => 8,
        LogCode::ClockDangling => 9,
        LogCode::ClockOpen => 10,
        LogCode::ClockLoop => 11,
        LogCode::MessageTwice => 12,
        LogCode::ReceiveUnsent => 13,
        LogCode::ReceiveEarly => 14,
        LogCode::SelfMessage => 15,
        LogCode::Truncated => 16,
        LogCode::Trailing => 17,
        LogCode::TooManyEvents => 18,
        LogCode::LineTooLong => 19,
        LogCode::LogTooLong => 20,
        LogCode::CounterFalls => 21,
    }
}

/// The items that a reader gave.
#[derive(Drop)]
struct Collected {
    header: Option<Header>,
    batches: List<List<Event>>,
    batch: List<Event>,
}

impl Collected {
    fn new(alloc: Global) -> Collected {
        Collected {
            header: None,
            batches: List::new(alloc),
            batch: List::new(alloc),
        }
    }

    fn add(&mut self, alloc: Global, item: Item) -> Result<(), NoMemory> {
        match item {
            Item::Header(header) => self.header = Some(header),
            Item::Event(event) => self.batch.push(event)?,
            Item::BatchEnd => self.close(alloc)?,
            Item::End => self.close(alloc)?,
        }
        Ok(())
    }

    fn close(&mut self, alloc: Global) -> Result<(), NoMemory> {
        let batch = std::mem::replace(&mut self.batch, List::new(alloc));
        self.batches.push(batch)
    }

    fn into_log(self) -> Option<Log> {
        let Collected {
            header,
            batches,
            ..
        } = self;
        let header = header?;
        Some(Log { header, batches })
    }
}

/// What reading a text gave.
#[derive(Drop)]
pub struct Finding {
    pub fault: Option<LogFault>,
    /// The log, as far as it was read.
    pub log: Option<Log>,
}

/// Reads a text that comes in pieces of this size.
pub fn read(alloc: Global, text: &[u8], piece: usize) -> Result<Finding, NoMemory> {
    let mut reader = Reader::new(alloc);
    let mut collected = Collected::new(alloc);
    let mut rest = text;
    while !rest.is_empty() {
        let len = piece.max(1).min(rest.len());
        let Fed { items, .. } = reader.feed(&rest[..len])?;
        for item in items.into_vec() {
            collected.add(alloc, item)?;
        }
        rest = &rest[len..];
    }
    Ok(Finding {
        fault: reader.finish(),
        log: collected.into_log(),
    })
}

/// The fault that checking finds in a log.
pub fn check_fault(alloc: Global, log: &Log) -> Result<Option<LogFault>, NoMemory> {
    if !can_be_checked(log) {
        return Ok(None);
    }
    match check(alloc, log) {
        Ok(_) => Ok(None),
        Err(Refused::Fault(fault)) => Ok(Some(fault)),
        Err(Refused::NoMemory) => Err(NoMemory),
    }
}

/// The first fault of a text that comes in such pieces, by the reader, or by the check where it has
/// none.
pub fn first_fault(alloc: Global, text: &[u8], piece: usize) -> Result<Option<LogFault>, NoMemory> {
    let Finding { fault, log } = read(alloc, text, piece)?;
    if fault.is_some() {
        return Ok(fault);
    }
    match log {
        Some(log) => check_fault(alloc, &log),
        None => Ok(None),
    }
}

/// Whether the text has no fault.
pub fn judge_large(alloc: Global, text: &[u8]) -> Result<String, AllocError> {
    match first_fault(alloc, text, 65_536) {
        Ok(None) => format!(in alloc; "ok"),
        Ok(Some(fault)) => format!(in alloc; "L{} at line {}", number_of(fault.code), fault.line),
        Err(_) => Err(AllocError),
    }
}

/// What the longest log begins with; lines `batch` follow.
const HEAD: &[u8] = b"pota-log 1\nprocs P\n";

/// How many pieces of 4,096 bytes the longest log has.
const PIECES: u64 = 16_384;

/// The line at which a log of lines `batch` is too long.
const TOO_LONG_LINE: u32 = 11_184_810;

// The byte of the longest log at this place.
fn longest_at(at: u64) -> u8 {
    let at = at as usize;
    if at < HEAD.len() {
        HEAD[at]
    } else {
        b"batch\n"[(at - HEAD.len()) % 6]
    }
}

// The piece of the longest log that begins at this place.
fn fill(piece: &mut [u8], start: u64) {
    for (i, byte) in piece.iter_mut().enumerate() {
        *byte = longest_at(start.saturating_add(i as u64));
    }
}

// Feeds the longest log, and gives the first fault of its bytes.
fn feed_longest(reader: &mut Reader) -> Result<Option<LogFault>, NoMemory> {
    let mut piece = [0_u8; 4096];
    for number in 0..PIECES {
        fill(piece.as_mut_slice(), number * 4096);
        let fed = reader.feed(piece.as_slice())?;
        if fed.fault.is_some() {
            return Ok(fed.fault);
        }
    }
    Ok(None)
}

// The fault that one byte more than the longest log has makes, and None where one came before.
fn fault_behind_longest(alloc: Global) -> Result<Option<LogFault>, NoMemory> {
    let mut reader = Reader::new(alloc);
    if feed_longest(&mut reader)?.is_some() {
        return Ok(None);
    }
    Ok(reader.feed(b"c")?.fault)
}

/// Whether a log of as many bytes as a log may have has no fault in its bytes, and one byte more is
/// too much.
pub fn judge_longest(alloc: Global) -> Result<String, AllocError> {
    match fault_behind_longest(alloc) {
        Ok(Some(fault)) if number_of(fault.code) == 20 && fault.line == TOO_LONG_LINE => {
            format!(in alloc; "ok")
        }
        Ok(Some(fault)) => format!(in alloc; "L{} at line {}", number_of(fault.code), fault.line),
        Ok(None) => format!(in alloc; "no fault, or one too early"),
        Err(_) => Err(AllocError),
    }
}
