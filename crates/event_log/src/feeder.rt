//! A log that comes in pieces, up to its first fault.

ghost use Rattle.std.specs.Prelude.{◌≡◌, ◌+◌, ◌^◌, ◌<◌, ◌≤◌, ◌∷◌, [], false, length, None};
ghost use Rattle.std.specs.Prelude.{IfOk, OnOk, IsTrue};
ghost use Rattle.pota_base.specs.Limits.{longest_line, longest_log};
ghost use Rattle.event_log.specs.Faults.{byte_fault, is_heading_byte};

use crate::item::{Fed, Item, LogCode, LogFault};
use crate::line_reader::LineReader;
use crate::refusals::fault_at;
use crate::split::split_line;
use pota_base::{LONGEST_LINE, LONGEST_LOG, List, NoMemory};
use std::alloc::Global;

/// The first lines of the versions.
const VERSION_ONE: [u8; 11] = *b"pota-log 1\n";

const VERSION_TWO: [u8; 11] = *b"pota-log 2\n";

/// The whole lines so far, and the bytes of the unfinished one.
#[derive(Debug, Drop)]
pub struct Feeder {
    alloc: Global,
    total: u32,
    reader: LineReader,
    line: Vec<u8>,
    /// How many items the last piece gave.
    given: usize,
    ghost counted: { reader.lines ≤ total },
    ghost room: { total ≤ longest_log },
}

// Whether the byte may stand at this place of the first line.
fn is_heading_byte(place: u32, byte: u8) -> bool
    requires { place < 11 }
    ensures { result ≡ is_heading_byte place byte }
{
    byte == VERSION_ONE[place as usize] || byte == VERSION_TWO[place as usize]
}

// The fault at a byte, by the number of bytes before it, whether the log has ended, and the bytes
// of the line before it.
#[tactic(auto, unfolding(crate::specs::Faults::byte_fault))]
fn byte_fault(total: u32, ended: bool, width: usize, byte: u8) -> Option<LogCode>
    ensures { result ≡ byte_fault total ended width byte }
{
    if total >= LONGEST_LOG as u32 {
        return Some(LogCode::LogTooLong);
    }
    if total < 11 {
        if !is_heading_byte(total, byte) {
            return Some(LogCode::BadHeader);
        }
    }
    if ended {
        return Some(LogCode::Trailing);
    }
    if width >= LONGEST_LINE {
        if byte != b'\n' {
            return Some(LogCode::LineTooLong);
        }
    }
    None
}

impl Feeder {
    ghost use Rattle.event_log.specs.Before.{is_ended};
    ghost use Rattle.event_log.specs.Moments.{HasNoFeed, lines, IsPlainByte};
    ghost use Rattle.event_log.specs.Faults.{end_fault};
    ghost use Rattle.event_log.specs.Feeding.{Past, CountsLines, HasFed};
    ghost use Rattle.event_log.specs.inside.Feeding.{Gains, TakesPlain, ClosesLine, TakesFedLine};
    ghost use Rattle.event_log.specs.inside.Feeding.{TakesLog, JudgesRest};

    /// A reader that has read nothing. It takes no memory.
    #[tactic(auto, unfolding(crate::specs::Moments::lines, crate::specs::Moments::line_now, crate::specs::Faults::first_fault))]
    pub fn new(alloc: Global) -> Feeder
        ensures { HasFed result [] }
    {
        Feeder {
            alloc,
            total: 0,
            reader: LineReader::new(alloc),
            line: Vec::new(alloc),
            given: 0,
        }
    }

    // The fault at the next byte, after `width` bytes of its line.
    fn next_fault(&self, width: usize, byte: u8) -> Option<LogCode>
        ensures known { (past : Past) → CountsLines self.now past
            → result ≡ byte_fault (length past) (is_ended (lines past)) width byte }
        ensures room { result ≡ None → self.now.total < longest_log }
    {
        byte_fault(self.total, self.reader.is_ended(), width, byte)
    }

    // A fault on the line that is read.
    fn placed(&self, code: LogCode) -> LogFault
        ensures { result ≡ record { code = code; line = self.now.reader.lines + 1 } }
    {
        LogFault {
            code,
            line: self.reader.line_count() + 1,
        }
    }

    // Whether as many bytes more, and no line feed among them, can have no fault.
    fn is_quiet(&self, len: usize) -> bool
        ensures room { IsTrue result → (11 ≤ self.now.total) × (self.now.total + len ≤ longest_log)
            × (length self.now.line.items + len ≤ longest_line) }
        ensures open_ { IsTrue result → (past : Past) → CountsLines self.now past
            → is_ended (lines past) ≡ false }
    {
        if self.reader.is_ended() {
            return false;
        }
        if self.total < 11 {
            return false;
        }
        if len > LONGEST_LINE {
            return false;
        }
        if self.total as usize + len > LONGEST_LOG {
            return false;
        }
        self.line.len() + len <= LONGEST_LINE
    }

    // A byte that is no line feed.
    fn take_byte(&mut self, byte: u8) -> Result<Option<LogFault>, NoMemory>
        requires { IsPlainByte byte }
        ensures { IfOk result (λ fault. TakesPlain self.old (byte ∷ []) fault self.new) }
    {
        if let Some(code) = self.next_fault(self.line.len(), byte) {
            return Ok(Some(self.placed(code)));
        }
        self.line.push(byte)?;
        self.total += 1;
        Ok(None)
    }

    // Bytes that can have no fault.
    fn take_quiet(&mut self, chunk: &[u8]) -> Result<(), NoMemory>
        requires { self.old.total + length chunk.now ≤ longest_log }
        ensures { OnOk result (Gains self.old self.new chunk.now) }
    {
        self.line.extend_from_slice(chunk)?;
        self.total += chunk.len() as u32;
        Ok(())
    }

    // Bytes among which no line feed is: at once where they can have no fault, else one by one.
    fn take_plain(&mut self, chunk: &[u8]) -> Result<Option<LogFault>, NoMemory>
        requires { HasNoFeed chunk.now }
        ensures { IfOk result (λ fault. TakesPlain self.old chunk.now fault self.new) }
    {
        if self.is_quiet(chunk.len()) {
            self.take_quiet(chunk)?;
            return Ok(None);
        }
        'bytes: for i in 0..chunk.len() {
            if let Some(fault) = self.take_byte(chunk[i])? {
                return Ok(Some(fault));
            }
        }
        Ok(None)
    }

    // The line feed of this line, which puts what the line gives behind the items.
    fn close(&mut self, line: &[u8], items: &mut List<Item>) -> Result<Option<LogFault>, NoMemory>
        ensures closes { IfOk result (λ fault.
            ClosesLine self.old line.now items.old fault items.new self.new) }
        ensures line { self.new.line.items ≡ self.old.line.items }
    {
        if let Some(code) = self.next_fault(line.len(), b'\n') {
            return Ok(Some(self.placed(code)));
        }
        let number = self.reader.line_count() + 1;
        self.total += 1;
        let fault = self.reader.take(self.alloc, line, items)?;
        Ok(fault_at(number, fault))
    }

    // The rest of a line, and its line feed. A line that lies whole in the piece is judged where it
    // lies.
    fn take_line(
        &mut self,
        chunk: &[u8],
        items: &mut List<Item>,
    ) -> Result<Option<LogFault>, NoMemory>
        requires { HasNoFeed chunk.now }
        ensures { IfOk result (λ fault.
            TakesFedLine self.old chunk.now items.old fault items.new self.new) }
    {
        if self.line.is_empty() {
            if self.is_quiet(chunk.len()) {
                self.total += chunk.len() as u32;
                return self.close(chunk, items);
            }
        }
        if let Some(fault) = self.take_plain(chunk)? {
            return Ok(Some(fault));
        }
        let mut line = std::mem::replace(&mut self.line, Vec::new(self.alloc));
        let fault = self.close(&line, items)?;
        line.clear();
        self.line = line;
        Ok(fault)
    }

    /// Reads one piece more, up to the end of the log. Gives what it completes, and the bytes that
    /// stand behind the log.
    pub fn feed_log<'a>(&mut self, piece: &'a [u8]) -> Result<(Fed, &'a [u8]), NoMemory>
        ensures { IfOk result (λ x. TakesLog self.old piece.now x.0 x.1.now self.new) }
    {
        // Pieces are mostly alike.
        let mut items = List::with_capacity(self.alloc, self.given)?;
        let mut rest = piece;
        'lines: while !self.reader.is_ended() {
            let Some((line, after)) = split_line(rest) else {
                let fault = self.take_plain(rest)?;
                self.given = items.len();
                return Ok((Fed { items, fault }, &[]));
            };
            let fault = self.take_line(line, &mut items)?;
            if fault.is_some() {
                return Ok((Fed { items, fault }, after));
            }
            rest = after;
        }
        Ok((Fed { items, fault: None }, rest))
    }

    /// The fault of all bytes, where these stand behind the log and the log has none.
    pub fn fault_behind(&self, rest: &[u8]) -> Option<LogFault>
        ensures { JudgesRest self.now rest.now result }
    {
        match rest {
            [] => None,
            [byte, ..] => {
                let code = self.next_fault(self.line.len(), *byte)?;
                Some(self.placed(code))
            }
        }
    }

    /// The fault where the input ends here, without a fault so far.
    pub fn truncated(&self) -> Option<LogFault>
        ensures { (past : Past) → HasFed self.now past → result ≡ end_fault past }
    {
        if self.reader.is_ended() {
            return None;
        }
        Some(self.placed(LogCode::Truncated))
    }
}
