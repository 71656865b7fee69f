//! The reader of sources in pieces.

ghost use Rattle.std.specs.Prelude.{◌≡◌, ◌+◌, ◌<◌, ◌≤◌, false, length, None, IfOk, OnOk};
ghost use Rattle.pota_base.specs.Limits.{longest_log, most_sources};

use crate::draft::Draft;
use event_log::{Log, Reader};
use log_merge::{Joined, MergeCode, MergeFault};
use pota_base::{LONGEST_LOG, List, MOST_SOURCES, NoMemory};
use std::alloc::Global;
use std::mem;

/// Reads the texts of several logs one behind another, in pieces of any lengths, each up to its
/// `end` line. What it gives are functions of the bytes so far.
#[derive(Debug, Drop)]
pub struct SourceReader {
    alloc: Global,
    total: usize,
    /// The sources that are whole, each with its events in one batch.
    sources: List<Log>,
    joined: Joined,
    /// The source that is read.
    reader: Reader,
    draft: Draft,
    /// The last source is whole, and no byte came behind it.
    between: bool,
    fault: Option<MergeFault>,
    ghost room: { total ≤ longest_log },
    ghost few: { length sources ≤ most_sources },
}

impl SourceReader {
    ghost use Rattle.event_log.specs.Moments.{lines};
    ghost use Rattle.event_log.specs.LogEnd.{is_whole};
    ghost use Rattle.event_log.specs.Faults.{first_fault};
    ghost use Rattle.event_log.specs.Feeding.{Past};
    ghost use Rattle.event_log.specs.Reader.{HasRead};
    ghost use Rattle.log_sources.specs.Sources.{Sources, no_sources, input_fault, judged};
    ghost use Rattle.log_sources.specs.Sources.{after, last_fault, logs_of};
    ghost use Rattle.log_sources.specs.Reading.{HasReadSources, ReadsOn, CanMerge};
    ghost use Rattle.log_sources.specs.inside.Reading.{TakesBytes};

    /// A reader that has read nothing. It takes no memory.
    pub fn new(alloc: Global) -> SourceReader
        ensures { HasReadSources result no_sources }
    {
        SourceReader {
            alloc,
            total: 0,
            sources: List::new(alloc),
            joined: Joined::new(),
            reader: Reader::new(alloc),
            draft: Draft::new(alloc),
            between: false,
            fault: None,
        }
    }

    // A fault of the source that is read.
    fn fault_at(&self, code: MergeCode, line: u32) -> MergeFault
        ensures { result ≡ record {
          code = code;
          source = length self.now.sources + 1;
          line = line;
        } }
    {
        MergeFault {
            code,
            source: self.sources.len() as u32 + 1,
            line,
        }
    }

    // The line that is read of the source, which isn't whole.
    fn line(&mut self) -> u32
        ensures line { (past : Past) → HasRead self.old.reader past → first_fault past ≡ None
            → is_whole past ≡ false → result ≡ length (lines past) + 1 }
        ensures same { self.new ≡ self.old }
    {
        match self.reader.finish() {
            Some(fault) => fault.line,
            None => 1,
        }
    }

    // The fault of the next byte, whatever byte it is.
    fn input_fault(&mut self) -> Option<MergeFault>
        ensures fault { (s : Sources) → ReadsOn self.old s → is_whole s.now ≡ false
            → result ≡ input_fault s }
        ensures bytes { result ≡ None → self.old.total < longest_log }
        ensures sources { result ≡ None → length self.old.sources < most_sources }
        ensures same { self.new ≡ self.old }
    {
        if self.sources.len() >= MOST_SOURCES {
            return Some(self.fault_at(MergeCode::TooManySources, 1));
        }
        if self.total >= LONGEST_LOG {
            let line = self.line();
            return Some(self.fault_at(MergeCode::TooLong, line));
        }
        None
    }

    // Where the source is whole, joins it to those before it.
    fn close(&mut self) -> Result<(), NoMemory>
        requires at { (s : Sources) × ReadsOn self.old s }
        requires free { self.old.fault ≡ None }
        requires within { self.old.between ≡ false }
        ensures { OnOk result ((s : Sources) → ReadsOn self.old s
            → HasReadSources self.new (judged s.before s.now s.total)) }
    {
        if self.reader.finish().is_some() {
            return Ok(());
        }
        let draft = mem::replace(&mut self.draft, Draft::new(self.alloc));
        let log = draft.into_log(self.alloc)?;
        if let Err(refusal) = self.joined.join(self.sources.as_slice(), &log) {
            self.fault = Some(refusal);
            return Ok(());
        }
        self.sources.push(log)?;
        self.reader = Reader::new(self.alloc);
        self.between = true;
        Ok(())
    }

    // Reads on in one source, and gives the bytes that are left behind it.
    fn read_on<'a>(&mut self, bytes: &'a [u8]) -> Result<&'a [u8], NoMemory>
        requires some { 0 < length bytes.now }
        requires free { self.old.fault ≡ None }
        requires at { (s : Sources) × HasReadSources self.old s }
        ensures takes { IfOk result (λ left. TakesBytes self.old bytes.now left.now self.new) }
        ensures less { IfOk result (λ left. length left.now < length bytes.now) }
    {
        if let Some(fault) = self.input_fault() {
            self.fault = Some(fault);
            return Ok(&[]);
        }
        let count = bytes.len().min(LONGEST_LOG - self.total);
        let (fed, behind) = self.reader.feed_log(&bytes[..count])?;
        if let Some(fault) = fed.fault {
            self.fault = Some(self.fault_at(MergeCode::Log(fault.code), fault.line));
            return Ok(&[]);
        }
        let taken = count - behind.len();
        self.total += taken;
        self.between = false;
        self.draft.take_all(fed.items)?;
        self.close()?;
        Ok(&bytes[taken..])
    }

    /// Reads one piece more. Gives the first fault of the bytes so far, where they have one. After
    /// want of memory it can't be called again.
    pub fn feed(&mut self, piece: &[u8]) -> Result<Option<MergeFault>, NoMemory>
        // It has read some sources, and met no want of memory.
        requires at { (s : Sources) × HasReadSources self.old s }
        ensures fault { IfOk result (λ fault. (s : Sources) → HasReadSources self.old s
            → fault ≡ (after s piece.now).fault) }
        ensures read { OnOk result ((s : Sources) → HasReadSources self.old s
            → HasReadSources self.new (after s piece.now)) }
    {
        let mut rest = piece;
        'sources: while !rest.is_empty() {
            if self.fault.is_some() {
                return Ok(self.fault);
            }
            rest = self.read_on(rest)?;
        }
        Ok(self.fault)
    }

    /// The input has ended. Gives the first fault of all its bytes, and `Truncated` where there is
    /// none and the last source isn't whole. It takes no memory.
    pub fn finish(&mut self) -> Option<MergeFault>
        ensures fault { (s : Sources) → HasReadSources self.old s → result ≡ last_fault s }
        ensures same { self.new ≡ self.old }
    {
        if self.fault.is_some() {
            return self.fault;
        }
        if self.between {
            return None;
        }
        let fault = self.reader.finish()?;
        Some(self.fault_at(MergeCode::Log(fault.code), fault.line))
    }

    /// The logs of the sources, each with its events in one batch, where the input ended without a
    /// fault.
    pub fn into_logs(self) -> List<Log>
        ensures logs { (s : Sources) → HasReadSources self s → last_fault s ≡ None
            → result ≡ logs_of s }
        ensures can_merge { (s : Sources) → HasReadSources self s → last_fault s ≡ None
            → CanMerge result }
    {
        self.sources
    }
}
