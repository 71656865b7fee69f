//! The sources of an input, read to its end or to their first fault.

ghost use Rattle.std.specs.Prelude.{◌≡◌, ◌≢◌, ◌-◌, ℕ, List as ListOf, IfOk, OnErr, None};
ghost use Rattle.pota_base.specs.Limits.{longest_log};
ghost use Rattle.pota_base.specs.Changes.{of_source};
ghost use Rattle.input_reading.specs.Intakes.{ReadsShort};
ghost use Rattle.log_sources.specs.Sources.{after, no_sources};
ghost use Rattle.log_sources.specs.Reading.{HasReadSources};
ghost use Rattle.log_sources.specs.Gathering.{HasGathered, IsFaulty};
ghost use Rattle.log_sources.specs.inside.Gathering.{IsGathered};

use crate::reader::SourceReader;
use event_log::Log;
use input_reading::{End, Intake, Turn, read_all};
use log_merge::MergeFault;
use pota_base::{List, NoMemory, Source};
use std::alloc::Global;

/// What the bytes of an input are.
#[derive(Debug, Drop)]
pub enum Gathered {
    /// The texts of these logs, which can be merged.
    Logs(List<Log>),
    /// Bytes with this fault first.
    Fault(MergeFault),
    /// Bytes without a fault, behind which a read failed.
    Failed,
}

impl Intake for SourceReader {
    ghost open_ = { λ r bytes. HasReadSources r (after no_sources bytes)
        × ((after no_sources bytes).fault ≡ None) };

    ghost done = { λ r bytes. HasReadSources r (after no_sources bytes)
        × IsFaulty (after no_sources bytes) };

    ghost room = { λ r. longest_log - r.total };

    fn take(&mut self, piece: &[u8]) -> Result<Turn, NoMemory> {
        match self.feed(piece)? {
            Some(_) => Ok(Turn::Done),
            None => Ok(Turn::More),
        }
    }
}

// What a reader has read, behind which no byte matters or none comes.
fn finished(mut reader: SourceReader) -> Gathered
    ensures { (bytes : ListOf ℕ) → HasReadSources reader (after no_sources bytes)
        → IsGathered bytes result }
{
    match reader.finish() {
        Some(fault) => Gathered::Fault(fault),
        None => Gathered::Logs(reader.into_logs()),
    }
}

/// Reads the sources of an input, one behind another, to its end, their first fault, or a failed
/// read.
pub fn gather<S: Source>(alloc: Global, source: &mut S) -> Result<Gathered, NoMemory>
    ensures reads { IfOk result (HasGathered (of_source S.Source source.old source.new)) }
    ensures short { OnErr result (ReadsShort (of_source S.Source source.old source.new)) }
    ensures calm { result ≢ Ok Gathered.Failed → S.faults source.new ≡ S.faults source.old }
{
    let mut reader = SourceReader::new(alloc);
    match read_all(alloc, source, &mut reader)? {
        End::Ended => Ok(finished(reader)),
        End::Done => Ok(finished(reader)),
        End::Failed => Ok(Gathered::Failed),
    }
}
