//! Reading in pieces of one length.

ghost use Rattle.std.specs.Prelude.{◌<◌};

use log_merge::{MergeFault, Merged, merge};
use log_sources::SourceReader;
use pota_base::{NoMemory, Refused};
use std::alloc::Global;

/// The first fault of the text, read in pieces of this length.
pub fn fault_of(alloc: Global, text: &[u8], len: usize) -> Result<Option<MergeFault>, NoMemory>
    requires { 0 < len }
{
    let mut reader = SourceReader::new(alloc);
    let mut rest = text;
    'pieces: while !rest.is_empty() {
        let (piece, after) = rest.split_at(rest.len().min(len));
        reader.feed(piece)?;
        rest = after;
    }
    Ok(reader.finish())
}

/// The first fault of two texts, the second one so many times behind the first.
pub fn fault_of_many(
    alloc: Global,
    first: &[u8],
    second: &[u8],
    count: usize,
) -> Result<Option<MergeFault>, NoMemory> {
    let mut reader = SourceReader::new(alloc);
    reader.feed(first)?;
    'times: for _ in 0..count {
        reader.feed(second)?;
    }
    Ok(reader.finish())
}

/// The sources of the text merged.
pub fn merged_of(alloc: Global, text: &[u8]) -> Result<Merged, Refused<MergeFault>> {
    let mut reader = SourceReader::new(alloc);
    reader.feed(text)?;
    if let Some(fault) = reader.finish() {
        return Err(Refused::Fault(fault));
    }
    let logs = reader.into_logs();
    merge(alloc, logs.as_slice())
}
