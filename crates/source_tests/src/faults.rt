//! The first faults of texts.

use crate::pieces::{fault_of, fault_of_many};
use crate::texts::{OF_NONE, OF_P, OF_Q, put};
use event_log::LogCode;
use log_merge::{MergeCode, MergeFault};
use pota_base::{List, NoMemory};
use std::alloc::Global;
use std::test::Fail;

/// No text of a row is longer.
const LONGEST: usize = 80;

/// A text and its first fault.
#[derive(Clone, Copy)]
struct Row {
    text: &'static [u8],
    code: MergeCode,
    source: u32,
    line: u32,
}

const ROWS: [Row; 9] = [
    // no bytes
    Row {
        text: b"",
        code: MergeCode::Log(LogCode::Truncated),
        source: 1,
        line: 1,
    },
    // the second source isn't whole
    Row {
        text: b"pota-log 1\nprocs P\nend\npota-log 1\n",
        code: MergeCode::Log(LogCode::Truncated),
        source: 2,
        line: 2,
    },
    // the byte behind a source is of the next one
    Row {
        text: b"pota-log 1\nprocs P\nend\nx",
        code: MergeCode::Log(LogCode::BadHeader),
        source: 2,
        line: 1,
    },
    // another version
    Row {
        text: b"pota-log 1\nprocs P\nend\npota-log 2\nprocs P\nend\n",
        code: MergeCode::HeaderDiffers,
        source: 2,
        line: 2,
    },
    // other processes
    Row {
        text: b"pota-log 1\nprocs P\nend\npota-log 1\nprocs Q\nend\n",
        code: MergeCode::HeaderDiffers,
        source: 2,
        line: 2,
    },
    // another version, and a line that is none before the end of the source
    Row {
        text: b"pota-log 1\nprocs P\nend\npota-log 2\nprocs P\nx\nend\n",
        code: MergeCode::Log(LogCode::BadLine),
        source: 2,
        line: 3,
    },
    // a `vars` line of one process, an `ev` line of another
    Row {
        text: b"pota-log 1\nprocs P Q\nvars P x=0\nbatch\nev Q 0,1 int\nend\n",
        code: MergeCode::TwoProcesses,
        source: 1,
        line: 5,
    },
    // two sources of one process
    Row {
        text: b"pota-log 1\nprocs P\nvars P x=0\nend\npota-log 1\nprocs P\nbatch\nev P 1 int\nend\n",
        code: MergeCode::ProcessTwice,
        source: 2,
        line: 4,
    },
    // a source that is none behind one that can't be joined
    Row {
        text: b"pota-log 1\nprocs P Q\nev P 1,0 int\nev Q 0,1 int\nend\nx",
        code: MergeCode::TwoProcesses,
        source: 1,
        line: 4,
    },
];

fn fault(code: MergeCode, source: u32, line: u32) -> Option<MergeFault> {
    Some(MergeFault { code, source, line })
}

#[test]
fn in_pieces_of_each_length(rt: HostRuntime) -> Result<(), Fail> {
    for row in ROWS {
        for len in 1..=LONGEST {
            let told = fault_of(rt.alloc(), row.text, len)?;
            assert!(rt; told == fault(row.code, row.source, row.line));
        }
    }
    Ok(())
}

#[test]
fn too_many_sources(rt: HostRuntime) -> Result<(), Fail> {
    for (more, wanted) in [(31, None), (32, fault(MergeCode::TooManySources, 33, 1))] {
        let told = fault_of_many(rt.alloc(), OF_P, OF_NONE, more)?;
        assert!(rt; told == wanted);
    }
    Ok(())
}

// The first fault of 50,000 events of P with this text behind them.
fn fault_behind_many(alloc: Global, behind: &[u8]) -> Result<Option<MergeFault>, NoMemory> {
    let mut text = List::new(alloc);
    put(&mut text, b"pota-log 1\nprocs P Q\n", 1)?;
    put(&mut text, b"ev P 1,0 int\n", 50_000)?;
    put(&mut text, b"end\n", 1)?;
    put(&mut text, behind, 1)?;
    fault_of(alloc, text.as_slice(), 65_536)
}

#[test]
fn too_many_events(rt: HostRuntime) -> Result<(), Fail> {
    for (behind, wanted) in [
        (b"".as_slice(), None),
        (OF_Q, fault(MergeCode::TooManyEvents, 2, 4)),
    ] {
        let told = fault_behind_many(rt.alloc(), behind)?;
        assert!(rt; told == wanted);
    }
    Ok(())
}

// The first fault of so many times 10,000 `batch` lines behind a header.
fn fault_of_batches(alloc: Global, times: usize) -> Result<Option<MergeFault>, NoMemory> {
    let mut lines = List::new(alloc);
    put(&mut lines, b"batch\n", 10_000)?;
    let first = b"pota-log 1\nprocs P\n";
    fault_of_many(alloc, first, lines.as_slice(), times)
}

// The first 19 bytes are two lines, and each line behind them has 6.
#[test]
fn too_long(rt: HostRuntime) -> Result<(), Fail> {
    let told = fault_of_batches(rt.alloc(), 1_119)?;
    let line = 3 + (67_108_864 - 19) / 6;
    assert!(rt; told == fault(MergeCode::TooLong, 1, line));
    Ok(())
}
