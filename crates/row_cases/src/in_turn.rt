//! A report is written before more of the log is read.
use pota_base::{FreeGate, Status};
use pota_top::pota;
use std::alloc::{AllocError, Global};
use std::cell::Cell;
use std::io::{self, Read, Write};
use std::test::Fail;
use std::thread::Threads;
use std_streams::{Reading, Writing};

/// A log in two pieces, each read at once. At the second read it looks at how many bytes were
/// written.
#[derive(Drop)]
struct TwoPieces<'a> {
    pieces: [&'static [u8]; 2],
    reads: usize,
    written: &'a Cell<usize>,
    written_before: usize,
}

impl Read for TwoPieces<'_> {
    fn read(&mut self, into: &mut [u8]) -> io::Result<usize> {
        if self.reads == 1 {
            self.written_before = self.written.get();
        }
        let piece: &[u8] = match self.reads {
            0 => self.pieces[0],
            1 => self.pieces[1],
            _ => &[],
        };
        self.reads = self.reads.saturating_add(1);
        let count = piece.len().min(into.len());
        into[..count].copy_from_slice(&piece[..count]);
        Ok(count)
    }
}

/// It takes all bytes, and counts them.
#[derive(Drop)]
struct Counted<'a> {
    written: &'a Cell<usize>,
}

impl Write for Counted<'_> {
    fn write(&mut self, piece: &[u8]) -> io::Result<usize> {
        let before = self.written.get();
        self.written.set(before.saturating_add(piece.len()));
        Ok(piece.len())
    }

    fn flush(&mut self) -> io::Result<()> {
        Ok(())
    }
}

const FIRST: &[u8] = b"pota-log 1\nprocs P Q\nvars P x=0\nev P 1,0 int x=1\nbatch\n";

const SECOND: &[u8] = b"ev P 2,0 int x=2\nend\n";

/// How a run of the call over the two pieces went.
#[derive(Drop)]
struct Went {
    status: Status,
    written_before: usize,
    written: usize,
}

// Asks of the two pieces, with one word more.
fn ask<R: Threads + Sync>(rt: &R, alloc: Global, last: &str) -> Result<Went, AllocError> {
    let mut words = Vec::new(alloc);
    words.push(String::from_str(alloc, "check")?)?;
    words.push(String::from_str(alloc, "EF P.x = 2")?)?;
    words.push(String::from_str(alloc, last)?)?;
    let written = Cell::new(0);
    let mut log = TwoPieces {
        pieces: [FIRST, SECOND],
        reads: 0,
        written: &written,
        written_before: 0,
    };
    let mut out = Writing::new(Counted { written: &written });
    let mut diag = Writing::new(Vec::new(alloc));
    let mut source = Reading::new(&mut log);
    let watches = Vec::new(alloc);
    let words = words.as_slice();
    let outcome = pota(
        rt,
        alloc,
        words,
        &mut source,
        &mut out,
        &mut diag,
        watches,
        &FreeGate,
    );
    drop(source);
    Ok(Went {
        status: outcome.status,
        written_before: log.written_before,
        written: written.get(),
    })
}

#[test]
fn the_report_of_a_batch_comes_before_the_next_read(rt: HostRuntime) -> Result<(), Fail> {
    let went = ask(&rt, rt.alloc(), "--each-batch")?;
    assert!(rt; went.status == Status::True);
    assert!(rt; went.written_before > 0);
    assert!(rt; went.written_before < went.written);
    Ok(())
}

#[test]
fn the_one_report_comes_after_the_last_read(rt: HostRuntime) -> Result<(), Fail> {
    let went = ask(&rt, rt.alloc(), "--slice")?;
    assert!(rt; went.status == Status::True);
    assert!(rt; went.written_before == 0);
    assert!(rt; went.written > 0);
    Ok(())
}
