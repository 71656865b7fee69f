//! Pictures of large made logs: how many events and receipts a log has, and how many marks and
//! arrows its picture; and how many events of two processes set their counters, of which the last
//! twelve of each are shown.
ghost use Rattle.std.specs.Prelude.{◌≤◌};
ghost use Rattle.pota_base.specs.Limits.{most_events};

use crate::run::{Reader, Setting, run};
use log_writing::write_log;
use pota_base::NoMemory;
use row_cases::Case;
use std::alloc::{AllocError, Global};
use trace_gen::generate;

/// The room of the sink for the picture.
const ROOM: usize = 8_388_608;

/// What is counted.
#[derive(Clone, Copy, Debug)]
pub struct Shapes {
    pub events: usize,
    pub marks: usize,
    pub receipts: usize,
    pub arrows: usize,
}

// How many lines have the piece in them.
fn lines_with(text: &str, piece: &str) -> usize {
    let mut count = 0usize;
    for line in text.lines() {
        if line.contains(piece) {
            count = count.saturating_add(1);
        }
    }
    count
}

// The log of 32 processes and so many events that the seed makes.
fn log_text(alloc: Global, seed: u64, events: u32) -> Result<String, NoMemory>
    requires { events ≤ most_events }
{
    let log = generate(alloc, seed, 32, events)?;
    let text = write_log(alloc, &log)?;
    Ok(String::from_utf8_lossy(alloc, text.as_slice())?)
}

// A report of the log: that the formula is true of it.
fn report_text(alloc: Global, log: &str, formula: &str) -> Result<String, AllocError> {
    let names = log.lines().nth(1).unwrap_or("");
    let mut lengths = String::new(alloc);
    for name in names.split(' ').skip(1) {
        let own = format!(in alloc; "ev {name} ")?;
        if !lengths.is_empty() {
            lengths.push(',')?;
        }
        let count = lines_with(log, own.as_str());
        lengths.push_str(format!(in alloc; "{count}")?.as_str())?;
    }
    format!(in alloc;
        "pota-report 1\nbatch 1\n{names}\nlengths {lengths}\nformula {formula}\nverdict true\nend\n"
    )
}

// The picture of the log that the words ask for, by a report of the formula.
fn picture(alloc: Global, log: &str, words: &[&str], formula: &str) -> Result<String, AllocError> {
    let mut case = Case::new(alloc);
    for word in words {
        case.words.push(String::from_str(alloc, word)?)?;
    }
    case.log.extend_from_slice(log.as_bytes())?;
    let report = report_text(alloc, log, formula)?;
    case.log.extend_from_slice(report.as_str().as_bytes())?;
    case.room = ROOM;
    let setting = Setting::new(&case, usize::MAX)?;
    let came = run(
        alloc,
        Reader::View,
        case.words.as_slice(),
        case.text(),
        &setting,
    )?;
    String::from_utf8_lossy(alloc, came.written.as_slice())
}

/// Counts the shapes of the picture of the log that the seed makes.
///
/// # Errors
///
/// Where there is no memory.
pub fn large_picture(alloc: Global, seed: u64) -> Result<Shapes, AllocError> {
    let log = match log_text(alloc, seed, 2000) {
        Ok(log) => log,
        Err(NoMemory) => return Err(AllocError),
    };
    let shown = picture(alloc, log.as_str(), &["svg", "--all"], "true")?;
    Ok(Shapes {
        events: lines_with(log.as_str(), "ev "),
        marks: lines_with(shown.as_str(), "<title>"),
        receipts: lines_with(log.as_str(), " recv "),
        arrows: lines_with(shown.as_str(), "url(#message)"),
    })
}

/// Counts what the picture of a log of 20,000 events shows that is folded to two counters: the
/// events of their processes, each of which sets its own, and the marks.
///
/// # Errors
///
/// Where there is no memory.
pub fn folded_picture(alloc: Global, seed: u64) -> Result<Shapes, AllocError> {
    let log = match log_text(alloc, seed, 20_000) {
        Ok(log) => log,
        Err(NoMemory) => return Err(AllocError),
    };
    let shown = picture(alloc, log.as_str(), &["svg"], "EF (P1.n = 3 & P2.n = 3)")?;
    let first = lines_with(log.as_str(), "ev P1 ");
    Ok(Shapes {
        events: lines_with(log.as_str(), "ev P2 ").saturating_add(first),
        marks: lines_with(shown.as_str(), "<title>"),
        receipts: 0,
        arrows: lines_with(shown.as_str(), "url(#message)"),
    })
}
