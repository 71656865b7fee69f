//! One run of the call.
use crate::Case;
use crate::came::Came;
use crate::handed::hand;
use pota_base::{Gate, MemSink, MemSource, NoMemory};
use pota_top::{Outcome, pota};
use std::alloc::{AllocError, Global};
use std::sync::Arc;
use std::thread::Threads;
use turning_watch::{Counts, Turning};
use watch::{Calm, Owing, Stable};

/// The room of the sink for the line that tells of a fault.
const DIAG_ROOM: usize = 256;

/// How one run of a case is made.
#[derive(Drop)]
pub struct Setting {
    pub words: Vec<String>,
    pub piece: usize,
    pub log_fails: Vec<u64>,
    pub out_fails: Vec<u64>,
}

impl Setting {
    /// The run of the case over such pieces, with these words.
    pub fn new(case: &Case, words: &Vec<String>, piece: usize) -> Result<Setting, AllocError> {
        Ok(Setting {
            words: words.clone()?,
            piece: piece.max(1),
            log_fails: case.log_fails.clone()?,
            out_fails: case.out_fails.clone()?,
        })
    }
}

// Want of memory, as the text of a verdict has it.
fn made<T>(answer: Result<T, NoMemory>) -> Result<T, AllocError> {
    match answer {
        Ok(value) => Ok(value),
        Err(_) => Err(AllocError),
    }
}

// What a run reads and writes, and what its watches count.
#[derive(Drop)]
struct Outside {
    log: MemSource,
    out: MemSink,
    diag: MemSink,
    counts: Arc<Counts, Global>,
}

impl Outside {
    fn new(alloc: Global, case: &Case, setting: &Setting) -> Result<Outside, AllocError> {
        let piece = setting.piece.max(1);
        let (log_fails, out_fails) = (setting.log_fails.as_slice(), setting.out_fails.as_slice());
        let diag_fails = case.diag_fails.as_slice();
        Ok(Outside {
            log: made(MemSource::new(alloc, case.text(), piece, log_fails))?,
            out: made(MemSink::new(alloc, case.room, piece, out_fails))?,
            diag: made(MemSink::new(alloc, DIAG_ROOM, usize::MAX, diag_fails))?,
            counts: Counts::new(alloc)?,
        })
    }
}

// The call with all watches handed in.
fn call<R: Threads + Sync, G: Gate>(
    rt: &R,
    alloc: Global,
    words: &[String],
    outside: &mut Outside,
    gate: &G,
) -> Result<Outcome, AllocError> {
    let flip = Turning::new(Arc::try_clone(&outside.counts)?);
    let idle = Turning::new(Arc::try_clone(&outside.counts)?);
    let mut watches = Vec::new(alloc);
    hand(
        alloc,
        &mut watches,
        b"stable",
        Box::new(alloc, Stable::new())?,
    )?;
    hand(
        alloc,
        &mut watches,
        b"owing",
        Box::new(alloc, Owing::new())?,
    )?;
    hand(alloc, &mut watches, b"calm", Box::new(alloc, Calm::new())?)?;
    hand(alloc, &mut watches, b"flip", Box::new(alloc, flip)?)?;
    hand(alloc, &mut watches, b"idle", Box::new(alloc, idle)?)?;
    let Outside { log, out, diag, .. } = outside;
    Ok(pota(rt, alloc, words, log, out, diag, watches, gate))
}

/// What comes out of the call.
pub fn run<R: Threads + Sync, G: Gate>(
    rt: &R,
    alloc: Global,
    case: &Case,
    setting: &Setting,
    gate: &G,
) -> Result<Came, AllocError> {
    let mut outside = Outside::new(alloc, case, setting)?;
    let outcome = call(rt, alloc, setting.words.as_slice(), &mut outside, gate)?;
    Ok(Came {
        status: outcome.status.code(),
        batches: outcome.batches,
        written: outside.out.held().to_vec(alloc)?,
        told: outside.diag.held().to_vec(alloc)?,
        dropped: outside.counts.dropped(),
    })
}
