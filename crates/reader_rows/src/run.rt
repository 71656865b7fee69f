//! One run of a call, and what came out of it.

use pota_base::{MemSink, MemSource, NoMemory};
use row_cases::Case;
use std::alloc::{AllocError, Global};
use verify_top::verify;
use view_top::view;

/// What reads a log and what stands behind it.
#[derive(Clone, Copy)]
pub enum Reader {
    View,
    Verifier,
}

/// The room of the sink for the line that tells of a fault.
const DIAG_ROOM: usize = 256;

/// How a run is made.
#[derive(Drop)]
pub struct Setting {
    /// The most that a call of the source gives and one of the answer's sink takes.
    pub piece: usize,
    /// The room of the answer's sink.
    pub room: usize,
    /// The numbers of the calls that fail: of the source, of the answer's sink, of the other one.
    pub reads: Vec<u64>,
    pub writes: Vec<u64>,
    pub tells: Vec<u64>,
}

/// What came out of one run.
#[derive(Drop)]
pub struct Came {
    pub status: u8,
    pub has_fault: bool,
    pub written: Vec<u8>,
    pub told: Vec<u8>,
}

impl Setting {
    /// The run of the case over such pieces.
    pub fn new(case: &Case, piece: usize) -> Result<Setting, AllocError> {
        Ok(Setting {
            piece: piece.max(1),
            room: case.room,
            reads: case.log_fails.clone()?,
            writes: case.out_fails.clone()?,
            tells: case.diag_fails.clone()?,
        })
    }
}

impl Came {
    /// What was written, and behind it the line on a fault.
    pub fn answer(&self, alloc: Global) -> Result<String, AllocError> {
        let mut answer = String::from_utf8_lossy(alloc, self.written.as_slice())?;
        let told = String::from_utf8_lossy(alloc, self.told.as_slice())?;
        answer.push_str(told.as_str())?;
        Ok(answer)
    }

    /// What is otherwise than it must be.
    pub fn differs(&self, alloc: Global, case: &Case) -> Result<Option<String>, AllocError> {
        let status = case.status.unwrap_or(0);
        let said = if self.status != status {
            format!(in alloc; "status {}, not {}", self.status, status)?
        } else if self.has_fault != (status > 1) {
            format!(in alloc; "a fault is handed out: {}", self.has_fault)?
        } else if self.written.as_slice() != case.report() {
            let written = String::from_utf8_lossy(alloc, self.written.as_slice())?;
            format!(in alloc; "written\n{written}")?
        } else if self.told.as_slice() != case.diag.as_slice() {
            let told = String::from_utf8_lossy(alloc, self.told.as_slice())?;
            format!(in alloc; "diag {told:?}")?
        } else {
            return Ok(None);
        };
        Ok(Some(said))
    }
}

// Want of memory, as the text of a verdict has it.
fn made<T>(answer: Result<T, NoMemory>) -> Result<T, AllocError> {
    match answer {
        Ok(value) => Ok(value),
        Err(_) => Err(AllocError),
    }
}

impl Reader {
    // The status of the call, and whether it handed out a fault.
    fn call(
        self,
        alloc: Global,
        words: &[String],
        input: &mut MemSource,
        out: &mut MemSink,
        diag: &mut MemSink,
    ) -> (u8, bool) {
        match self {
            Reader::View => {
                let viewed = view(alloc, words, input, out, diag);
                (viewed.status(), viewed.fault.is_some())
            }
            Reader::Verifier => {
                let verified = verify(alloc, words, input, out, diag);
                (verified.status, verified.fault.is_some())
            }
        }
    }
}

/// What comes out of the reader's call with the words on the text.
///
/// # Errors
///
/// Where there is no memory.
pub fn run(
    alloc: Global,
    reader: Reader,
    words: &[String],
    text: &[u8],
    setting: &Setting,
) -> Result<Came, AllocError> {
    let piece = setting.piece.max(1);
    let (reads, writes) = (setting.reads.as_slice(), setting.writes.as_slice());
    let mut input = made(MemSource::new(alloc, text, piece, reads))?;
    let mut out = made(MemSink::new(alloc, setting.room, piece, writes))?;
    let mut diag = made(MemSink::new(alloc, DIAG_ROOM, usize::MAX, setting.tells.as_slice()))?;
    let (status, has_fault) = reader.call(alloc, words, &mut input, &mut out, &mut diag);
    Ok(Came {
        status,
        has_fault,
        written: out.held().to_vec(alloc)?,
        told: diag.held().to_vec(alloc)?,
    })
}
