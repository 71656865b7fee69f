//! Whether what comes out of a case is what must come out.

use crate::run::{Came, Reader, Setting, run};
use pota_base::Status;
use row_cases::Case;
use std::alloc::{AllocError, Global};

/// More calls than any case makes.
const MOST_CALLS: u64 = 1_000_000;

/// Which calls fail.
#[derive(Clone, Copy)]
enum Failing {
    Read,
    Write,
}

impl Failing {
    // The status of it.
    fn status(self) -> u8 {
        match self {
            Failing::Read => Status::ReadFault.code(),
            Failing::Write => Status::WriteFault.code(),
        }
    }

    // The line by which the reader tells of it.
    fn line(self, reader: Reader) -> &'static [u8] {
        match (self, reader) {
            (Failing::Read, Reader::View) => b"pota_view: read fault\n",
            (Failing::Read, Reader::Verifier) => b"pota_verify: read fault\n",
            (Failing::Write, Reader::View) => b"pota_view: write fault\n",
            (Failing::Write, Reader::Verifier) => b"pota_verify: write fault\n",
        }
    }

    // Whether this is left where such a call fails: nothing of the answer where it is a read, and a
    // front of it where it is a write.
    fn has_left(self, reader: Reader, case: &Case, came: &Came) -> bool {
        let written = came.written.as_slice();
        let fits = match self {
            Failing::Read => written.is_empty(),
            Failing::Write => case.report().starts_with(written),
        };
        fits && came.has_fault && came.told.as_slice() == self.line(reader)
    }
}

// What comes out where the call of this number fails.
fn failed_at(
    alloc: Global,
    reader: Reader,
    case: &Case,
    setting: &mut Setting,
    failing: Failing,
    number: u64,
) -> Result<Came, AllocError> {
    let fails = Vec::from_slice(alloc, &[number])?;
    match failing {
        Failing::Read => setting.reads = fails,
        Failing::Write => setting.writes = fails,
    }
    run(alloc, reader, case.words.as_slice(), case.text(), setting)
}

// What comes out otherwise than it must where the first call fails, the second alone, and so on up
// to the first number at which none does.
fn judge_each(
    alloc: Global,
    reader: Reader,
    case: &Case,
    piece: usize,
    failing: Failing,
) -> Result<Option<String>, AllocError> {
    let mut setting = Setting::new(case, piece)?;
    for number in 1..MOST_CALLS {
        let came = failed_at(alloc, reader, case, &mut setting, failing, number)?;
        let failed = came.status == failing.status();
        if failed && failing.has_left(reader, case, &came) {
            continue;
        }
        if !failed && number == 1 {
            return Ok(Some(format!(in alloc; "the first call fails, which is not told")?));
        }
        return match came.differs(alloc, case)? {
            Some(said) => Ok(Some(format!(in alloc; "where call {number} fails: {said}")?)),
            None => Ok(None),
        };
    }
    Ok(Some(format!(in alloc; "each call fails")?))
}

// What comes out of the runs over pieces of this size otherwise than it must.
fn judge_over(
    alloc: Global,
    reader: Reader,
    case: &Case,
    piece: usize,
) -> Result<Option<String>, AllocError> {
    let setting = Setting::new(case, piece)?;
    let came = run(alloc, reader, case.words.as_slice(), case.text(), &setting)?;
    let mut said = came.differs(alloc, case)?;
    if said.is_none() && case.each_read {
        said = judge_each(alloc, reader, case, piece, Failing::Read)?;
    }
    if said.is_none() && case.each_write {
        said = judge_each(alloc, reader, case, piece, Failing::Write)?;
    }
    Ok(said)
}

/// Runs the case over pieces of each of its sizes, and says what came out otherwise than it must.
///
/// # Errors
///
/// Where there is no memory.
pub fn judge(alloc: Global, reader: Reader, case: &Case) -> Result<Option<String>, AllocError> {
    if let Some(line) = &case.unread {
        return Ok(Some(format!(in alloc; "no such line: {line}")?));
    }
    for piece in case.sizes(alloc)? {
        if let Some(said) = judge_over(alloc, reader, case, piece)? {
            return Ok(Some(format!(in alloc; "over pieces of {piece}: {said}")?));
        }
    }
    Ok(None)
}
