//! What came out of one run, and whether it is what must come out.

use crate::Case;
use pota_base::Status;
use std::alloc::{AllocError, Global};

/// How many of the watches that are handed in count that they are dropped.
const COUNTED: u64 = 2;

/// What came out of one run.
#[derive(Drop)]
pub struct Came {
    pub status: u8,
    pub batches: u32,
    pub written: Vec<u8>,
    pub told: Vec<u8>,
    /// How many of the watches that count it were dropped.
    pub dropped: u64,
}

/// Which calls fail.
#[derive(Clone, Copy)]
pub enum Failing {
    Read,
    Write,
}

impl Failing {
    /// The status of it.
    pub fn status(self) -> u8 {
        match self {
            Failing::Read => Status::ReadFault.code(),
            Failing::Write => Status::WriteFault.code(),
        }
    }

    // The line that tells of it.
    fn line(self) -> &'static [u8] {
        match self {
            Failing::Read => b"pota: read fault\n",
            Failing::Write => b"pota: write fault\n",
        }
    }
}

impl Came {
    fn written(&self, alloc: Global) -> Result<String, AllocError> {
        let text = String::from_utf8_lossy(alloc, self.written.as_slice())?;
        format!(in alloc; "written {text:?}")
    }

    fn told(&self, alloc: Global) -> Result<String, AllocError> {
        let text = String::from_utf8_lossy(alloc, self.told.as_slice())?;
        format!(in alloc; "diag {text:?}")
    }

    /// Makes it what must come out of the case.
    pub fn be_wanted(self, case: &mut Case) {
        let Came {
            status,
            batches,
            written,
            told,
            ..
        } = self;
        case.status = Some(status);
        case.batches = batches;
        case.report = written;
        case.diag = told;
    }

    /// What is otherwise than it must be.
    pub fn differs(&self, alloc: Global, case: &Case) -> Result<Option<String>, AllocError> {
        let status = case.status.unwrap_or(0);
        let said = if self.status != status {
            format!(in alloc; "status {}, not {}", self.status, status)?
        } else if self.batches != case.batches {
            format!(in alloc; "batches {}, not {}", self.batches, case.batches)?
        } else if self.written.as_slice() != case.report() {
            self.written(alloc)?
        } else if self.told.as_slice() != case.diag.as_slice() {
            self.told(alloc)?
        } else if self.dropped != COUNTED {
            format!(in alloc; "{} watches dropped", self.dropped)?
        } else {
            return Ok(None);
        };
        Ok(Some(said))
    }

    /// What a run that was cut short leaves otherwise than it must: a front of the report, and the
    /// line.
    pub fn differs_cut_short(
        &self,
        alloc: Global,
        case: &Case,
        failing: Failing,
    ) -> Result<Option<String>, AllocError> {
        let said = if !case.report().starts_with(self.written.as_slice()) {
            self.written(alloc)?
        } else if self.batches > case.batches {
            format!(in alloc; "batches {} of {}", self.batches, case.batches)?
        } else if self.told.as_slice() != failing.line() {
            self.told(alloc)?
        } else {
            return Ok(None);
        };
        Ok(Some(said))
    }
}
