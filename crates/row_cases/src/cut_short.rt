//! Runs that a failing call of the source or of the report's sink cuts short, one for each of its
//! numbers.

use crate::Case;
use crate::came::{Came, Failing};
use crate::run::{Setting, run};
use pota_base::FreeGate;
use std::alloc::{AllocError, Global};
use std::thread::Threads;

/// More calls than any case makes.
const MOST_CALLS: u64 = 1_000_000;

// What comes out where the call of this number fails.
fn failed_at<R: Threads + Sync>(
    rt: &R,
    alloc: Global,
    case: &Case,
    setting: &mut Setting,
    failing: Failing,
    number: u64,
) -> Result<Came, AllocError> {
    let fails = Vec::from_slice(alloc, &[number])?;
    match failing {
        Failing::Read => setting.log_fails = fails,
        Failing::Write => setting.out_fails = fails,
    }
    run(rt, alloc, case, setting, &FreeGate)
}

/// What comes out otherwise than it must where the first call fails, the second alone, and so on up
/// to the first number at which none does.
pub fn judge_each<R: Threads + Sync>(
    rt: &R,
    alloc: Global,
    case: &Case,
    setting: &mut Setting,
    failing: Failing,
) -> Result<Option<String>, AllocError> {
    for number in 1..MOST_CALLS {
        let came = failed_at(rt, alloc, case, setting, failing, number)?;
        let failed = came.status == failing.status();
        let said = if failed {
            came.differs_cut_short(alloc, case, failing)?
        } else {
            came.differs(alloc, case)?
        };
        if let Some(said) = said {
            return Ok(Some(format!(in alloc; "where call {number} fails: {said}")?));
        }
        if !failed && number == 1 {
            return Ok(Some(format!(in alloc; "the first call fails, which is not told")?));
        }
        if !failed {
            return Ok(None);
        }
    }
    Ok(Some(format!(in alloc; "each call fails")?))
}
