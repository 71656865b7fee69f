//! Certificates that the analyser writes.

use row_cases::{Case, want_what_comes};
use std::alloc::{AllocError, Global};
use std::thread::Threads;

/// More than any of the certificates takes.
const ROOM: usize = 1_048_576;

/// Adds, behind the log of the case, the certificate that the analyser writes for it.
///
/// # Errors
///
/// Where there is no memory.
pub fn add_certificate<R: Threads + Sync>(
    rt: &R,
    alloc: Global,
    case: &mut Case,
) -> Result<(), AllocError> {
    let mut asked = Case::new(alloc);
    asked.words.push(String::from_str(alloc, "certify")?)?;
    for word in &case.words {
        asked.words.push(word.clone()?)?;
    }
    asked.log.extend_from_slice(case.text())?;
    asked.room = ROOM;
    want_what_comes(rt, alloc, &mut asked)?;
    case.log.extend_from_slice(asked.report())
}
