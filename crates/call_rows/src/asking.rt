//! The formulas that are asked, and whether a text is answered as the one with all clocks.

use pota_base::Status;
use row_cases::{Case, judge, want_what_comes};
use std::alloc::{AllocError, Global};
use std::thread::Threads;

const FORMULAS: [&str; 2] = [
    "EF (P1.n >= 4 & P2.seen = 1) | P2.n > 50",
    "AG EF empty(P1,P2) & EG intransit(P2,P1) <= 1",
];

/// More than the reports of any of the logs take.
const ROOM: usize = 65_536;

// The case of the formula over this text, which wants what comes out, and a verdict in any case.
fn case_of<R: Threads + Sync>(
    rt: &R,
    alloc: Global,
    formula: &str,
    text: &str,
) -> Result<Case, AllocError> {
    let mut case = Case::new(alloc);
    case.room = ROOM;
    case.name = String::from_str(alloc, formula)?;
    case.log = text.as_bytes().to_vec(alloc)?;
    for word in ["check", formula, "--slice", "--witness", "--each-batch"] {
        case.words.push(String::from_str(alloc, word)?)?;
    }
    want_what_comes(rt, alloc, &mut case)?;
    case.status = case.status.min(Some(Status::False.code()));
    Ok(case)
}

/// The case of each formula over this text, which wants what comes out, and a verdict in any case.
pub fn cases_of<R: Threads + Sync>(
    rt: &R,
    alloc: Global,
    text: &str,
) -> Result<Vec<Case>, AllocError> {
    let mut cases = Vec::new(alloc);
    for formula in FORMULAS {
        cases.push(case_of(rt, alloc, formula, text)?)?;
    }
    Ok(cases)
}

/// What comes out of the first case whose answer over this text is otherwise than it wants.
pub fn differs<R: Threads + Sync>(
    rt: &R,
    alloc: Global,
    cases: &mut [Case],
    text: &str,
) -> Result<Option<String>, AllocError> {
    for case in cases {
        case.log = text.as_bytes().to_vec(alloc)?;
        if let Some(said) = judge(rt, alloc, case)? {
            return Ok(Some(format!(in alloc; "{}: {}", case.name.as_str(), said.as_str())?));
        }
    }
    Ok(None)
}
