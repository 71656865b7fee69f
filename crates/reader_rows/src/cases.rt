//! Sections of cases.

use crate::certified::add_certificate;
use crate::kind::Kind;
use crate::run::Reader;
use crate::verdict::judge;
use row_cases::Case;
use row_text::Tally;
use std::alloc::{AllocError, Global};
use std::io;
use std::thread::Threads;

// Runs the case, and says what came out otherwise than it must.
fn judge_case<R: Threads + Sync>(
    rt: &R,
    alloc: Global,
    kind: Kind,
    case: &mut Case,
) -> Result<Option<String>, AllocError> {
    let reader = match kind {
        Kind::Views => Reader::View,
        Kind::Certificates | Kind::Certified | Kind::Changed => Reader::Verifier,
    };
    if kind == Kind::Certified {
        add_certificate(rt, alloc, case)?;
    }
    judge(alloc, reader, case)
}

/// Runs the cases of the section of this kind and name.
pub fn judge_all<R: Threads + Sync + Print>(
    rt: &R,
    alloc: Global,
    kind: Kind,
    name: &str,
    rows: &str,
) -> io::Result<()> {
    let mut tally = Tally::new();
    let mut case = Case::new(alloc);
    for line in rows.lines() {
        if line == "end" {
            let said = judge_case(rt, alloc, kind, &mut case)?;
            tally.count(rt, case.name.as_str(), said)?;
            case = case.next(alloc);
        } else {
            case.add_line(alloc, line)?;
        }
    }
    tally.print(rt, name, "cases")
}
