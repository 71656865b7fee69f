//! Sections of cases.

use crate::kind::Kind;
use crate::parted::{Order, differs_parted, is_run};
use crate::verdict::judge;
use row_cases::Case;
use row_text::Tally;
use std::alloc::Global;
use std::io;
use std::thread::Threads;

// Runs the case from the logs of its processes, where it is a run.
fn judge_parted<R: Threads + Sync + Print>(
    rt: &R,
    alloc: Global,
    case: &Case,
    tally: &mut Tally,
) -> io::Result<()> {
    if !is_run(case) {
        return Ok(());
    }
    for order in [Order::AsNamed, Order::Reversed] {
        let said = differs_parted(rt, alloc, case, order)?;
        tally.count(rt, case.name.as_str(), said)?;
    }
    Ok(())
}

/// Runs the cases of the section of this kind and name.
pub fn judge_all<R: Threads + Sync + Print>(
    rt: &R,
    alloc: Global,
    kind: Kind,
    name: &str,
    rows: &str,
) -> io::Result<()> {
    let (mut whole, mut parted) = (Tally::new(), Tally::new());
    let mut case = Case::new(alloc);
    for line in rows.lines() {
        if line != "end" {
            case.add_line(alloc, line)?;
            continue;
        }
        whole.count(rt, case.name.as_str(), judge(rt, alloc, &case)?)?;
        if kind == Kind::Outside {
            judge_parted(rt, alloc, &case, &mut parted)?;
        }
        case = case.next(alloc);
    }
    whole.print(rt, name, "cases")?;
    if kind == Kind::Outside {
        parted.print(rt, name, "runs from the logs of processes")?;
    }
    Ok(())
}
