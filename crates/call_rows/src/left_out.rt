//! Sections of seeds: made logs with clocks left out, and the same logs with all their clocks.
//! Eight texts leave out clocks of one log: none of them, all, and between these six shares that
//! are drawn. Printed is for each line of seeds how many texts came out as with their clocks.
//!
//! The clocks of a made log are those of Fidge and Mattern, so what a text leaves out is filled in
//! with the clocks of the log, and status, reports and the line on faults must be the same.

use crate::asking::{cases_of, differs};
use crate::texts::{SHARES, whole_text, without_clocks};
use rand_pcg::Pcg32;
use row_text::Tally;
use std::alloc::{AllocError, Global};
use std::io;
use std::thread::Threads;

fn judge_log<R: Threads + Sync + Print>(
    rt: &R,
    alloc: Global,
    seed: u64,
    tally: &mut Tally,
) -> io::Result<()> {
    let mut words = Pcg32::new(seed, 7);
    let Ok(whole) = whole_text(alloc, seed, &mut words) else {
        return Err(AllocError.into());
    };
    let mut cases = cases_of(rt, alloc, whole.as_str())?;
    for share in 0..=SHARES {
        let text = without_clocks(alloc, whole.as_str(), share, &mut words)?;
        let said = differs(rt, alloc, cases.as_mut_slice(), text.as_str())?;
        let name = format!(in alloc; "seed {seed}, {share} of {SHARES} left out")?;
        tally.count(rt, name.as_str(), said)?;
    }
    Ok(())
}

// `seeds FIRST to LAST`.
fn seeds_of(line: &str) -> Option<(u64, u64)> {
    let (first, last) = line.strip_prefix("seeds ")?.split_once(" to ")?;
    Some((first.parse::<u64>().ok()?, last.parse::<u64>().ok()?))
}

// Runs the logs of these seeds.
fn judge_seeds<R: Threads + Sync + Print>(
    rt: &R,
    alloc: Global,
    name: &str,
    first: u64,
    last: u64,
) -> io::Result<()> {
    let mut tally = Tally::new();
    for seed in first..=last {
        judge_log(rt, alloc, seed, &mut tally)?;
    }
    tally.print(rt, name, "texts as with their clocks")
}

/// Runs the logs of the seeds that the lines name.
pub fn judge_all<R: Threads + Sync + Print>(rt: &R, alloc: Global, rows: &str) -> io::Result<()> {
    for line in rows.lines() {
        match seeds_of(line) {
            Some((first, last)) => judge_seeds(rt, alloc, line, first, last)?,
            None if line.is_empty() => {}
            None => println!(rt; "no such line: {line}")?,
        }
    }
    Ok(())
}
