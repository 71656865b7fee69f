//! Runs the analyser's one call on the rows of its input, and prints for each section how many of
//! its rows came out as they must, and each row that did not. A line `rows KIND NAME` begins a
//! section, and `Kind` says what its rows are. The crate `row_cases` says what the lines of a case
//! mean.
//!
//! The last lines tell of a log of as many bytes as a log may have, and of a large log that the
//! program makes.
#![tactic(auto)]

mod asking;
mod cases;
mod generated;
mod kind;
mod left_out;
mod parted;
mod reading;
mod texts;
mod verdict;

use generated::large_log;
use kind::Kind;
use reading::{judge_large, judge_longest};
use std::alloc::Global;
use std::io;
use std::thread::Threads;

// Runs the rows of a section, whose text begins behind the word `rows`.
fn judge_section<R: Threads + Sync + Print>(
    rt: &R,
    alloc: Global,
    section: &str,
) -> io::Result<()> {
    let (name, rows) = section.split_once('\n').unwrap_or((section, ""));
    match Kind::named(name.split_once(' ').unwrap_or((name, "")).0) {
        Some(kind) => kind.judge(rt, alloc, name, rows),
        None => println!(rt; "no such rows: {name}"),
    }
}

fn main(rt: HostRuntime) -> io::Result<()> {
    let alloc = rt.alloc();
    let text = io::read_to_string(alloc, rt.reader())?;
    for section in text.as_str().split("\nrows ").skip(1) {
        judge_section(&rt, alloc, section)?;
    }
    let said = judge_longest(alloc)?;
    println!(rt; "the longest log: {}", said.as_str())?;
    let log = large_log(alloc)?;
    let said = judge_large(alloc, log.as_slice())?;
    println!(rt; "a large log: {}", said.as_str())?;
    Ok(())
}
