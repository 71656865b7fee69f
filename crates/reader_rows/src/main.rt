//! Runs the calls of the views and of the verifier on the rows of its input, and prints for each
//! section how many of its rows came out as they must, and each row that did not; then how many
//! shapes the pictures of large logs have. A line `rows KIND NAME` begins a section, and `Kind`
//! says what its rows are.
//!
//! The crate `row_cases` says what the lines of a case mean: its log is the whole input, with the
//! report or the certificate that stands behind the log, and its report is what must be written.
//!
//! The certificates of `worked` were counted by hand, and the cases of `pages` are what the pages
//! for users show. What must come out of `outside` and `runs` was made from the definitions, by
//! slow readings that list all consistent cuts and share nothing with this program.
#![tactic(auto)]

mod cases;
mod certified;
mod changed;
mod changes;
mod kind;
mod large;
mod parted;
mod run;
mod verdict;

use kind::Kind;
use large::{Shapes, folded_picture, large_picture};
use std::alloc::Global;
use std::io;
use std::thread::Threads;

// Runs the rows of a section, whose text begins behind the word `rows`.
fn judge_section<R: Threads + Sync + Print>(
    rt: &R,
    alloc: Global,
    section: &str,
) -> io::Result<()> {
    let (name, rows) = section.split_once('\n').unwrap_or((section, ""));
    match Kind::named(name.split_once(' ').unwrap_or((name, "")).0) {
        Some(kind) => kind.judge(rt, alloc, name, rows),
        None => println!(rt; "no such rows: {name}"),
    }
}

fn print_large<R: Print>(rt: &R, shapes: Shapes) -> io::Result<()> {
    let Shapes {
        events,
        marks,
        receipts,
        arrows,
    } = shapes;
    if marks == events && arrows == receipts && receipts > 0 {
        println!(rt; "a large log: a mark for each of {events} events, an arrow for each receipt")?;
    } else {
        println!(rt; "a large log: {marks} marks of {events}, {arrows} arrows of {receipts}")?;
    }
    Ok(())
}

fn print_folded<R: Print>(rt: &R, shapes: Shapes) -> io::Result<()> {
    let Shapes { events, marks, .. } = shapes;
    if events > 60 {
        println!(rt; "a folded log: {marks} marks of more than 60 events that are named")
    } else {
        println!(rt; "a folded log: {marks} marks of {events} events that are named")
    }
}

fn main(rt: HostRuntime) -> io::Result<()> {
    let alloc = rt.alloc();
    let text = io::read_to_string(alloc, rt.reader())?;
    for section in text.as_str().split("\nrows ").skip(1) {
        judge_section(&rt, alloc, section)?;
    }
    print_large(&rt, large_picture(alloc, 35)?)?;
    print_folded(&rt, folded_picture(alloc, 35)?)
}
