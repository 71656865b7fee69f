//! Runs sessions on the cases of its input, and prints a line a case: `ok`, or what is told of the
//! first run that came out otherwise than it must.
//!
//! A line that is empty or begins with `#` says nothing; each other line is a keyword, and behind
//! one space what it speaks of.
//!
//! ```text
//! case NAME        a new case
//! formula TEXT     its formula
//! watch NAME KIND  a watch that is handed in: stable, owing, calm or turning
//! log TEXT         a line of the log
//! log-as-before    the whole log of the case before
//! workers N        the case is run with N workers; where it stands more than once, with each of
//!                  these numbers
//! cuttings         the case is run once for each way to cut the log's events, in their order, into
//!                  batches, and what is told of the last batch must be what is told
//! tells TEXT       a line that must be told
//! end              the case is whole
//! ```
//!
//! Behind each batch, without `cuttings`, is told `refused CODE at line N` if it has a fault, and
//! then, of the trace so far:
//!
//! ```text
//! batches N                    how many batches were taken; nothing behind it where none was
//! truth TRUTH                  the truth at the initial cut
//! slice CUT ROW ..             the slice: its least cut, and the least cut with each event
//! part I.J TRUTH               part J of disjunct I
//! part I.J OPERATOR TRUTH CUT ROW ..    a temporal one, with the slice of its operand
//! conjunction K CUT ROW ..     the rows that conjunction K was settled to
//! watch NAME TRUTH ..          what a watch that the formula names answered to each state
//! fed N                        how many states the turning watches were fed in all
//! ```
//!
//! Events go process by process, a cut that is not there is `none`, and of a batch of a cutting the
//! first line is not told. In the end, when the session is dropped, `dropped N` tells how many
//! turning watches were dropped with it.
#![tactic(auto)]

mod case;
mod log;
mod opening;
mod reading;
mod running;
mod taking;
mod telling;
mod verdict;

use case::Case;
use reading::add_line;
use std::alloc::Global;
use std::io;
use std::thread::Threads;
use verdict::judge;

// Prints what came of the case, and begins the one behind it.
fn finish<R: Threads + Sync + Print>(rt: &R, alloc: Global, case: &mut Case) -> io::Result<()> {
    let said = judge(rt, alloc, case)?;
    println!(rt; "{}: {}", case.name.as_str(), said.as_str())?;
    case.begin_next(alloc);
    Ok(())
}

// Takes the next line, and runs the case that it ends.
fn take_line<R: Threads + Sync + Print>(
    rt: &R,
    alloc: Global,
    case: &mut Case,
    line: &str,
) -> io::Result<()> {
    if line == "end" {
        return finish(rt, alloc, case);
    }
    add_line(alloc, case, line)?;
    Ok(())
}

fn main(rt: HostRuntime) -> io::Result<()> {
    let alloc = rt.alloc();
    let mut case = Case::new(alloc);
    for line in rt.lines(alloc) {
        let line = line?;
        take_line(&rt, alloc, &mut case, line.as_str())?;
    }
    Ok(())
}
