//! Runs calls of single layers on the rows of its input, and prints for each section how many of
//! its rows came out as they must, and each row that did not. The crate `row_text` says how rows
//! stand in sections.
//!
//! `request_row`, `atom_row` and `slice_row` say what the lines of a row of requests, atoms or
//! slices mean: command lines are read and logs made from numbers, atoms of a run give pulls, and
//! systems of pulls give slices.
#![tactic(auto)]

mod asking;
mod atom;
mod atom_row;
mod kind;
mod made_log;
mod request_row;
mod slice_case;
mod slice_making;
mod slice_reading;
mod slice_row;
mod slice_running;
mod slice_telling;
mod slice_verdict;
mod states;

use kind::Kind;
use row_text::Section;
use std::io;

fn main(rt: HostRuntime) -> io::Result<()> {
    let alloc = rt.alloc();
    let mut section = Section::<Kind>::none(alloc);
    for line in rt.lines(alloc) {
        let line = line?;
        if let Some(next) = Section::headed(alloc, line.as_str())? {
            section.finish(&rt, alloc)?;
            section = next;
        } else {
            section.take_line(&rt, alloc, line.as_str())?;
        }
    }
    section.finish(&rt, alloc)
}
