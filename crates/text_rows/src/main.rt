//! Reads the texts of the rows on its input, and prints for each section how many of its rows came
//! out as they must, and each row that did not. The crate `row_text` says how rows stand in
//! sections, and bytes in a TEXT.
//!
//! `formula_row` and `report_row` say what the lines of a row of formulas or of reports mean; of
//! classes and imports, of which `class_row` and `import_row` tell, each line is a row.
#![tactic(auto)]

mod class_row;
mod classing;
mod formula_row;
mod formula_verdict;
mod import_row;
mod importing;
mod kind;
mod report_reading;
mod report_row;
mod texts;

use kind::Kind;
use row_text::Section;
use std::io;

fn main(rt: HostRuntime) -> io::Result<()> {
    let alloc = rt.alloc();
    let mut section = Section::<Kind>::none(alloc);
    for line in rt.lines(alloc) {
        let line = line?;
        if let Some(next) = Section::headed(alloc, line.as_str())? {
            section.finish(&rt, alloc)?;
            section = next;
        } else {
            section.take_line(&rt, alloc, line.as_str())?;
        }
    }
    section.finish(&rt, alloc)
}
