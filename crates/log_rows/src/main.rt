//! Runs the one call of `pota_log` or of `pota_ask` on the rows of its input, and prints how many
//! of them came out as they must, and each row that did not.
//!
//! A line `row NAME` begins a row and a line `end` ends it. Between them are lines `word TEXT`, a
//! word of the command line; `in TEXT`, a line of the input; `out TEXT`, a line of the log that
//! must be written; `diag TEXT`, a line that must be told; and `status N`. In a TEXT, `\` and two
//! hexadecimal digits stand for one byte. Each row is run over pieces of 1, 7 and 65,536 bytes, and
//! what was written is read and written once more, which must give the same bytes. A row with a
//! line `cut A B` is run on each beginning of its input that has A bytes or more and less than B,
//! with the lines `rest TEXT` behind it. A row with a line `program pota_ask` is one of that
//! program, whose document is not read again. With a line `fails read` the first read fails, and
//! with `fails write` the first write. Rows that are wrong on purpose show that a difference is
//! told.
#![tactic(auto)]

mod row;
mod run;

use row::Row;
use run::judge;
use std::io;

fn main(rt: HostRuntime) -> io::Result<()> {
    let alloc = rt.alloc();
    let mut row = Row::new(alloc);
    let (mut all, mut good) = (0u64, 0u64);
    for line in rt.lines(alloc) {
        let line = line?;
        if line.as_str() != "end" {
            row.add_line(alloc, line.as_str())?;
            continue;
        }
        all = all.saturating_add(1);
        match judge(&rt, alloc, &row)? {
            Some(said) => println!(rt; "{}: {said}", row.name)?,
            None => good = good.saturating_add(1),
        }
        row = Row::new(alloc);
    }
    println!(rt; "logs: {good} of {all}")?;
    Ok(())
}
