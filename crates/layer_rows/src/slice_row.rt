//! A row of slices: a system of pulls, or several, and the slice that is made of it. Each line is a
//! keyword, and behind one space what it speaks of. Numbers are parted by commas, and processes are
//! numbered from 0.
//!
//! ```text
//! case NAME                   the name of the row
//! procs N                     a run of N processes
//! event P,N,N,..              the next event of process P, and its vector clock
//! locals N                    N more events of each process, which know their own process alone
//! part                        a new slice: that of the order's pulls and of the pulls that follow
//! pull SOURCE,TARGET,N,N,..   a pull of the part, with its table
//! possible                    of the part's slice the one that EF makes
//! always                      the one that AG makes
//! staying                     the one that EG makes
//! empty                       the joined slice of all parts has no cut
//! bottom N,N,..               its least cut
//! top N,N,..                  its greatest cut
//! edge Q,B,P,A                its next edge, from event B of process Q to event A of process P
//! has N,N,..                  it has this cut
//! lacks N,N,..                it does not
//! why OPERATOR WITNESS        the operator (possible, always, staying) over it has this witness:
//!                             none, reach CUT by EVENT .., against .., always .., stuck start,
//!                             stuck finish or stuck pair EVENT EVENT, an event as P,A
//! ```

ghost use Rattle.pota_base.specs.Blanks.{IsBlankOf};
ghost use Rattle.std.specs.Prelude.{◌<◌};

use crate::slice_case::Case;
use crate::slice_reading::add_line;
use crate::slice_verdict::difference;
use pota_base::Steps;
use std::alloc::{AllocError, Global};
use std::marker::Brand;
use std::sync::ledger::{Blank, Ledger};

// The case that the lines say.
fn case_of(alloc: Global, row: &[String]) -> Result<Case, AllocError> {
    let mut case = Case::new(alloc);
    for line in row {
        add_line(alloc, &mut case, line.as_str())?;
    }
    Ok(case)
}

fn difference_of<L: Ledger>(
    alloc: Global,
    case: &Case,
    blank: Blank,
) -> Result<Option<&'static str>, AllocError>
    requires blank { IsBlankOf L.name L.parts blank }
{
    difference(alloc, case, &mut Steps::<L>::new(blank))
}

/// What came otherwise than the row with these lines says, `None` where nothing did.
pub fn judge(alloc: Global, row: &[String]) -> Result<Option<String>, AllocError> {
    let case = case_of(alloc, row)?;
    match difference_of::<Brand>(alloc, &case, Blank::new(1))? {
        None => Ok(None),
        Some(said) => Ok(Some(format!(in alloc; "{}: {said}", case.name.as_str())?)),
    }
}
