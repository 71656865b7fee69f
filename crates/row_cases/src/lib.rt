//! The cases of the programs that run the analyser's one call on data: their language, and the runs
//! of a case.
//!
//! A file of cases is text. A line that is empty or begins with `#` says nothing; each other line
//! is a keyword, and behind one space what it speaks of. In a TEXT of words and logs, `\` and two
//! hexadecimal digits stand for one byte.
//!
//! ```text
//! case NAME      a new case
//! word TEXT      a word of the command line, in order; a case without words is not run through the
//!                call, but where it has a status
//! spaces N       a word of N spaces
//! log TEXT       a line of the log, without its line feed
//! log-as-before  the whole log of the case before, but for its `cut`
//! letters N      a line of N letters
//! names N        a `procs` line of N names, `P1` and so on
//! events N       N lines of local events of the only process, `P`
//! alone N        the lines from `procs` on of 32 processes, `P1` and so on, with N local events
//!                each, of which number K sets the variable `n`, 0 at first, to K
//! byte N         one byte
//! cut N          the log ends N bytes earlier
//! pieces         the case is run three times, over pieces of 1, 7 and 65,536 bytes
//! piece N        no call of the source gives, and none of the report's sink takes, more than N
//!                bytes; where it stands more than once, the case is run over each of them
//! workers N      the case is run with the words `--workers` and N behind its own; where it stands
//!                more than once, with each of them
//! meetings N     workers 1 and 2 wait for each other where they enter, and each enters N times
//! fail-log N     the call of this number of the source fails, counted from 1
//! fail-out N     the same of the report's sink
//! fail-diag N    the same of the sink for the line that tells of a fault
//! each-read      the case is run once more for each number of a call of the source, from 1 on,
//!                which fails: that is told and a front of the report stands, up to the first
//!                number at which nothing fails, and what comes out is the case's
//! each-write     the same of the report's sink
//! room N         the report's sink has room for N bytes
//! fault N        the fault that reading and checking the log must find, by the number that its
//!                line has behind the `L`
//! line N         its line
//! status N       the status that must come out
//! batches N      the batches that must have been taken, 0 where the line is left out
//! report TEXT    a line of the report that must be written
//! written N      of the report's lines the first N bytes alone are written
//! diag TEXT      the line on the sink for faults, without its line feed
//! end            the case is whole
//! ```
//!
//! Each run hands in the watches `stable`, `owing` and `calm`, and two more, `flip` and `idle`,
//! which answer false, true, false and so on, whatever they are fed. These two must have been
//! dropped when the call ends.
//!
//! That each function is safe and ends is proved, and no more: what the lines mean is shown by the
//! programs.
#![tactic(auto)]

mod came;
mod case;
mod cut_short;
mod generated;
mod handed;
#[cfg(test)]
mod in_turn;
mod line;
mod meeting;
mod run;
mod verdict;

pub use case::Case;
pub use generated::{put_clock, put_names, put_number};
pub use verdict::{judge, want_what_comes};
