//! One log from every form, as one call: logs of one form in, the one log that they are out.
//!
//! `write_one_log`, for every source, sinks and words: what was read and written, and what the
//! outcome says of them (`logged`). Without a fault none is due of the input by `log_rules` where
//! no formula is asked, and what was written is the text of its log in version 1, with every clock
//! and, where that is asked, in one batch. With a fault nothing was written, and it is the fault of
//! the words, the first that is due of the input, or that the text would be too long to be read;
//! after a write fault a front of the text was written. A read or write fault comes only where that
//! object's count of faults rose, and where the log was written no read failed (`calm`). The line
//! on `diag` is the fault's (`told`).
//!
//! Torn logs are those of processes that were killed. Of their whole lines it is the log of the
//! greatest beginning of the run of which everything is logged, and the lines on `diag` tell for
//! each process how many of its events are left out.
//!
//! Where the words name variables, channels or processes by `--keep`, it is the log folded to these
//! alone (`kept_log::keep`). A name that the log does not have is a fault.
//!
//! The input is judged as one without a formula: no name of one is looked up in it, and none of its
//! variables is a counter.
//!
//! Not said: that memory suffices, and how long a call takes.
#![tactic(auto)]

mod asking;
mod fault;
mod left_out;
mod telling;
mod top;
mod torn;

pub use asking::{Asked, Flags};
pub use fault::Fault;
pub use log_input::Form;
pub use top::{Logged, write_one_log};
