//! Questions asked of a log, as one call: words and a log in, what the questions come to out.
//!
//! `ask`, for every source, sinks, words and watches: what was read and written, and what the
//! answer says of them (`answered`). Without a fault the words ask 1 to 64 questions, the input was
//! read to its end and is a log in the form that the words say, of which no fault is due by
//! `log_rules`, and what was written is the one document that this log, the questions and what each
//! comes to on the log's run have (`IsAnswer`). Each question holds of that run, by `run_model`'s
//! truth, exactly where the answer is `Holds` (`IsDocument`). With a fault nothing was written, and
//! it is that of the words, the first one of the questions, the first that is due of the log by
//! itself, the first name of the questions that the log does not have, or the first counter of
//! theirs that falls in it; after a write fault a front of the document was written. A read or
//! write fault comes only where that object's count of faults rose, and where there is an answer no
//! read failed (`calm`). The lines on `diag` are the fault's (`told`).
//!
//! Not said: that memory suffices, and how long a call takes.
#![tactic(auto)]

mod answer;
mod observed;
mod top;

pub use answer::Answer;
pub use ask_faults::Fault;
pub use top::ask;
