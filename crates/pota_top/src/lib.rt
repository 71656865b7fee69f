//! The analyser as one call: words and a log in, reports and an outcome out.
//!
//! `pota`, for every source, sinks, words, log and watches: what was read and written, and what the
//! status says of them (`ran`). For a check, True and False stand exactly for the truth of the
//! formula at the initial cut of the whole log's run by `run_model`, and what was written is the
//! text that `log_judgement` has due of the bytes that were read: the report on the whole log, with
//! `--each-batch` also that on the log after each batch, each with verdict, slice and witnesses by
//! `run_model`. For a certificate nothing is a watch, and the text that is due is the canonical
//! certificate of the formula on the whole log, by `certify`, which tells the truth. For a bench it
//! is the summary of the log that is made, and nothing is read. Usage and Formula are the first
//! fault of the words, of the formula or of its names; a fault of the log is the first that is due
//! of the bytes. After a read fault no fault is due of the bytes that were read; after a write
//! fault the reports before that of batch `batches` were written and a front of that one, or a
//! front of the certificate; after want of memory what was written is a front of what may be due. A
//! read or write fault comes only where that object's count of faults rose (`read`, `write`).
//!
//! Where the source tells its bytes, no count rose and memory was there: each log of which no
//! fault is due is decided (`decided`), each fault that is due is the answer (`refused`), each
//! fault of the words or the formula is the answer (`misasked`), and each bench is answered
//! (`benched`). The line on `diag` is the outcome's (`told`). None of this speaks of the workers,
//! the gate or how the bytes are cut into pieces, so it holds whatever they are.
//!
//! *Not said*: that memory suffices, how long a call takes, or that a thread that is joined ends.
#![tactic(auto)]

mod inquiring;
mod top;

pub use call_promise::Outcome;
pub use fault_line::Fault;
pub use top::pota;
