//! A verifier as one call: a formula, and a log with its certificate in; one line out.
//!
//! `verify`, for every source, sinks and words: what was read and written, and what the status
//! says of them (`verified`). Accepted stands only where the log has no fault, the input was read
//! to its end, and its certificate is accepted line by line; and then the verdict is the truth of
//! the formula at the initial cut of the log's run by `run_model`, whoever wrote the certificate
//! (`truth`). Refused stands only where the line of that number is refused, by the bytes that were
//! read or because the input has ended. The words, the formula and the log are judged first, in
//! this order, and the log by the bytes up to the line feed of its `end` line alone. A read or
//! write fault comes only where that object's count of faults rose, and a read fault only where no
//! fault is due and no line refused of the bytes before it. Where no count rose, there was memory,
//! and the source tells its bytes, each answer is given wherever its case holds (`decided`,
//! `refused`, `misasked`).
//!
//! *Not said*: that memory suffices, and how long a call takes.
#![tactic(auto)]

mod input;
mod top;

pub use fault_line::Fault;
pub use top::verify;
pub use verify_answers::Verified;
