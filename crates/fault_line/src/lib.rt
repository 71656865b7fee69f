//! Why a run gave no verdict, its status, and the one line that tells of it.
//!
//! `tell` writes the line of a program's name and a fault, and nothing where there is none. Its
//! texts are those of `specs/Lines.antt` and `specs/FaultText.antt`, byte for byte, and it takes no
//! memory.
#![tactic(auto)]

mod fault;
mod line;
mod texts;

pub use event_log::{LogCode, LogFault};
pub use fault::Fault;
pub use line::tell;
pub use texts::{formula_code_text, import_code_text, log_code_text, merge_code_text};
