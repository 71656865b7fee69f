//! What was expected where a text has a fault, and an example that is in order there.
//!
//! For each kind of fault of a log, of a text of two-line records, of logs that are merged, of a
//! formula and of a question there are exactly the texts of `specs/LogHelp.antt`,
//! `specs/QuestionHelp.antt` and `specs/OverHelp.antt`. What is wrong with a log or a formula
//! itself is `fault_line`'s to say.
#![tactic(auto)]

mod formula;
mod head;
mod import;
mod log;
mod merge;
mod over;

pub use formula::{formula_example, formula_expected};
pub use head::{head_example, head_expected, head_text};
pub use import::{import_example, import_expected};
pub use log::{log_example, log_expected};
pub use merge::{merge_example, merge_expected};
pub use over::{
    barred_example, barred_expected, barred_text, over_example, over_expected, over_text,
};
