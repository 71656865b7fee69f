//! The text of reports, written and read.
//!
//! `write_report` gives the one text of a well-formed report. `read_report` gives the report whose
//! text it is (`read`), and reads every report's text unless memory runs out (`only`). Its fault
//! comes exactly where the text is that of no report, and tells the first line at which no report
//! goes on (`fault`). `Draft::step` is one line of the reading. Not said: how much memory there
//! is, and how long a call takes.
#![tactic(auto)]

mod draft;
mod reading;
mod report;
mod writing;

pub use draft::Draft;
pub use reading::read_report;
pub use report::{Report, ReportFault, SliceText};
pub use report_lines::{Edge, WitnessText};
pub use writing::write_report;
