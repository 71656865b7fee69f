//! The lines of a certificate: what each one says of the nodes, and its one spelling.
//!
//! `read_line` gives a line exactly where the bytes are its spelling (`read`, `only`); each `put_`
//! call appends a spelling with its line feed. The two lines before those of the nodes and the one
//! behind them are texts of their own. Not said: how much memory there is, and how long a call
//! takes.
#![tactic(auto)]

mod line;
mod reading;
mod writing;

pub use line::Line;
pub use reading::read_line;
pub use writing::{put_end, put_head, put_line};
