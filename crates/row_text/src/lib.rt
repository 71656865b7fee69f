//! The texts of the programs that run rows: how they spell bytes, in pieces in which `\` and two
//! hexadecimal digits stand for one byte, how rows of one kind stand in sections, and how they are
//! counted. A line `rows KIND NAME` begins a section. A line that begins with `#` says nothing, and
//! an empty line ends a row, where not each line is one.
//!
//! That the functions are safe and end is proved, and no more: what a piece stands for and how rows
//! are counted is shown by the rows, some of which are wrong on purpose.
#![tactic(auto)]

mod piece;
mod section;
mod tally;

pub use piece::{put_piece, put_times, word_of};
pub use section::{RowKind, Section};
pub use tally::Tally;
