//! The log of an input in one of its forms: the text of one log, several logs one behind another,
//! or records of two lines.
//!
//! `read_input`, for every source and form: what was read, and what it is (`reads`). Where it is a
//! whole log the input was read to its end, no read failed, no fault is due of its bytes by
//! `log_rules` where no formula is asked, and it is their log, all its clocks filled in. A fault is
//! the first that is due of the bytes that were read, and with it comes the front of the line that
//! it is at (`faulty_line`): at most `LONGEST_SHOWN_LINE` bytes, and none of several logs, which
//! aren't kept. A failed read stands behind bytes of which no fault is due, and there the source's
//! count of faults rose. Where memory was wanting some bytes were read (`short`).
//!
//! `Places` tells a fault at a line of a log at the place that it comes from.
//!
//! Not said: that memory suffices, and how long a call takes.
#![tactic(auto)]

mod faulty;
mod form;
mod judged;
mod places;
mod reading;

pub use faulty::LONGEST_SHOWN_LINE;
pub use form::Form;
pub use places::Places;
pub use reading::{Input, read_input};
