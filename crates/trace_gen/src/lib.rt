//! Logs that are made from a number.
//!
//! Promised: `generate` gives exactly the log of its definition, `generated` of
//! `specs/Generated.antt`, over the words of the kit's generator PCG XSH RR, which are defined here
//! too (`log`). That log is of version 1 and has a text within the limits, so it can be written
//! (`text`), its header notes the lines of its variables (`lines`), and its clocks and messages
//! have no fault (`clean`): it is the log of a run.
//!
//! Not said: that memory suffices, how long a call takes (`bench/generated` measures it), and that
//! the words are random.
#![tactic(auto)]

mod laws;
mod making;
mod process;
mod queue;
mod whole;
mod words;

pub use laws::first_words_of_a_seed;
pub use whole::generate;
