//! Answers of a formula on what is observed batch by batch.
//!
//! `Answering::answer` makes the answer on what was observed so far, by however many batches it
//! came: the truth of the formula, its slice and its parts (`answer`). It may be called behind any
//! number of batches, and again: what it keeps goes on with what is observed later (`goes_on`, and
//! the law `what_goes_on_goes_on_later`). So batches that nobody asks an answer for cost no
//! look-up.
//!
//! `Answering::settled` has the rows of each of the `Answering::conjunctions` of the last answer.
//! Each answer begins at the rows of the one before, those of atoms are settled by steps
//! (`by_steps`), and one worker takes at most the steps of their rise (`looks`). From the second
//! answer on, the system of the order's pulls is kept too, and the next answer grows it. After want
//! of memory nothing is kept, and the next answer begins anew.
//!
//! Nothing is said of the time or the memory that a call takes, nor of the steps of several
//! workers.
#![tactic(auto)]

mod answering;
mod laws;

pub use answering::Answering;
pub use conjunctions::{Answer, Means};
pub use laws::{a_fresh_start_answers_the_same, what_goes_on_goes_on_later};
