//! What a question asks of a run, and how it is asked of the analyser.
//!
//! All of it is definitions and laws: a question in each of its forms holds exactly where the
//! answers to the disjuncts that are asked say so (`questions_are_answered_by_truth`), or by one
//! formula of the language (`questions_by_operators`), and which forms imply which
//! (`forms_that_imply_others`). What stands against a wrong definition are `worked_laws`, examples
//! worked by hand.
//!
//! Not said here: how the text of a question is read, and how answers are found.
#![tactic(auto)]

mod form;
mod laws;
mod worked_laws;

pub use form::Form;
pub use laws::{forms_that_imply_others, questions_are_answered_by_truth, questions_by_operators};
pub use worked_laws::{
    some_order_is_not_each_order, the_end_is_no_moment_before, true_nowhere_is_never,
    true_throughout_is_always,
};
