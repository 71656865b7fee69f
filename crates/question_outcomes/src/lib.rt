//! The outcomes of the questions of a list, on what was observed for it.
//!
//! `outcomes` gives for each question its outcome: whether it holds, the canonical witnesses
//! against it where it doesn't, and the parts that hold nowhere where the answer alone says nothing
//! of the run (`outcomes`; `IsOutcome` of `question_outcome`). `outcome_of` gives that of one
//! question by the disjuncts that it asks (`outcome`).
//!
//! Disjuncts that are EF over atoms, as `never`, `can` and an `always` by its negation ask, need no
//! row: the least consistent cut at which the atoms are true tells whether there is one, and the
//! path there is the witness. Other disjuncts are settled. The system of the order's pulls goes
//! from one question to the next, and is made anew behind one whose disjuncts were settled.
//!
//! Not said here: that memory suffices, nor how long a call takes.
#![tactic(auto)]

mod finding;
mod forms;
mod listed;
mod nowhere;
mod reached;
mod settled;
mod telling;
mod told;

pub use listed::outcomes;
pub use telling::outcome_of;
