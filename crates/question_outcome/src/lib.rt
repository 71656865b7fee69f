//! What a question comes to on a run: whether it holds, and what is shown for it.
//!
//! An outcome is that of a question (`IsOutcome`) where it says whether the question's answer is
//! yes, has the canonical witnesses against it where it is no, and, where the answer alone says
//! nothing of the run, the parts that hold nowhere. Laws: the outcomes of small questions, worked
//! by hand (`worked_outcomes`), and two outcomes of one question agree (`outcomes_agree`).
//!
//! Not said here: how an outcome is found, and how it is told.
#![tactic(auto)]

mod laws;
mod outcome;

pub use laws::{outcomes_agree, worked_outcomes};
pub use outcome::{Outcome, PartPlace};
