//! A formula over a trace that grows by batches.
//!
//! A session is an `observation` and an `answering` of it. `Session::extend` takes a batch whole,
//! or answers exactly its first fault and is as before (`ok`, `fault`), and makes the answer on the
//! trace so far (`answer`): it observes, and then answers what it observed. The law
//! `a_session_is_its_halves_in_a_row` says so of the clauses: what comes of a batch in a session is
//! what comes of it in both halves, one behind the other. After want of memory the session is
//! spent: it answers that from then on and feeds nothing (`memory`, `spent`).
//!
//! `Session::answer` has the truth of the formula, its slice and its parts on the trace so far, and
//! `Session::settled` the rows of each of the `Session::conjunctions`. The rows of a conjunction of
//! atoms are kept from answer to answer and settled by steps (`by_steps`), and one worker takes at
//! most the steps of their rise (`looks`).
//!
//! What is asked several formulas, or not behind each batch, goes by an `Observation` and by an
//! `Answering` for each formula.
//!
//! Nothing is said of the time or the memory that a call takes, nor of the steps of several
//! workers.
#![tactic(auto)]

mod answered;
mod laws;
mod session;

pub use laws::a_session_is_its_halves_in_a_row;
pub use session::Session;
