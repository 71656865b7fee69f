//! The words of the command line: what they ask for, and which words are refused.
//!
//! Promised: `read_request` gives what the words ask for, and `None` exactly where they are
//! refused, both by the definition `request_of` of `specs/Request.antt`. Which words are taken is a
//! rule of this crate's own (`specs/Rule.antt`), a step for each word. The values are then read by
//! `clap`, as one simple command. On all words of the rule `clap` succeeds unless it wants memory
//! (`clap_takes_the_rule`), and its values are those of the rule (`clap_gives_the_rule`).
//!
//! Not said: that memory suffices, and what `clap` answers to words that the rule refuses, since it
//! isn't asked.
//!
//! What a flag more needs, a line each: its name in `flags` of `specs/Rule.antt`; its spelling in
//! `kind_of` of `src/kind.rt`; `with_flag` in `src/command.rt` and in that function's proof; its
//! look-ups in `proofs/Names.antt`; its field in `Values` (`specs/Request.antt`), `TextValues` and
//! `values_in` of both sides, and what it means (`reporting_of`, `form_of`, `has_flags`). An option
//! is the same, in `options` and `with_options`. A command more is a line in `task_of` and in
//! `task_named`, and a variant of `Task`; one that reads its input is a variant of `Product`, and a
//! form of input more is a variant of `Form`.
#![tactic(auto)]

mod command;
mod kind;
mod laws;
mod numbers;
mod reading;
mod request;
mod values;

pub use call_options::{Shown, Sizes};
pub use laws::{clap_gives_the_rule, clap_takes_the_rule};
pub use request::{Form, Inquiry, Product, Reporting, Request, Task, read_request};
