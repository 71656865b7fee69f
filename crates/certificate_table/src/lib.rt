//! The rows of one system, begun one after the other and raised step by step, as a certificate says
//! that they are.
//!
//! A row is begun at its start, or at the maximum of its start and an earlier row of its process
//! (`begin`); it is raised by what a pull asks for at a value that it has reached (`raise`). Each
//! answers true exactly where the step is justified, and does nothing else (`allowed`, `same`).
//! Where all rows were begun and the last is closed, each is the least (`is_whole`: `least`), by
//! whatever steps it was raised.
//!
//! Not said: how much memory there is, and how long a call takes beyond its look-ups (`looks`).
#![tactic(auto)]

mod certified;
mod lending;

pub use certified::CertifiedRows;
