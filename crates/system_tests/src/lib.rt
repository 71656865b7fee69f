//! Tests of systems of pulls: the systems themselves, the machine that raises their rows, their
//! least closed vectors, the claims on processes, the shared table of bounds, and the workers that
//! settle it.
//!
//! They stand apart from what they test, so that each crate is proved once.
#![tactic(auto)]

#[cfg(test)]
mod bounds;
#[cfg(test)]
mod claims;
#[cfg(test)]
mod fans;
#[cfg(test)]
mod machine;
#[cfg(test)]
mod pulls;
#[cfg(test)]
mod rows;
#[cfg(test)]
mod systems;
#[cfg(test)]
mod workers;
