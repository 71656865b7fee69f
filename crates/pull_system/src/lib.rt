//! Systems of monotone pulls between the components of a vector, and one vector per row.
//!
//! A `Pull` holds a table, and `all_fit` tells whether pulls are a system. `Rows` and `Floor` hold
//! one vector per row. The laws, functions with empty bodies, say that the least closed vector
//! exists and is unique, and that where a system grows, its earlier least rows stay below the later
//! ones (`growing_systems`). Nothing is said of time.
#![tactic(auto)]

mod floor;
mod laws;
mod pull;
mod rows;

pub use floor::Floor;
pub use laws::{
    closed_lists, closed_vectors, final_rows, first_numbers, growing_systems, least_vectors,
    row_starts,
};
pub use pull::{Pull, all_fit};
pub use rows::Rows;
