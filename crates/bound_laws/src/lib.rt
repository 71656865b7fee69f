// Laws that join the bounds with cuts and say who may raise whose words: a consistent cut is a
// vector, and both layers order, meet and join in one way (`cuts_are_vectors`); the start of a row
// is within the cuts that have its event (`starts_are_within_cuts`); a table may begin from the
// starts (`starts_are_bounds`); and a row may lend to each row whose words have its event
// (`rows_that_may_lend`). Each function here is a law and does nothing.
//
// Not said here: how rows are found. The crates that find them say so.
#![tactic(auto)]

pub mod cut_laws;
pub mod row_laws;
