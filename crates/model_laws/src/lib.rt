// Laws over the model of runs that the crates above cite: what the parts of a formula mean, what
// its truth goes by, the one text of a slice and the one witness of a part. Each function here is a
// law and does nothing.
//
// Not said here: how parts, texts and witnesses are found. The crates that find them say so.
#![tactic(auto)]

pub mod part_laws;
pub mod text_laws;
pub mod witness_laws;
