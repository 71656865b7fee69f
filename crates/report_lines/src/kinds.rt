//! What some lines of a report say.

use witness_kinds::Witness;

/// The witness of one part of a formula.
#[derive(Debug, Drop)]
pub struct WitnessText {
    /// The number of the disjunct that the part belongs to, from 1.
    pub disjunct: u32,
    /// The number of the part in its disjunct, from 1.
    pub part: u32,
    pub witness: Witness,
}
