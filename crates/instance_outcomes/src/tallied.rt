use asked_instances::Pair;
use pota_base::{Bytes, List};
use question_meaning::Form;
use question_outcome::Outcome;
use rctl_class::NamedPart;

/// An instance of a question over processes, and what it comes to.
#[derive(Debug, Drop)]
pub struct Answered {
    pub pair: Pair,
    pub text: Bytes,
    /// The byte of the text from which on it is the formula.
    pub formula: u32,
    pub form: Form,
    /// The disjuncts that its form asks.
    pub disjuncts: List<List<NamedPart>>,
    pub outcome: Outcome,
}

/// What all instances of a question over processes come to.
#[derive(Debug, Drop)]
pub struct Tally {
    /// How many there are.
    pub asked: u32,
    /// How many of them fail.
    pub fails: u32,
    /// In how many of them some part holds nowhere.
    pub nowhere: u32,
    /// The first one that fails, or the first one where none does.
    pub shown: Option<Answered>,
}
