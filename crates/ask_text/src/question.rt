use event_log::States;
use pota_base::List;
use question_meaning::Form;
use question_outcome::Outcome;
use rctl_class::NamedPart;
use std::alloc::Global;

/// A run that questions were asked of.
#[derive(Clone, Copy)]
pub struct AskedRun<'a> {
    pub alloc: Global,
    pub states: &'a States,
    /// How many steps of each process are shown of the way to what was found, at most.
    pub steps: u32,
}

/// A question that was asked, and what it comes to.
#[derive(Clone, Copy)]
pub struct AskedQuestion<'a> {
    /// The question as it was asked.
    pub text: &'a [u8],
    /// The byte from which on it is the formula.
    pub formula: u32,
    pub form: Form,
    /// The disjuncts that its form asks.
    pub disjuncts: &'a [List<NamedPart>],
    pub outcome: &'a Outcome,
}
