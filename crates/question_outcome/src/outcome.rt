use pota_base::List;
use report_lines::WitnessText;

/// A part of one of a question's disjuncts, both numbered from 1.
#[derive(Clone, Copy, Debug, PartialEq, Eq)]
pub struct PartPlace {
    pub disjunct: u32,
    pub part: u32,
}

/// What a question comes to on a run.
#[derive(Debug, Drop)]
pub struct Outcome {
    /// Whether the question holds.
    pub holds: bool,
    /// The witnesses of what was asked, where the question doesn't hold.
    pub witnesses: List<WitnessText>,
    /// The parts without an operator that hold at no consistent cut, each alone, where the answer
    /// says nothing of the run.
    pub nowhere: List<PartPlace>,
}
