use pota_base::List;
use report_lines::WitnessText;

/// What is told of disjuncts: their truth at the initial cut, and the witnesses that go with it.
#[derive(Drop)]
pub struct Told {
    pub truth: bool,
    pub witnesses: List<WitnessText>,
}

/// What is told of a disjunct without settling it.
#[derive(Drop)]
pub enum Reached {
    /// It is true: the witness of its part.
    Somewhere(WitnessText),
    /// It is false: the witness of its part.
    Nowhere(WitnessText),
    /// It is not EF over atoms.
    Other,
}
