/// What a report shows beside the verdict.
#[derive(Clone, Copy, Debug, PartialEq, Eq)]
pub struct Shown {
    /// The slice of the formula.
    pub slice: bool,
    /// The witnesses of the verdict.
    pub witness: bool,
}
