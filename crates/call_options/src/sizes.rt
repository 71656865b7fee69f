/// The log that a bench makes.
#[derive(Clone, Copy, Debug, PartialEq, Eq)]
pub struct Sizes {
    pub seed: u64,
    /// 1 to 32 processes.
    pub procs: u32,
    /// At most 50,000 events.
    pub events: u32,
}
