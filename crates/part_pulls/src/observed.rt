use pota_base::List;
use trace_growth::Trace;

/// What a formula by numbers is judged on.
#[derive(Debug, Drop)]
pub struct Observed {
    pub trace: Trace,
    /// The process that each watch is on, and `None` for a watch that the formula doesn't name.
    pub watch_process: List<Option<u32>>,
    /// What each watch answered, one value for each state of its process, the opening state first.
    pub watch_rows: List<List<bool>>,
}
