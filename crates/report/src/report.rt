//! A report as values.

use cut_lattice::Cut;
use pota_base::{Bytes, List};
use pota_names::Name;
use report_lines::{Edge, WitnessText};

/// A slice (Mittal and Garg) as it is printed: between bottom and top it has the consistent cuts
/// that keep each edge.
#[derive(Debug, Drop)]
pub struct SliceText {
    /// Bottom and top, absent where the slice is empty.
    pub bounds: Option<(Cut, Cut)>,
    pub edges: List<Edge>,
}

/// What is told of a run after a batch.
#[derive(Debug, Drop)]
pub struct Report {
    /// How many batches of the run were read, at least 1.
    pub batch: u32,
    /// The names of the processes, in their order.
    pub procs: List<Name>,
    /// How many events each process has.
    pub lengths: Cut,
    /// The canonical text of the formula.
    pub formula: Bytes,
    /// Whether the formula is true at the initial cut.
    pub verdict: bool,
    /// The slice, where it was asked for.
    pub slice: Option<SliceText>,
    /// The witnesses, where they were asked for.
    pub witnesses: List<WitnessText>,
}

/// The text is that of no report.
#[derive(Clone, Copy, Debug, PartialEq, Eq)]
pub struct ReportFault {
    /// The first line at which no report goes on, from 1.
    pub line: u64,
}
