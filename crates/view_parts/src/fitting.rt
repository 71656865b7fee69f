//! Which reports are those of a run.
ghost use Rattle.std.specs.Prelude.{◌≡◌, ◌↔◌, IsTrue};
ghost use Rattle.view_parts.specs.Parts.{IsReportOf};

use event_log::States;
use pota_names::Name;
use report::Report;

// Whether the names are the same, in the same order.
fn are_same(names: &[Name], others: &[Name]) -> bool
    ensures { IsTrue result ↔ (names.now ≡ others.now) }
{
    if names.len() != others.len() {
        return false;
    }
    for i in 0..names.len() {
        if names[i].as_bytes() != others[i].as_bytes() {
            return false;
        }
    }
    true
}

/// Whether the report has the processes of the run, and as many events of each. Then each event
/// that it names is there.
pub fn is_report_of(states: &States, report: &Report) -> bool
    ensures { IsTrue result ↔ IsReportOf states.now report.now }
{
    are_same(report.procs.as_slice(), states.header().procs.as_slice())
        && report.lengths.as_slice() == states.shape().lens()
}
