//! The canonical begin of a row.
ghost use Rattle.std.specs.Prelude.{◌≡◌, ◌≤◌, length, sum};
ghost use Rattle.pull_system.specs.Marks.{marked};
ghost use Rattle.certificate_table.specs.Begun.{with_row};
ghost use Rattle.certificate_raises.specs.Canonical.{AreDoubts, after_of};

use crate::doubts::Doubts;
use certificate_table::CertifiedRows;

/// The row that the next one begins behind. All pulls are in doubt again, as they are behind its
/// begin.
pub fn next_row(rows: &CertifiedRows, doubts: &mut Doubts) -> Option<u32>
    requires more { rows.now.begun ≤ sum rows.now.system.lens }
    requires doubts { length doubts.old ≡ length rows.now.system.pulls }
    ensures after { result ≡ after_of rows.now.system.lens rows.now.begun }
    ensures begun { AreDoubts (with_row rows.now rows.now.begun result) doubts.new }
    ensures marked { marked doubts.new ≤ length rows.now.system.pulls }
{
    doubts.reset();
    row_before(rows, rows.begun())
}

/// The row that this one begins behind.
fn row_before(rows: &CertifiedRows, row: u32) -> Option<u32>
    requires { row ≤ sum rows.now.system.lens }
    ensures { result ≡ after_of rows.now.system.lens row }
{
    let event = rows.system().shape().event_of(row)?;
    if event.position == 1 {
        return Some(0);
    }
    Some(row - 1)
}
