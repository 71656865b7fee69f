//! The next line of the present rows.
ghost use Rattle.std.specs.Prelude.{◌≡◌, Some, IfNone, IfOk, IfSome};
ghost use Rattle.certificate_table.specs.Begun.{IsWhole, LastIsClosed, with_raise};
ghost use Rattle.certificate_raises.specs.Canonical.{AreDoubts};
ghost use Rattle.certificate_nodes.specs.Nodes.{OfPresent, with_present};
ghost use Rattle.certificate_canonical.specs.Canonical.{IsNextRaise};
ghost use Rattle.certificate_next_line.specs.inside.Coming.{AreDoubtsOf, IsNextOfRows, with_line};

use certificate_lines::Line;
use certificate_nodes::Nodes;
use certificate_raises::{Doubts, Raise, next_raise, next_row};
use certificate_table::CertifiedRows;
use pota_base::{NoMemory, Steps};
use std::alloc::Global;
use std::sync::ledger::Ledger;

/// The pulls that may fail at the present row: those that are known, or else all of them.
pub(crate) fn doubts_of(
    alloc: Global,
    rows: &CertifiedRows,
    known: Option<Doubts>,
) -> Result<Doubts, NoMemory>
    requires { AreDoubtsOf known (Some rows.now) }
    ensures { IfOk result (AreDoubts rows.now) }
{
    match known {
        Some(doubts) => Ok(doubts),
        None => Doubts::new(alloc, rows.system()),
    }
}

/// The next line of the rows, or none where they have ended. The doubts are those behind the line.
pub(crate) fn next_of_rows<L: Ledger>(
    rows: &CertifiedRows,
    doubts: &mut Doubts,
    steps: &mut Steps<L>,
) -> Option<Line>
    requires { AreDoubts rows.now doubts.old }
    ensures next { IfSome result (λ line. IsNextOfRows rows.now line) }
    ensures doubts { IfSome result (λ line. AreDoubts (with_line rows.now line) doubts.new) }
    ensures ended { IfNone result (IsWhole rows.now) }
{
    if let Some(raise) = raise_of_rows(rows, doubts, steps) {
        return Some(Line::Raise(raise.pull, raise.value));
    }
    let row = rows.begun();
    if row > rows.system().shape().events() {
        return None;
    }
    let after = next_row(rows, doubts);
    Some(Line::Row(row, after))
}

/// The raise of the present row, or none where it is closed or there is none.
fn raise_of_rows<L: Ledger>(
    rows: &CertifiedRows,
    doubts: &mut Doubts,
    steps: &mut Steps<L>,
) -> Option<Raise>
    requires { AreDoubts rows.now doubts.old }
    ensures next { IfSome result (λ raise. IsNextRaise rows.now raise.pull raise.value) }
    ensures raised { IfSome result
        (λ raise. AreDoubts (with_raise rows.now raise.pull raise.value) doubts.new) }
    ensures settled { IfNone result (LastIsClosed rows.now) }
    ensures same { IfNone result (AreDoubts rows.now doubts.new) }
{
    if rows.begun() == 0 {
        return None;
    }
    next_raise(rows, doubts, steps)
}

/// Takes the next line of the present rows.
pub(crate) fn take_of_rows<L: Ledger>(nodes: &mut Nodes, line: Line, steps: &mut Steps<L>)
    requires { OfPresent (λ rows. IsNextOfRows rows line) nodes.old.present }
    ensures { nodes.new ≡ with_present nodes.old (λ rows. with_line rows line) }
{
    match line {
        Line::Row(row, after) => {
            nodes.begin_row(row, after, steps);
        }
        Line::Raise(pull, value) => {
            nodes.raise(pull, value, steps);
        }
        Line::Node(_) | Line::Verdict(_) => unreachable!(),
    }
}
