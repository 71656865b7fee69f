//! The rows of the present node, if there is one.
ghost use Rattle.std.specs.Prelude.{◌≡◌, ◌↔◌, ◌+◌, ◌≤◌, false, option_map, IsTrue};
ghost use Rattle.certificate_table.specs.Begun.{MayBegin, MayRaise, with_raise, with_row};
ghost use Rattle.certificate_nodes.specs.Given.{IsEnded};
ghost use Rattle.certificate_nodes.specs.Nodes.{OfPresent, looks_of};

use certificate_table::CertifiedRows;
use pota_base::Steps;
use std::sync::ledger::Ledger;

/// Whether all present rows are begun and the last is closed, or there are none.
pub(crate) fn is_ended<L: Ledger>(present: &Option<CertifiedRows>, steps: &mut Steps<L>) -> bool
    ensures ended { IsTrue result ↔ IsEnded present.now }
    ensures looks { steps.new ≤ steps.old + looks_of present.now }
{
    match present {
        None => true,
        Some(rows) => rows.is_whole(steps),
    }
}

/// Begins the row among the present ones, and says whether it may begin.
pub(crate) fn begin<L: Ledger>(
    present: &mut Option<CertifiedRows>,
    row: u32,
    after: Option<u32>,
    steps: &mut Steps<L>,
) -> bool
    ensures allowed { IsTrue result ↔ OfPresent (λ rows. MayBegin rows row after) present.old }
    ensures begun { IsTrue result
        → present.new ≡ option_map (λ rows. with_row rows row after) present.old }
    ensures same { result ≡ false → present.new ≡ present.old }
    ensures looks { steps.new ≤ steps.old + looks_of present.old }
{
    match present {
        None => false,
        Some(rows) => rows.begin(row, after, steps),
    }
}

/// Raises the row that was begun last, and says whether it may.
pub(crate) fn raise<L: Ledger>(
    present: &mut Option<CertifiedRows>,
    k: u32,
    x: u32,
    steps: &mut Steps<L>,
) -> bool
    ensures allowed { IsTrue result ↔ OfPresent (λ rows. MayRaise rows k x) present.old }
    ensures raised { IsTrue result
        → present.new ≡ option_map (λ rows. with_raise rows k x) present.old }
    ensures same { result ≡ false → present.new ≡ present.old }
    ensures looks { steps.new ≤ steps.old + 1 }
{
    match present {
        None => false,
        Some(rows) => rows.raise(k, x, steps),
    }
}
