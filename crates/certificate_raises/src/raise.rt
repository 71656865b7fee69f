//! The canonical raise of a row.
ghost use Rattle.std.specs.Prelude.{◌+◌, ◌<◌, ◌≤◌, length, IfNone, IfSome};
ghost use Rattle.pull_system.specs.Marks.{marked};
ghost use Rattle.certificate_table.specs.Begun.{LastIsClosed, with_raise};
ghost use Rattle.certificate_raises.specs.Canonical.{AreDoubts, IsFirstFailing, from_target};
ghost use Rattle.certificate_raises.specs.Canonical.{looks_beside};

use crate::doubts::Doubts;
use certificate_table::CertifiedRows;
use pota_base::Steps;
use std::sync::ledger::Ledger;

/// A pull, and the value of its source at which it raises the present row.
#[derive(Clone, Copy, Debug, PartialEq, Eq)]
pub struct Raise {
    pub pull: u32,
    pub value: u32,
}

/// The raise of the present row by the first pull that fails there, or none where no pull does. It
/// looks up the pulls in doubt alone; the row is left as it is, and the doubts are those behind the
/// raise, which come to the pulls from its target.
pub fn next_raise<L: Ledger>(
    rows: &CertifiedRows,
    doubts: &mut Doubts,
    steps: &mut Steps<L>,
) -> Option<Raise>
    requires begun { 0 < rows.now.begun }
    requires doubts { AreDoubts rows.now doubts.old }
    ensures first { IfSome result (λ raise. IsFirstFailing rows.now raise.pull raise.value) }
    ensures raised { IfSome result
        (λ raise. AreDoubts (with_raise rows.now raise.pull raise.value) doubts.new) }
    ensures closed { IfNone result (LastIsClosed rows.now) }
    ensures same { IfNone result (AreDoubts rows.now doubts.new) }
    ensures looks { steps.new + marked doubts.new
        ≤ steps.old + marked doubts.old + looks_beside rows.now result }
{
    let raise = first_failing(rows, doubts, steps)?;
    let (_, target) = rows.system().ends(raise.pull);
    doubts.remove(raise.pull);
    doubts.add(rows.system().pulls_from(target));
    Some(raise)
}

/// The first pull that fails at the present row. Each pull that is found to hold is no longer in
/// doubt.
fn first_failing<L: Ledger>(
    rows: &CertifiedRows,
    doubts: &mut Doubts,
    steps: &mut Steps<L>,
) -> Option<Raise>
    requires begun { 0 < rows.now.begun }
    requires doubts { AreDoubts rows.now doubts.old }
    ensures first { IfSome result (λ raise. IsFirstFailing rows.now raise.pull raise.value) }
    ensures closed { IfNone result (LastIsClosed rows.now) }
    ensures doubts { AreDoubts rows.now doubts.new }
    ensures looks { IfSome result
        (λ _. steps.new + marked doubts.new ≤ steps.old + marked doubts.old + 1) }
    ensures none { IfNone result
        (steps.new + marked doubts.new ≤ steps.old + marked doubts.old) }
{
    for pull in 0..rows.system().pulls() {
        if doubts.has(pull) {
            if !rows.holds(pull, steps) {
                let value = rows.reached(pull);
                return Some(Raise { pull, value });
            }
            doubts.remove(pull);
        }
    }
    None
}
