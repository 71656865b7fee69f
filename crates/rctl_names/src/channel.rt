//! Counts of messages on the way with numbers in the place of names.
ghost use Rattle.rctl_class.specs.NamedParts.{at_least, at_most, never};
ghost use Rattle.rctl_names.specs.inside.Resolving.{FaultsOf, IsPartIn};
ghost use Rattle.rctl_names.specs.inside.Seen.{header_names};
ghost use Rattle.std.specs.Prelude.{MatchResult};

use crate::numbers::process_number;
use crate::scope::Scope;
use rctl_class::Stop;
use rctl_grammar::Place;
use rctl_parts::Part;

/// At most `k` messages are on the way from the one process to the other.
#[tactic(auto, using(crate::proofs::Rules::pieces))]
pub fn at_most(scope: &Scope, sender: &Place, receiver: &Place, k: u64) -> Result<Part, Stop>
    ensures { MatchResult result
        (IsPartIn (header_names scope.now) (at_most sender.now receiver.now k))
        (FaultsOf (header_names scope.now) (at_most sender.now receiver.now k)) }
{
    Ok(Part::AtMost {
        sender: process_number(scope, sender)?,
        receiver: process_number(scope, receiver)?,
        k,
    })
}

/// At least `k` messages are on the way from the one process to the other.
#[tactic(auto, using(crate::proofs::Rules::pieces))]
pub fn at_least(scope: &Scope, sender: &Place, receiver: &Place, k: u64) -> Result<Part, Stop>
    ensures { MatchResult result
        (IsPartIn (header_names scope.now) (at_least sender.now receiver.now k))
        (FaultsOf (header_names scope.now) (at_least sender.now receiver.now k)) }
{
    Ok(Part::AtLeast {
        sender: process_number(scope, sender)?,
        receiver: process_number(scope, receiver)?,
        k,
    })
}

/// Fewer than no messages on the way, which never holds: both names are looked up all the same.
#[tactic(auto, using(crate::proofs::Rules::pieces))]
pub fn never(scope: &Scope, sender: &Place, receiver: &Place) -> Result<Part, Stop>
    ensures { MatchResult result
        (IsPartIn (header_names scope.now) (never sender.now receiver.now))
        (FaultsOf (header_names scope.now) (never sender.now receiver.now)) }
{
    let _sender = process_number(scope, sender)?;
    let _receiver = process_number(scope, receiver)?;
    Ok(Part::Never)
}
