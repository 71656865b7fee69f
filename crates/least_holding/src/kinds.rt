//! Which parts have no operator.
ghost use Rattle.least_holding.specs.Least.{are_atoms};
ghost use Rattle.part_pulls.specs.Systems.{is_atom};
ghost use Rattle.rctl_parts.specs.Pieces.{piece_of, pieces_of};
ghost use Rattle.std.specs.Prelude.{◌≡◌};

use rctl_parts::Part;

// Whether the part has no operator.
#[tactic(auto, using(rctl_parts::proofs::Rules::pieces))]
fn is_atom(part: &Part) -> bool
    ensures { result ≡ is_atom (piece_of part.now) }
{
    match part {
        Part::Temporal { .. } => false,
        Part::Local { .. }
        | Part::AtMost { .. }
        | Part::AtLeast { .. }
        | Part::Never
        | Part::DiffAtMost { .. }
        | Part::DiffAtLeast { .. } => true,
    }
}

/// Whether none of the parts has an operator.
pub fn are_atoms(parts: &[Part]) -> bool
    ensures { result ≡ are_atoms (pieces_of parts.now) }
{
    for part in parts {
        if !is_atom(part) {
            return false;
        }
    }
    true
}
