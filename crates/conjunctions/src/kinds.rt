//! What the parts of a conjunction are: atoms, and operators that give the order.
ghost use Rattle.std.specs.Prelude.{◌≡◌};
ghost use Rattle.rctl_parts.specs.Pieces.{piece_of, pieces_of};
ghost use Rattle.part_pulls.specs.Operating.{operator_gives_order};
ghost use Rattle.part_pulls.specs.Systems.{is_atom};
ghost use Rattle.conjunctions.specs.Numbering.{all_atoms};
ghost use Rattle.conjunctions.specs.inside.Numbering.{part_gives_order, gives_order};

use rctl_grammar::Operator;
use rctl_parts::Part;

/// Whether the part isn't temporal.
#[tactic(auto, using(rctl_parts::proofs::Rules::pieces))]
fn is_atom(part: &Part) -> bool
    ensures { result ≡ is_atom (piece_of part.now) }
{
    match part {
        Part::Temporal { .. } => false,
        Part::Local { .. }
        | Part::AtMost { .. }
        | Part::AtLeast { .. }
        | Part::Never
        | Part::DiffAtMost { .. }
        | Part::DiffAtLeast { .. } => true,
    }
}

/// Whether none of the parts is temporal.
pub fn are_atoms(parts: &[Part]) -> bool
    ensures { result ≡ all_atoms (pieces_of parts.now) }
{
    for part in parts {
        if !is_atom(part) {
            return false;
        }
    }
    true
}

/// Whether the operator gives the order: whether only consistent cuts are closed under its pulls.
fn operator_gives_order(operator: Operator) -> bool
    ensures { result ≡ operator_gives_order operator }
{
    matches!(operator, Operator::Ef | Operator::Ag | Operator::Eg)
}

/// Whether the part is an operator that does.
#[tactic(auto, using(rctl_parts::proofs::Rules::pieces))]
fn part_gives_order(part: &Part) -> bool
    ensures { result ≡ part_gives_order (piece_of part.now) }
{
    match part {
        Part::Temporal { operator, .. } => operator_gives_order(*operator),
        Part::Local { .. }
        | Part::AtMost { .. }
        | Part::AtLeast { .. }
        | Part::Never
        | Part::DiffAtMost { .. }
        | Part::DiffAtLeast { .. } => false,
    }
}

/// Whether some part gives the order.
pub fn give_order(parts: &[Part]) -> bool
    ensures { result ≡ gives_order (pieces_of parts.now) }
{
    for part in parts {
        if part_gives_order(part) {
            return true;
        }
    }
    false
}

/// How many conjunctions of these parts, with those within them, begin with the order's pulls.
/// Nothing that is promised rests on the number: the system that they share is kept for so many.
#[cycle(sharers)]
pub fn sharers_in(parts: &[Part]) -> u32 {
    let mut sharers: u32 = if give_order(parts) { 0 } else { 1 };
    for part in parts {
        sharers = sharers.saturating_add(sharers_of(part));
    }
    sharers
}

/// How many conjunctions within the part do.
#[cycle(sharers)]
fn sharers_of(part: &Part) -> u32 {
    match part {
        Part::Temporal { parts, .. } => sharers_in(parts.as_slice()),
        Part::Local { .. }
        | Part::AtMost { .. }
        | Part::AtLeast { .. }
        | Part::Never
        | Part::DiffAtMost { .. }
        | Part::DiffAtLeast { .. } => 0,
    }
}
