//! How many parts a question asks.
ghost use Rattle.asked_list.specs.Lists.{asked_count};
ghost use Rattle.asked_list.specs.inside.Counts.{capped};
ghost use Rattle.asked_parts.specs.Asked.{parts_added};
ghost use Rattle.rctl_class.specs.NamedParts.{disjuncts_of, part_count, parts_count, piece_of};
ghost use Rattle.rctl_class.specs.NamedParts.{pieces_of};
ghost use Rattle.std.specs.Prelude.{◌≡◌};

use pota_base::List;
use question_meaning::Form;
use rctl_class::NamedPart;

// How many parts a part is, those of its operand counted.
#[cycle(counting)]
#[tactic(auto, using(rctl_class::proofs::Rules::named, crate::proofs::Counts::operand_counted))]
fn part_count(part: &NamedPart) -> u32
    ensures { result ≡ capped (part_count (piece_of part.now)) }
{
    match part {
        NamedPart::Local { .. } => 1,
        NamedPart::AtMost { .. } => 1,
        NamedPart::AtLeast { .. } => 1,
        NamedPart::Never { .. } => 1,
        NamedPart::DiffAtMost { .. } => 1,
        NamedPart::DiffAtLeast { .. } => 1,
        NamedPart::Temporal { parts, .. } => parts_count(parts.as_slice()).saturating_add(1),
        NamedPart::Next { parts, .. } => parts_count(parts.as_slice()).saturating_add(1),
    }
}

// The parts of a conjunction.
#[cycle(counting)]
fn parts_count(parts: &[NamedPart]) -> u32
    ensures { result ≡ capped (parts_count (pieces_of parts.now)) }
{
    let mut count: u32 = 0;
    'parts: for part in parts {
        count = count.saturating_add(part_count(part));
    }
    count
}

// How many parts the form adds to a disjunct.
fn parts_added(form: Form) -> u32
    ensures { result ≡ parts_added form }
{
    match form {
        Form::Never | Form::Can | Form::Always | Form::AlwaysByNegation | Form::Surely => 1,
        Form::AtEnd => 2,
        Form::Plain => 0,
    }
}

/// How many parts the form asks, those that it adds counted, as far as 32 bits go.
pub fn asked_count(form: Form, disjuncts: &[List<NamedPart>]) -> u32
    ensures { result ≡ capped (asked_count form (disjuncts_of disjuncts.now)) }
{
    let added = parts_added(form);
    let mut count: u32 = 0;
    'disjuncts: for disjunct in disjuncts {
        let parts = parts_count(disjunct.as_slice()).saturating_add(added);
        count = count.saturating_add(parts);
    }
    count
}
