//! Which parts of a formula get a witness.
ghost use Rattle.std.specs.Prelude.{◌≡◌};
ghost use Rattle.answer_report.specs.inside.Choosing.{first_true};

use conjunctions::PartAnswer;

/// The number of the first disjunct of which no part is false. A number that no disjunct has is
/// one more than the last.
pub fn first_true(parts: &[PartAnswer]) -> u64
    ensures { result ≡ first_true 1 parts.now }
{
    let mut number = 1;
    for part in parts {
        if !part.truth && u64::from(part.disjunct) == number {
            number += 1;
        }
    }
    number
}
