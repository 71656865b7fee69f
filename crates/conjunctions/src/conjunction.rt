//! Conjunctions, each behind those within it.
ghost use Rattle.std.specs.Prelude.{◌≡◌, ◌∷◌, [], ◌+◌, ◌<◌, ◌≤◌, true, false, length, IfOk, OnOk};
ghost use Rattle.pota_base.specs.Limits.{most_parts};
ghost use Rattle.slice_workers.specs.Spent.{spent_of};
ghost use Rattle.rctl_parts.specs.Pieces.{piece_of, pieces_of};
ghost use Rattle.rctl_parts.specs.MadeFor.{EachFits, parts_count};
ghost use Rattle.part_pulls.specs.Observing.{IsReady, scope_seen, clocks_seen, lens_seen};
ghost use Rattle.conjunctions.specs.Numbering.{within, conjunctions_in};
ghost use Rattle.part_pulls.specs.Counters.{AllRise, counters_of_parts};
ghost use Rattle.conjunctions.specs.inside.Gathering.{AddsPulls};
ghost use Rattle.conjunctions.specs.inside.Beginning.{GatheredFits};
ghost use Rattle.conjunctions.specs.Settling.{CanSettle, Settles};
ghost use Rattle.conjunctions.specs.inside.Settling.{CanSettlePart};
ghost use Rattle.conjunctions.specs.Answering.{IsSliceOf, IsPartAnswer, places_from};
ghost use Rattle.conjunctions.specs.inside.Answering.{AddsAnswers};
ghost use Rattle.conjunctions.specs.Answering.{place};

use crate::answer::PartAnswer;
use crate::atom::add_atom;
use crate::gathered::Gathered;
use crate::kinds::are_atoms;
use crate::means::Means;
use crate::operator::add_operator;
use crate::round::Round;
use crate::settling::settle_gathered;
use part_pulls::Observed;
use pota_base::{Gate, List, NoMemory, Steps};
use rctl_parts::Part;
use slice_graph::Slice;
use std::sync::ledger::Ledger;
use std::thread::Threads;

/// Settles the conjunctions within the parts and then that of the parts, and gives its slice. The
/// answers of the parts, as those of a disjunct of this number, are put behind the others.
#[cycle(conjunction)]
pub fn settle_conjunction<R: Threads + Sync, G: Gate, L: Ledger>(
    means: &Means<R, G>,
    seen: &Observed,
    parts: &[Part],
    disjunct: u32,
    round: &mut Round,
    answers: &mut List<PartAnswer>,
    steps: &mut Steps<L>,
) -> Result<Slice, NoMemory>
    requires ready { IsReady seen.now }
    requires fits { EachFits (scope_seen seen.now) (pieces_of parts.now) }
    requires count { parts_count (pieces_of parts.now) ≤ most_parts }
    requires counters { AllRise seen.now (counters_of_parts (pieces_of parts.now)) }
    requires begins { CanSettle seen.now round.old (conjunctions_in (pieces_of parts.now)) }
    ensures slice { IfOk result (λ slice. IsSliceOf seen.now slice (pieces_of parts.now)) }
    ensures settles { OnOk result (Settles seen.now means.now.workers round.old round.new
        (spent_of steps.old steps.new) (conjunctions_in (pieces_of parts.now))) }
    ensures answers { OnOk result (AddsAnswers seen.now answers.old answers.new
        (places_from disjunct 1 (pieces_of parts.now))) }
{
    let order = seen.trace.order();
    let mut gathered = Gathered::new(means.alloc, order, parts)?;
    'parts: for (index, part) in parts.iter().enumerate() {
        let number = index as u32 + 1;
        let answer = add_part(
            means,
            seen,
            part,
            disjunct,
            number,
            round,
            &mut gathered,
            steps,
        )?;
        answers.push(answer)?;
    }
    settle_gathered(means, order, gathered, are_atoms(parts), round, steps)
}

/// Settles the conjunctions within a part, and gathers what the part asks. It gives the part's
/// answer.
#[cycle(conjunction)]
fn add_part<R: Threads + Sync, G: Gate, L: Ledger>(
    means: &Means<R, G>,
    seen: &Observed,
    part: &Part,
    disjunct: u32,
    number: u32,
    round: &mut Round,
    gathered: &mut Gathered,
    steps: &mut Steps<L>,
) -> Result<PartAnswer, NoMemory>
    requires ready { IsReady seen.now }
    requires part { CanSettlePart seen.now round.old (piece_of part.now) }
    requires floor { GatheredFits (clocks_seen seen.now) gathered.old }
    ensures answer { IfOk result
        (IsPartAnswer seen.now (place disjunct number (piece_of part.now))) }
    ensures pulls { OnOk result
        (AddsPulls seen.now gathered.old.pulls gathered.new.pulls (piece_of part.now ∷ [])) }
    ensures floor { OnOk result (GatheredFits (clocks_seen seen.now) gathered.new) }
    ensures order { OnOk result (gathered.new.order ≡ gathered.old.order) }
    ensures settles { OnOk result (Settles seen.now means.now.workers round.old round.new
        (spent_of steps.old steps.new) (within (piece_of part.now))) }
{
    match part {
        Part::Temporal { operator, parts } => {
            let order = seen.trace.order();
            let mut within = List::new(means.alloc);
            let operand = settle_conjunction(
                means,
                seen,
                parts.as_slice(),
                disjunct,
                round,
                &mut within,
                steps,
            )?;
            let truth = add_operator(means.alloc, order, *operator, &operand, gathered)?;
            Ok(PartAnswer {
                disjunct,
                part: number,
                operator: Some(*operator),
                truth,
                operand: Some(operand),
            })
        }
        Part::Local { .. }
        | Part::AtMost { .. }
        | Part::AtLeast { .. }
        | Part::Never
        | Part::DiffAtMost { .. }
        | Part::DiffAtLeast { .. } => {
            let truth = add_atom(means.alloc, seen, part, gathered)?;
            Ok(PartAnswer {
                disjunct,
                part: number,
                operator: None,
                truth,
                operand: None,
            })
        }
    }
}
