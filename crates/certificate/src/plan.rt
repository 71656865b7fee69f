//! The plan of a formula.
ghost use Rattle.std.specs.Prelude.{◌≡◌, ◌+◌, ◌≤◌, ◌++◌, length, IfOk, OnOk};
ghost use Rattle.pota_base.specs.Limits.{most_parts};
ghost use Rattle.rctl_parts.specs.Pieces.{piece_of, pieces_of, pieces, disjuncts_of};
ghost use Rattle.rctl_parts.specs.MadeFor.{PieceFits, EachFits, AllFit, disjuncts_count};
ghost use Rattle.part_pulls.specs.Observing.{IsReady, scope_seen, lens_seen};
ghost use Rattle.part_pulls.specs.Counters.{AllRise, CountersRise, counters_of_part};
ghost use Rattle.part_pulls.specs.Counters.{counters_of_parts};
ghost use Rattle.certificate_nodes.specs.Plans.{IsPlan};
ghost use Rattle.certificate.specs.Numbering.{nodes_of, disjunct_count, asked_by, asked_by_all};
ghost use Rattle.certificate.specs.Numbering.{nodes_in, nodes_in_all, plan_of};

use certificate_nodes::{Asked, Node, Plan};
use part_pulls::{Observed, pulls_of_atom};
use pota_base::{List, NoMemory};
use rctl_parts::Part;
use std::alloc::Global;

/// Puts the nodes of the parts behind the others, and gives what each part asks.
#[cycle(numbering)]
fn number_parts(
    alloc: Global,
    seen: &Observed,
    parts: &[Part],
    nodes: &mut List<Node>,
) -> Result<List<Asked>, NoMemory>
    requires ready { IsReady seen.now }
    requires fits { EachFits (scope_seen seen.now) (pieces_of parts.now) }
    requires counters { AllRise seen.now (counters_of_parts (pieces_of parts.now)) }
    requires count { length nodes.old + disjunct_count (pieces_of parts.now) ≤ most_parts }
    ensures nodes { OnOk result (nodes.new ≡ nodes.old
        ++ nodes_in_all seen.now (length nodes.old) (pieces (pieces_of parts.now))) }
    ensures asked { IfOk result (λ asked. asked
        ≡ asked_by_all seen.now (length nodes.old) (pieces (pieces_of parts.now))) }
{
    let mut asked = List::new(alloc);
    'parts: for part in parts {
        let one = number_part(alloc, seen, part, nodes)?;
        asked.push(one)?;
    }
    Ok(asked)
}

/// Puts the nodes of the part behind the others, and gives what it asks.
#[cycle(numbering)]
fn number_part(
    alloc: Global,
    seen: &Observed,
    part: &Part,
    nodes: &mut List<Node>,
) -> Result<Asked, NoMemory>
    requires ready { IsReady seen.now }
    requires fits { PieceFits (scope_seen seen.now) (piece_of part.now) }
    requires counters { AllRise seen.now (counters_of_part (piece_of part.now)) }
    requires count { length nodes.old + nodes_of (piece_of part.now) ≤ most_parts }
    ensures nodes { OnOk result (nodes.new ≡ nodes.old
        ++ nodes_in seen.now (length nodes.old) (piece_of part.now)) }
    ensures asked { IfOk result (λ asked. asked
        ≡ asked_by seen.now (length nodes.old) (piece_of part.now)) }
{
    match part {
        Part::Temporal { operator, parts } => {
            let parts = number_parts(alloc, seen, parts.as_slice(), nodes)?;
            let number = nodes.len() as u32;
            let operator = *operator;
            nodes.push(Node { operator, parts })?;
            Ok(Asked::Inner(number))
        }
        Part::Local { .. }
        | Part::AtMost { .. }
        | Part::AtLeast { .. }
        | Part::Never
        | Part::DiffAtMost { .. }
        | Part::DiffAtLeast { .. } => {
            let found = pulls_of_atom(alloc, seen, part)?;
            Ok(Asked::Own(found.pulls))
        }
    }
}

/// The plan of the formula that these disjuncts are, on what was observed.
pub fn plan_of(alloc: Global, seen: &Observed, disjuncts: &[List<Part>]) -> Result<Plan, NoMemory>
    requires ready { IsReady seen.now }
    requires fits { AllFit (scope_seen seen.now) (disjuncts_of disjuncts.now) }
    requires counters { CountersRise seen.now (disjuncts_of disjuncts.now) }
    requires count { disjuncts_count (disjuncts_of disjuncts.now) ≤ most_parts }
    ensures plan { IfOk result (λ plan. plan ≡ plan_of seen.now (disjuncts_of disjuncts.now)) }
    ensures fits { IfOk result (IsPlan (lens_seen seen.now)) }
{
    // By its clause what was observed is a trace.
    let _order = seen.trace.order();
    let mut nodes = List::new(alloc);
    let mut asked = List::new(alloc);
    'disjuncts: for disjunct in disjuncts {
        let parts = number_parts(alloc, seen, disjunct.as_slice(), &mut nodes)?;
        asked.push(parts)?;
    }
    Ok(Plan {
        nodes,
        disjuncts: asked,
    })
}
