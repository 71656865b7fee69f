//! The nodes of a formula, before one is begun.
ghost use Rattle.std.specs.Prelude.{◌≡◌, ◌≤◌, IfOk};
ghost use Rattle.pota_base.specs.Limits.{most_parts};
ghost use Rattle.rctl_parts.specs.Pieces.{disjuncts_of};
ghost use Rattle.rctl_parts.specs.MadeFor.{AllFit, disjuncts_count};
ghost use Rattle.part_pulls.specs.Observing.{IsReady, clocks_seen, scope_seen};
ghost use Rattle.part_pulls.specs.Counters.{CountersRise};
ghost use Rattle.certificate_nodes.specs.Nodes.{AreNodes, fresh_nodes};
ghost use Rattle.certificate.specs.Numbering.{plan_of};

use crate::plan::plan_of;
use certificate_nodes::Nodes;
use part_pulls::Observed;
use pota_base::{List, NoMemory};
use rctl_parts::Part;
use std::alloc::Global;

/// The nodes of the formula that these disjuncts are, on what was observed. They keep its trace.
///
/// # Errors
///
/// `NoMemory`.
pub fn nodes_for(alloc: Global, seen: Observed, disjuncts: &[List<Part>]) -> Result<Nodes, NoMemory>
    requires ready { IsReady seen }
    requires fits { AllFit (scope_seen seen) (disjuncts_of disjuncts.now) }
    requires counters { CountersRise seen (disjuncts_of disjuncts.now) }
    requires count { disjuncts_count (disjuncts_of disjuncts.now) ≤ most_parts }
    ensures nodes { IfOk result AreNodes }
    ensures fresh { IfOk result (λ nodes. nodes
        ≡ fresh_nodes (clocks_seen seen) (plan_of seen (disjuncts_of disjuncts.now))) }
{
    let plan = plan_of(alloc, &seen, disjuncts)?;
    // By its clause what was observed is a trace.
    let _order = seen.trace.order();
    Ok(Nodes::new(alloc, seen.trace, plan))
}
