//! One line of a certificate about its nodes.
ghost use Rattle.std.specs.Prelude.{◌≤◌, ◌+◌, IfOk};
ghost use Rattle.std.specs.Bool.{OnFalse, OnTrue};
ghost use Rattle.certificate_text.specs.Taking.{NoneFollows};
ghost use Rattle.certificate.specs.Following.{Follows, looks_for};

use certificate_lines::Line;
use certificate_nodes::Nodes;
use pota_base::{NoMemory, Steps};
use std::alloc::Global;
use std::sync::ledger::Ledger;

/// Takes one line about the nodes, and says whether it is justified.
pub fn take_line<L: Ledger>(
    nodes: &mut Nodes,
    alloc: Global,
    line: Line,
    steps: &mut Steps<L>,
) -> Result<bool, NoMemory>
    ensures follows { IfOk result (λ ok. OnTrue ok (Follows nodes.old line nodes.new)) }
    ensures refused { IfOk result
        (λ ok. OnFalse ok (NoneFollows Follows nodes.old line)) }
    ensures looks { steps.new ≤ steps.old + looks_for nodes.old line nodes.new }
{
    match line {
        Line::Node(number) => nodes.begin_node(alloc, number, steps),
        Line::Row(row, after) => Ok(nodes.begin_row(row, after, steps)),
        Line::Raise(pull, value) => Ok(nodes.raise(pull, value, steps)),
        Line::Verdict(told) => {
            let found = nodes.conclude(alloc, steps)?;
            Ok(found == Some(told))
        }
    }
}
