//! The slice that a node of a certificate gives is there, whatever its operator and its system are
//! (`a_node_gives_a_slice`). The function is a law and does nothing.
//!
//! Not said: how it is made. `certificate_nodes` makes it of the node's rows.
#![tactic(auto)]

ghost use Rattle.std.specs.Prelude.{◌≡◌};
ghost use Rattle.pota_base.specs.Shape.{IsShape};
ghost use Rattle.run_model.specs.Cut.{Clocks, lengths};
ghost use Rattle.run_model.specs.Consistent.{IsOrder};
ghost use Rattle.pull_system.specs.System.{SystemView, IsSystem};
ghost use Rattle.slice_graph.specs.Views.{SliceView};
ghost use Rattle.rctl_grammar.specs.declared.tree.Operator.{Operator};
ghost use Rattle.certificate_nodes.specs.Given.{IsGiven};

/// There is a slice of the cuts at which the operator over the system's closed cuts is true.
pub fn a_node_gives_a_slice()
    ensures { (o : Clocks) → IsOrder o → IsShape (lengths o) → (operator : Operator)
        (system : SystemView) → IsSystem system → system.lens ≡ lengths o
        → (slice : SliceView) × IsGiven o operator system slice }
{}
