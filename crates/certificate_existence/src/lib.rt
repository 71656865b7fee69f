//! The canonical certificate of a formula is there: whatever nodes stand, a canonical line is
//! next, fewer lines are left behind it, and at last the verdict comes
//! (`canonical_lines_come_to_a_verdict`, `a_certificate_is_there`). `certify` says that there is
//! one at most, and that its verdict is the truth. Each function here is a law and does nothing.
//!
//! Not said: that memory suffices to make it, nor which nodes stand. Those of a formula that is
//! made for the trace do, as `certificate::nodes_for` says.
#![tactic(auto)]

ghost use Rattle.std.specs.Prelude.{ℕ, List, Bool};
ghost use Rattle.rctl_parts.specs.Pieces.{Piece};
ghost use Rattle.part_pulls.specs.declared.observed.Observed.{Observed};
ghost use Rattle.certificate_lines.specs.declared.line.Line.{Line};
ghost use Rattle.certificate_nodes.specs.Nodes.{NodesView, AreNodes};
ghost use Rattle.certificate_canonical.specs.Canonical.{IsWhole};
ghost use Rattle.certify.specs.Certifying.{IsCertificateOf, nodes_of};

/// From nodes as they stand, canonical lines come to a verdict.
pub fn canonical_lines_come_to_a_verdict()
    ensures { (v : NodesView) → AreNodes v
        → (lines : List Line) × (told : Bool) × IsWhole v lines told }
{}

/// A formula whose nodes stand has a canonical certificate. Each certificate says that they do.
pub fn a_certificate_is_there()
    ensures { (seen : Observed) (ds : List (List Piece)) (formula : List ℕ)
        → AreNodes (nodes_of seen ds)
        → (text : List ℕ) × (told : Bool) × IsCertificateOf seen ds formula text told }
{}
