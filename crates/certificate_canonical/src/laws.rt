//! Laws of canonical lines.
ghost use Rattle.std.specs.Prelude.{◌≡◌, ℕ, List, ◌++◌, Bool, All};
ghost use Rattle.certificate_lines.specs.declared.line.Line.{Line};
ghost use Rattle.certificate_text.specs.Taking.{AreAccepted, fresh};
ghost use Rattle.certificate_text.specs.Running.{AllFollow, IsOfNode, certificate_lines};
ghost use Rattle.certificate_nodes.specs.Nodes.{NodesView, AreNodes};
ghost use Rattle.certificate.specs.Following.{Follows};
ghost use Rattle.certificate_canonical.specs.Canonical.{IsNext, AreNext, IsWhole};

/// Each canonical line is justified, and so are all, in their order.
pub fn canonical_lines_follow()
    ensures line { (v : NodesView) (said : Line) (after : NodesView) → IsNext v said after
        → Follows v said after }
    ensures lines { (v : NodesView) (lines : List Line) (after : NodesView)
        → AreNext v lines after → AllFollow Follows v lines after }
{}

/// What stands of the nodes has one canonical line at most, so lines that are canonical so far are
/// the front of the one whole text, which tells one verdict.
pub fn canonical_text_is_one()
    ensures line { (v : NodesView) (said other : Line) (a b : NodesView) → AreNodes v
        → IsNext v said a → IsNext v other b → said ≡ other }
    ensures front { (v : NodesView) (lines : List Line) (after : NodesView)
        (whole : List Line) (told : Bool) → AreNodes v → AreNext v lines after
        → All IsOfNode lines → IsWhole v whole told → (rest : List Line) × (whole ≡ lines ++ rest) }
    ensures whole { (v : NodesView) (lines other : List Line) (told truth : Bool) → AreNodes v
        → IsWhole v lines told → IsWhole v other truth → lines ≡ other }
    ensures verdict { (v : NodesView) (lines other : List Line) (told truth : Bool) → AreNodes v
        → IsWhole v lines told → IsWhole v other truth → told ≡ truth }
{}

/// The canonical certificate is accepted, with the verdict that it tells.
pub fn canonical_certificates_are_accepted()
    ensures { (formula : List ℕ) (v : NodesView) (lines : List Line) (told : Bool) → AreNodes v
        → IsWhole v lines told
        → AreAccepted Follows (fresh formula v) (certificate_lines formula lines) told }
{}
