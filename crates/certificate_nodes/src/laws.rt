//! Justified steps keep what stands of nodes. The function does nothing.
ghost use Rattle.std.specs.Prelude.{ℕ, Bool, Option};
ghost use Rattle.certificate_nodes.specs.Nodes.{AreNodes, BeginsNode, Concludes, MayBeginNode};
ghost use Rattle.certificate_nodes.specs.Nodes.{MayBeginRow, MayConclude, MayRaiseRow, NodesView};
ghost use Rattle.certificate_nodes.specs.Nodes.{with_begun_row, with_raised_row};

/// What stands of nodes stands after each justified step, whatever slice a node is said to give.
pub fn justified_steps_keep_nodes()
    ensures node { (v after : NodesView) (number : ℕ) → AreNodes v → MayBeginNode v number
        → BeginsNode v after → AreNodes after }
    ensures row { (v : NodesView) (row : ℕ) (other : Option ℕ) → AreNodes v
        → MayBeginRow v row other → AreNodes (with_begun_row v row other) }
    ensures raise { (v : NodesView) (k x : ℕ) → AreNodes v → MayRaiseRow v k x
        → AreNodes (with_raised_row v k x) }
    ensures verdict { (v after : NodesView) (told : Bool) → AreNodes v → MayConclude v
        → Concludes v after told → AreNodes after }
{}
