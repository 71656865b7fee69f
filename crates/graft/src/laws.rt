//! The law on the grouping of joined slices. The function does nothing.
ghost use Rattle.std.specs.Prelude.{◌≡◌};
ghost use Rattle.slice_graph.specs.Views.{SliceView};
ghost use Rattle.graft.specs.Joined.{joined_views};

/// In another grouping, joining slices gives equal rows.
pub fn joined_slices_group()
    ensures { (a b c : SliceView) → joined_views (joined_views a b) c
        ≡ joined_views a (joined_views b c) }
{}
