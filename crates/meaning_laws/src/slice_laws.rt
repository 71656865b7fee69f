// Laws of slices: what a slice stands for, and what its least cut, greatest cut and edges denote.
ghost use Rattle.std.specs.Prelude.{◌≡◌, ℕ, ◌↔◌, List};
ghost use Rattle.run_model.specs.Cut.{Cut, Clocks, lengths};
ghost use Rattle.run_model.specs.Consistent.{IsOrder, IsEvent};
ghost use Rattle.run_model.specs.Sublattice.{IsSublattice, IsLeast, IsGreatest, Smallest, Either};
ghost use Rattle.run_model.specs.Slice.{Slice, Cuts, StandsFor, Fits, Edge, Denoted, IsPrintedAs};
ghost use Rattle.run_model.specs.Slice.{edges_of};
ghost use Rattle.run_model.specs.Operators.{joined};

use crate::sublattice_laws::SetOfCuts;

/// A closed set is the set of the cuts of its slice (Birkhoff), and has one slice: its bottom, and
/// its row at each event.
pub fn slice_of_a_closed_set<A: SetOfCuts>()
    ensures exact { (o : Clocks) → IsSublattice o A.has → (s : Slice) → StandsFor o s A.has
        → (c : Cut) → A.has c ↔ Cuts o s c }
    ensures fits { (o : Clocks) → IsSublattice o A.has → (s : Slice) → StandsFor o s A.has
        → Fits o s }
    ensures one_bottom { (o : Clocks) → IsSublattice o A.has → (s t : Slice) → StandsFor o s A.has
        → StandsFor o t A.has → s.bottom ≡ t.bottom }
    ensures one_row { (o : Clocks) → IsSublattice o A.has → (s t : Slice) → StandsFor o s A.has
        → StandsFor o t A.has → (i a : ℕ) → IsEvent (lengths o) i a → s.row i a ≡ t.row i a }
{}

/// The cuts of a slice are closed under minimum and maximum, whatever its rows are.
pub fn cuts_are_closed()
    ensures { (o : Clocks) → IsOrder o → (s : Slice) → IsSublattice o (Cuts o s) }
{}

/// The least cut, the greatest cut and the edges denote the cuts of the slice.
pub fn edges_denote_the_cuts()
    ensures { (o : Clocks) → IsOrder o → (s : Slice) (low high : Cut) → IsLeast (Cuts o s) low
        → IsGreatest (Cuts o s) high → (c : Cut) → Cuts o s c
        ↔ Denoted o low high (edges_of o s high) c }
{}

/// The least cut, the greatest cut and the edges that are printed of a closed set denote it.
pub fn printed_text_denotes<A: SetOfCuts>()
    ensures { (o : Clocks) → IsOrder o → IsSublattice o A.has → (low high : Cut) (edges : List Edge)
        → IsPrintedAs o A.has low high edges → (c : Cut) → A.has c ↔ Denoted o low high edges c }
{}

/// The joined slice of two sets stands for the smallest sublattice round both (Mittal and Garg).
pub fn joined_slice<A: SetOfCuts, B: SetOfCuts>()
    ensures { (o : Clocks) (s t : Slice) → StandsFor o s A.has → StandsFor o t B.has
        → StandsFor o (joined s t) (Smallest (Either A.has B.has)) }
{}

/// In another grouping, joining slices gives equal bottoms and rows.
pub fn joined_slices_group()
    ensures bottoms { (s t u : Slice)
        → (joined (joined s t) u).bottom ≡ (joined s (joined t u)).bottom }
    ensures rows { (s t u : Slice) (i a : ℕ)
        → (joined (joined s t) u).row i a ≡ (joined s (joined t u)).row i a }
{}
