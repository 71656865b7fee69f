// Laws of the text of a slice.
ghost use Rattle.std.specs.Prelude.{◌≡◌, ◌↔◌};
ghost use Rattle.run_model.specs.Cut.{Cut, Clocks};
ghost use Rattle.run_model.specs.Consistent.{IsOrder};
ghost use Rattle.run_model.specs.Sublattice.{IsSublattice};
ghost use Rattle.run_model.specs.Slice.{Slice, StandsFor, SliceText, DenotedBy, IsTextOf};

use meaning_laws::sublattice_laws::SetOfCuts;

/// A closed set with a slice has exactly one text, and the text denotes the set.
pub fn one_text_of_a_closed_set<A: SetOfCuts>()
    ensures denotes { (o : Clocks) → IsOrder o → IsSublattice o A.has → (text : SliceText)
        → IsTextOf o A.has text → (c : Cut) → A.has c ↔ DenotedBy o text c }
    ensures there { (o : Clocks) → IsOrder o → IsSublattice o A.has → (s : Slice)
        → StandsFor o s A.has → (text : SliceText) × IsTextOf o A.has text }
    ensures one { (o : Clocks) → IsSublattice o A.has → (t u : SliceText)
        → IsTextOf o A.has t → IsTextOf o A.has u → t ≡ u }
{}
