// Laws of witnesses.
ghost use Rattle.std.specs.Prelude.{◌≡◌};
ghost use Rattle.run_model.specs.Cut.{Clocks};
ghost use Rattle.run_model.specs.Run.{Run};
ghost use Rattle.run_model.specs.Consistent.{IsOrder};
ghost use Rattle.run_model.specs.Sublattice.{IsSublattice};
ghost use Rattle.run_model.specs.Slice.{Slice, StandsFor, Fits};
ghost use Rattle.run_model.specs.Formula.{Formula};
ghost use Rattle.run_model.specs.Meaning.{Family};
ghost use Rattle.run_model.specs.Witness.{WitnessOperator, IsPartOf, Witness, IsCanonical};
ghost use Rattle.run_model.specs.Witness.{IsOfKind};

use crate::sublattice_laws::SetOfCuts;

/// The canonical witness by the slice of the operand's family is of its kind.
pub fn canonical_witness()
    ensures { (r : Run) → IsOrder r.clocks → (f : Formula) → IsSublattice r.clocks (Family r f)
        → (s : Slice) → StandsFor r.clocks s (Family r f)
        → (operator : WitnessOperator) (part : Formula) → IsPartOf r operator f part
        → (w : Witness) → IsCanonical r.clocks s operator w → IsOfKind r part w }
{}

/// There is one canonical witness at most, and it goes by the set, not by the slice that is at
/// hand.
pub fn one_canonical_witness<A: SetOfCuts>()
    ensures one { (o : Clocks) (s : Slice) → Fits o s → (operator : WitnessOperator) (w v : Witness)
        → IsCanonical o s operator w → IsCanonical o s operator v → w ≡ v }
    ensures by_the_set { (o : Clocks) → IsSublattice o A.has → (s t : Slice) → StandsFor o s A.has
        → StandsFor o t A.has → (operator : WitnessOperator) (w : Witness)
        → IsCanonical o s operator w
        → IsCanonical o t operator w }
{}
