//! The operators over any closed set that a slice stands for. The functions do nothing.
ghost use Rattle.run_model.specs.Cut.{Clocks};
ghost use Rattle.run_model.specs.Consistent.{IsConsistent};
ghost use Rattle.run_model.specs.Sublattice.{IsSublattice};
ghost use Rattle.run_model.specs.Slice.{Slice, Cuts, StandsFor};
ghost use Rattle.run_model.specs.Operators.{EfHolds, AgHolds, EgHolds};

use meaning_laws::sublattice_laws::SetOfCuts;

/// What stands for an operator's set over the cuts of a slice stands for it over each closed set
/// that the slice stands for.
pub fn operators_of_a_set<A: SetOfCuts>()
    ensures some_time { (o : Clocks) → IsSublattice o A.has → (child made : Slice)
        → StandsFor o child A.has
        → StandsFor o made (λ c. IsConsistent o c × EfHolds o (Cuts o child) c)
        → StandsFor o made (λ c. IsConsistent o c × EfHolds o A.has c) }
    ensures each_time { (o : Clocks) → IsSublattice o A.has → (child made : Slice)
        → StandsFor o child A.has
        → StandsFor o made (λ c. IsConsistent o c × AgHolds o (Cuts o child) c)
        → StandsFor o made (λ c. IsConsistent o c × AgHolds o A.has c) }
    ensures staying { (o : Clocks) → IsSublattice o A.has → (child made : Slice)
        → StandsFor o child A.has
        → StandsFor o made (λ c. IsConsistent o c × EgHolds o (Cuts o child) c)
        → StandsFor o made (λ c. IsConsistent o c × EgHolds o A.has c) }
{}
