// Laws of the parts of a formula, and of what its truth goes by.
ghost use Rattle.std.specs.Prelude.{◌≡◌, ◌↔◌, true, [], ◌∷◌};
ghost use Rattle.run_model.specs.Cut.{Cut};
ghost use Rattle.run_model.specs.Run.{Run};
ghost use Rattle.run_model.specs.Consistent.{IsOrder, IsConsistent};
ghost use Rattle.run_model.specs.Sublattice.{IsSublattice};
ghost use Rattle.run_model.specs.Formula.{Formula};
ghost use Rattle.run_model.specs.Meaning.{IsRun, Sat, Family};
ghost use Rattle.run_model.specs.Class.{IsRegular, IsRegularIn, parts, disjuncts, SatParts};
ghost use Rattle.model_laws.specs.Agreement.{AgreeOn};

/// A regular formula has one disjunct, which is its parts, and is true exactly where all of them
/// are.
pub fn parts_mean_the_formula()
    ensures one_disjunct { (f : Formula) → IsRegular f → disjuncts true f ≡ parts true f ∷ [] }
    ensures meaning { (r : Run) → IsOrder r.clocks → (f : Formula) → IsRegular f
        → (c : Cut) → IsConsistent r.clocks c → SatParts r (parts true f) c ↔ Sat r f c }
{}

/// The family of a formula that is regular in a run is closed under minimum and maximum (Garg and
/// Mittal; Sen and Garg).
pub fn families_regular_in_a_run_are_closed()
    ensures { (r : Run) → IsRun r → (f : Formula) → IsRegularIn r f
        → IsSublattice r.clocks (Family r f) }
{}

/// Two runs with the same clocks that agree on what a formula names give it the same truth.
pub fn truth_goes_by_what_is_named()
    ensures { (r s : Run) → r.clocks ≡ s.clocks → (f : Formula) → AgreeOn r s f
        → (c : Cut) → Sat r f c ↔ Sat s f c }
{}
