// Laws of truth and of the class of formulas that is analysed.
ghost use Rattle.std.specs.Prelude.{◌≡◌, ◌⊎◌, ◌↔◌, true, List, ◌∷◌, length, IsTrue};
ghost use Rattle.run_model.specs.Cut.{Cut};
ghost use Rattle.run_model.specs.Run.{Run};
ghost use Rattle.run_model.specs.Consistent.{IsOrder, IsConsistent};
ghost use Rattle.run_model.specs.Sublattice.{IsSublattice, Smallest};
ghost use Rattle.run_model.specs.Slice.{Slice, StandsFor};
ghost use Rattle.run_model.specs.Operators.{joined_all};
ghost use Rattle.run_model.specs.Formula.{Formula};
ghost use Rattle.run_model.specs.Meaning.{IsRun, Sat, Family};
ghost use Rattle.run_model.specs.Class.{is_wide, IsKeptFor, IsRegular, IsRegularIn, IsOfClass};
ghost use Rattle.run_model.specs.Class.{disjuncts, SatDisjuncts, DisjunctFamily};
ghost use Rattle.run_model.specs.Class.{StandForDisjuncts, AreRegular, HaveRegularParts};
ghost use Rattle.run_model.specs.Class.{PartsKeptFor, DisjunctsKeptFor, Shown};

/// A formula is true or false at each consistent cut.
pub fn truth_is_decided()
    ensures { (r : Run) → IsOrder r.clocks → (f : Formula) (c : Cut) → IsConsistent r.clocks c
        → Sat r f c ⊎ (Sat r f c → ⊥) }
{}

/// The family of a regular formula is closed under minimum and maximum (Garg and Mittal; Sen and
/// Garg). Where it has differences, their variables never fall in the run.
pub fn regular_families_are_closed()
    ensures { (r : Run) → IsRun r → (f : Formula) → IsRegularIn r f
        → IsSublattice r.clocks (Family r f) }
{}

/// A formula is true exactly where some disjunct has all its parts true, and a formula of the class
/// has one disjunct exactly where it is regular.
pub fn disjuncts_mean_the_formula()
    ensures meaning { (r : Run) → IsOrder r.clocks → (f : Formula) (c : Cut)
        → IsConsistent r.clocks c → SatDisjuncts r (disjuncts true f) c ↔ Sat r f c }
    ensures one { (f : Formula) → IsTrue (is_wide f) → IsOfClass f → IsRegular f
        ↔ (length (disjuncts true f) ≡ 1) }
{}

/// The set that is shown of a formula is closed: the family of a regular formula, and else the
/// smallest closed set that holds the family.
pub fn shown_sets_are_closed()
    ensures closed { (r : Run) → IsRun r → (f : Formula) → IsKeptFor r f
        → IsSublattice r.clocks (Shown r f) }
    ensures smallest { (r : Run) → IsRun r → (f : Formula) → IsKeptFor r f → (c : Cut)
        → Shown r f c ↔ Smallest (Family r f) c }
{}

/// A regular formula is of the class, and the disjuncts of a formula of the class are made of
/// regular parts, of which the run keeps what it keeps for the formula; so their families are
/// closed.
pub fn disjuncts_have_regular_parts()
    ensures of_the_class { (f : Formula) → IsRegular f → IsOfClass f }
    ensures parts { (f : Formula) → IsOfClass f → HaveRegularParts (disjuncts true f) }
    ensures kept { (r : Run) (f : Formula) → IsKeptFor r f → DisjunctsKeptFor r (disjuncts true f) }
    ensures closed { (r : Run) → IsRun r → (d : List Formula) → AreRegular d → PartsKeptFor r d
        → IsSublattice r.clocks (DisjunctFamily r d) }
{}

/// The joined slice of the disjuncts of a formula of the class is that of the set that is shown.
pub fn joined_disjuncts_show_the_formula()
    ensures { (r : Run) → IsRun r → (f : Formula) → IsOfClass f → IsKeptFor r f
        → (d : List Formula) (ds : List (List Formula)) → disjuncts true f ≡ d ∷ ds
        → (s : Slice) (ss : List Slice) → StandsFor r.clocks s (DisjunctFamily r d)
        → StandForDisjuncts r ss ds → StandsFor r.clocks (joined_all s ss) (Shown r f) }
{}
