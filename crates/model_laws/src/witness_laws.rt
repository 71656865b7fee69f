// Laws of the witness of a part.
ghost use Rattle.std.specs.Prelude.{◌≡◌};
ghost use Rattle.run_model.specs.Run.{Run};
ghost use Rattle.run_model.specs.Formula.{Formula};
ghost use Rattle.run_model.specs.Meaning.{IsRun};
ghost use Rattle.run_model.specs.Class.{IsRegularIn};
ghost use Rattle.run_model.specs.Witness.{Witness, IsOfKind, IsWitnessOf};

/// A part that is regular in a run has exactly one witness there, which is of its kind. So the path
/// that takes at each cut the first process that goes on never sticks.
pub fn one_witness_of_a_part()
    ensures there { (r : Run) → IsRun r → (f : Formula) → IsRegularIn r f
        → (w : Witness) × IsWitnessOf r f w }
    ensures one { (r : Run) → IsRun r → (f : Formula) → IsRegularIn r f → (w v : Witness)
        → IsWitnessOf r f w → IsWitnessOf r f v → w ≡ v }
    ensures of_its_kind { (r : Run) → IsRun r → (f : Formula) → IsRegularIn r f
        → (w : Witness) → IsWitnessOf r f w → IsOfKind r f w }
{}
