// Laws of formulas whose names were looked up.
ghost use Rattle.rctl_class.specs.Classed.{IsClassed};
ghost use Rattle.rctl_class.specs.NamedParts.{NamedPiece, disjuncts_uses};
ghost use Rattle.rctl_class.specs.Nodes.{Node};
ghost use Rattle.rctl_class.specs.Uses.{KnownNames, first_unknown, uses_of};
ghost use Rattle.std.specs.Prelude.{◌≡◌, [], List};
ghost use Rattle.rctl_names.specs.Laws.{ResolvedPartsAreKeptAlike, ResolvedPartsHaveTheCounters};
ghost use Rattle.rctl_names.specs.Laws.{ResolvedPartsMeanTheFormula};

/// At each consistent cut of each run, so of each run with that header, the formula that the parts
/// with numbers spell is true exactly where the formula that was read is.
pub fn resolved_parts_mean_the_formula()
    ensures { ResolvedPartsMeanTheFormula }
{}

/// The parts with numbers have the counters of the formula, and a run keeps what they ask for
/// exactly where it keeps what the formula asks for.
pub fn resolved_parts_have_the_counters_of_the_formula()
    ensures counters { ResolvedPartsHaveTheCounters }
    ensures kept { ResolvedPartsAreKeptAlike }
{}

/// The names of the disjuncts of a formula have the first fault that the names of its text have,
/// from left to right.
pub fn faults_are_in_the_order_of_the_text()
    ensures { (n : Node) (ds : List (List NamedPiece)) → IsClassed n ds → (known : KnownNames)
        → first_unknown known [] (disjuncts_uses ds) ≡ first_unknown known [] (uses_of n) }
{}
