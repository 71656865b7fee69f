// Laws of the class, of the disjuncts, and of the formulas that were read.
ghost use Rattle.rctl_class.specs.Classed.{IsClassed, disjunct_formulas};
ghost use Rattle.rctl_class.specs.Counters.{NoneFalls, counters_of, disjuncts_counters};
ghost use Rattle.rctl_class.specs.Faults.{first_fault};
ghost use Rattle.rctl_class.specs.NamedParts.{NamedPiece};
ghost use Rattle.rctl_class.specs.Nodes.{IsWithinLimits, Node, formula_of, node_of};
ghost use Rattle.rctl_grammar.specs.Shape.{meaning};
ghost use Rattle.rctl_grammar.specs.declared.tree.Tree.{Tree};
ghost use Rattle.rctl_round_trip.specs.PassedOn.{IsReadAs};
ghost use Rattle.run_model.specs.Class.{DisjunctsKeptFor, IsKeptFor, IsOfClass, IsRegular};
ghost use Rattle.run_model.specs.Class.{SatDisjuncts};
ghost use Rattle.run_model.specs.Consistent.{IsConsistent, IsOrder};
ghost use Rattle.run_model.specs.Cut.{Cut};
ghost use Rattle.run_model.specs.Formula.{Formula};
ghost use Rattle.run_model.specs.Meaning.{Sat};
ghost use Rattle.run_model.specs.Run.{Run};
ghost use Rattle.std.specs.Prelude.{◌≡◌, ◌↔◌, ℕ, List, None, false, length, true};

/// A formula has no fault exactly where it is of the class.
pub fn faultless_formulas_are_of_the_class()
    ensures { (n : Node) → (first_fault false true n ≡ None) ↔ IsOfClass (formula_of n) }
{}

/// A formula of the class is true at a consistent cut exactly where some disjunct has all its
/// parts true, and it has one disjunct exactly where it is regular.
pub fn disjuncts_mean_the_formula()
    ensures meaning { (n : Node) (ds : List (List NamedPiece)) → IsClassed n ds
        → (r : Run) → IsOrder r.clocks → (c : Cut) → IsConsistent r.clocks c
        → SatDisjuncts r (disjunct_formulas ds) c ↔ Sat r (formula_of n) c }
    ensures one { (n : Node) (ds : List (List NamedPiece)) → IsWithinLimits n → IsClassed n ds
        → IsRegular (formula_of n) ↔ (length ds ≡ 1) }
{}

/// A run keeps what a formula or disjuncts ask for exactly where none of their counters, which are
/// the variables of their differences, ever falls.
pub fn counters_are_what_is_asked()
    ensures formula { (r : Run) (f : Formula) → IsKeptFor r f ↔ NoneFalls r (counters_of f) }
    ensures disjuncts { (r : Run) (ds : List (List Formula))
        → DisjunctsKeptFor r ds ↔ NoneFalls r (disjuncts_counters ds) }
{}

/// A formula that was read has at most 64 nodes, each number that messages or a difference are
/// compared with has 64 bits with a sign, and each `and` and `or` has two members or more; its
/// nodes spell what it means.
pub fn read_formulas_are_within_limits()
    ensures limits { (text : List ℕ) (t : Tree) → IsReadAs text t → IsWithinLimits (node_of t) }
    ensures meaning { (text : List ℕ) (t : Tree) → IsReadAs text t
        → formula_of (node_of t) ≡ meaning t }
{}
