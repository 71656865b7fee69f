// Laws of the formulas that parts spell.
ghost use Rattle.rctl_parts.specs.Pieces.{Piece};
ghost use Rattle.rctl_parts.specs.Spelled.{Names, conjunction_of, disjunction_of, formula_of};
ghost use Rattle.rctl_parts.specs.Spelled.{part_formulas};
ghost use Rattle.run_model.specs.Class.{SatDisjuncts, SatParts};
ghost use Rattle.run_model.specs.Cut.{Cut};
ghost use Rattle.run_model.specs.Meaning.{Sat};
ghost use Rattle.run_model.specs.Run.{Run};
ghost use Rattle.std.specs.Prelude.{◌↔◌, List, map};

/// The conjunction of parts is true exactly where each of them is, and the formula of disjuncts
/// exactly where some disjunct has all its parts true.
pub fn parts_spell_formulas()
    ensures conjunction { (r : Run) (names : Names) (ps : List Piece) (c : Cut)
        → SatParts r (map (formula_of names) ps) c ↔ Sat r (conjunction_of names ps) c }
    ensures disjunction { (r : Run) (names : Names) (ds : List (List Piece)) (c : Cut)
        → SatDisjuncts r (part_formulas names ds) c ↔ Sat r (disjunction_of names ds) c }
{}
