// Laws of the grammar's definitions.
ghost use Rattle.rctl_grammar.specs.Grammar.{Disjunction, tree_disjunction};
ghost use Rattle.rctl_grammar.specs.Shape.{shape_disjunction, shape_of};
ghost use Rattle.std.specs.Prelude.{◌≡◌};

/// The tree of a derivation, without its places, is what the derivation spells.
pub fn trees_are_spelled()
    ensures { (d : Disjunction) → shape_of (tree_disjunction d) ≡ shape_disjunction d }
{}
