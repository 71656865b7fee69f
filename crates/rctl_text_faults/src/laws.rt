// Laws of the faults of a text.
ghost use Rattle.rctl_grammar.specs.declared.fault.FormulaCode.{FormulaCode};
ghost use Rattle.rctl_grammar.specs.declared.fault.FormulaFault.{FormulaFault};
ghost use Rattle.rctl_parse.specs.Parsing.{fault_of_text};
ghost use Rattle.rctl_text_faults.specs.TextFaults.{IsFirstFault, TextHasFault};
ghost use Rattle.std.specs.Prelude.{◌≡◌, ◌↔◌, ℕ, List, None, Some};

/// The fault of a text is the first of the faults that it has, and no other is.
pub fn the_fault_is_the_first()
    ensures { (text : List ℕ) (fault : FormulaFault)
        → (fault_of_text text ≡ Some fault) ↔ IsFirstFault text fault }
{}

/// A text for which no fault is given has none.
pub fn without_a_fault_there_is_none()
    ensures { (text : List ℕ) → fault_of_text text ≡ None
        → (c : FormulaCode) (at : ℕ) → TextHasFault text c at → ⊥ }
{}
