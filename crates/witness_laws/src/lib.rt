// A law of witnesses: what it says of a part that its witness shows nothing (`nothing_is_told`).
// The function does nothing.
//
// Not said here: which witness a part has. `model_laws` says that there is exactly one of a part
// that is regular in a run.
#![tactic(auto)]

ghost use Rattle.std.specs.Prelude.{◌≡◌, ◌↔◌};
ghost use Rattle.run_model.specs.Cut.{initial};
ghost use Rattle.run_model.specs.Run.{Name, Run};
ghost use Rattle.run_model.specs.Formula.{Ef, Ag, Eg, Formula, Temporal, Next};
ghost use Rattle.run_model.specs.Meaning.{Sat};
ghost use Rattle.run_model.specs.Witness.{IsOfKind, Nothing, Witness};

/// There is nothing to show exactly where no cut with the operand can be reached (EF), where each
/// cut that can be reached has it (AG), or where the next event of the process doesn't lead to one
/// (EX). A path that stays with the operand, or what stands against one, can always be shown (EG).
pub fn nothing_is_told()
    ensures finally { (r : Run) (f : Formula) (w : Witness) → IsOfKind r (Temporal Ef f) w
        → (w ≡ Nothing) ↔ (Sat r (Temporal Ef f) (initial r.clocks) → ⊥) }
    ensures always { (r : Run) (f : Formula) (w : Witness) → IsOfKind r (Temporal Ag f) w
        → (w ≡ Nothing) ↔ Sat r (Temporal Ag f) (initial r.clocks) }
    ensures globally { (r : Run) (f : Formula) (w : Witness) → IsOfKind r (Temporal Eg f) w
        → w ≡ Nothing → ⊥ }
    ensures next { (r : Run) (process : Name) (f : Formula) (w : Witness)
        → IsOfKind r (Next process f) w
        → (w ≡ Nothing) ↔ (Sat r (Next process f) (initial r.clocks) → ⊥) }
{}
