// Laws of outcomes.
ghost use Rattle.question_meaning.specs.declared.form.Form.TheVariants.{Can, Never};
ghost use Rattle.question_meaning.specs.declared.form.Form.{Form as FormIs};
ghost use Rattle.question_outcome.specs.Outcomes.{IsOutcome};
ghost use Rattle.question_outcome.specs.Worked.{HasOutcome, holding, place, variable_is};
ghost use Rattle.question_outcome.specs.declared.outcome.Outcome.{Outcome as OutcomeIs};
ghost use Rattle.rctl_parts.specs.Pieces.{Piece};
ghost use Rattle.rctl_parts.specs.Spelled.{Names};
ghost use Rattle.run_model.specs.Run.{Run};
ghost use Rattle.std.specs.Prelude.{◌≡◌, ◌∷◌, [], List};

/// On the five events of P and Q, `never P.x = 0 & Q.y = 1` holds though each part holds somewhere;
/// of `never P.x = 3 & Q.y = 1 | P.x = 1 & Q.y = 7` the first part of the first disjunct and the
/// second of the second hold nowhere; of `can P.x = 1` that holds nothing more is told.
pub fn worked_outcomes()
    ensures each_somewhere { HasOutcome Never
        ((variable_is 0 0 ∷ variable_is 1 1 ∷ []) ∷ []) (holding []) }
    ensures some_nowhere { HasOutcome Never
        ((variable_is 0 3 ∷ variable_is 1 1 ∷ []) ∷ (variable_is 0 1 ∷ variable_is 1 7 ∷ []) ∷ [])
        (holding (place 1 1 ∷ place 2 2 ∷ [])) }
    ensures can { HasOutcome Can ((variable_is 0 1 ∷ []) ∷ []) (holding []) }
{}

/// Two outcomes of one question on one run say alike whether it holds, and have the same places of
/// parts that hold nowhere.
pub fn outcomes_agree()
    ensures holds { (r : Run) (names : Names) (form : FormIs) (own : List (List Piece))
        (a b : OutcomeIs) → IsOutcome r names form own a → IsOutcome r names form own b
        → a.holds ≡ b.holds }
    ensures nowhere { (r : Run) (names : Names) (form : FormIs) (own : List (List Piece))
        (a b : OutcomeIs) → IsOutcome r names form own a → IsOutcome r names form own b
        → a.nowhere ≡ b.nowhere }
{}
