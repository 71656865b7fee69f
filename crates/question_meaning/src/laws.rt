// Laws of questions: how each is answered, and which imply which.
ghost use Rattle.question_meaning.specs.Asking.{AreFor, IsAnswered, MeanAt, asked_formula};
ghost use Rattle.question_meaning.specs.Asking.{question};
ghost use Rattle.question_meaning.specs.Question.{Always, AtEnd, Can, Holds, Never, Plain, Surely};
ghost use Rattle.question_meaning.specs.declared.form.Form.{Form as FormIs};
ghost use Rattle.run_model.specs.Consistent.{IsOrder};
ghost use Rattle.run_model.specs.Cut.{initial};
ghost use Rattle.run_model.specs.Formula.{Ag, Ef, Eg, Formula, Not, Temporal};
ghost use Rattle.run_model.specs.Meaning.{Sat};
ghost use Rattle.run_model.specs.Run.{Run};
ghost use Rattle.std.specs.Prelude.{◌↔◌, List};

/// A question holds exactly where the answer to what is asked says so: for whichever disjuncts the
/// formula, or its negation, is true, one of them where the form asks of one.
pub fn questions_are_answered_by_truth()
    ensures { (r : Run) → IsOrder r.clocks → (form : FormIs) (f : Formula)
        (ds : List (List Formula)) → MeanAt r ds (asked_formula form f) → AreFor form ds
        → Holds r (question form f) ↔ IsAnswered r form ds }
{}

/// Each question as one formula of the language, true or false at the initial cut.
pub fn questions_by_operators()
    ensures never { (r : Run) → IsOrder r.clocks → (f : Formula)
        → Holds r (Never f) ↔ (Sat r (Temporal Ef f) (initial r.clocks) → ⊥) }
    ensures can { (r : Run) → IsOrder r.clocks → (f : Formula)
        → Holds r (Can f) ↔ Sat r (Temporal Ef f) (initial r.clocks) }
    ensures always { (r : Run) → IsOrder r.clocks → (f : Formula)
        → Holds r (Always f) ↔ Sat r (Temporal Ag f) (initial r.clocks) }
    ensures always_by_negation { (r : Run) → IsOrder r.clocks → (f : Formula)
        → Holds r (Always f) ↔ Holds r (Never (Not f)) }
    ensures surely { (r : Run) → IsOrder r.clocks → (f : Formula)
        → Holds r (Surely f) ↔ (Sat r (Temporal Eg (Not f)) (initial r.clocks) → ⊥) }
    ensures at_end { (r : Run) → IsOrder r.clocks → (f : Formula)
        → Holds r (AtEnd f) ↔ Sat r (Temporal Ag (Temporal Ef f)) (initial r.clocks) }
{}

/// What holds at each cut holds at the initial and at the final one; each path meets what holds at
/// its first or at its last cut; and what each path meets can be. What can be is what isn't never.
pub fn forms_that_imply_others()
    ensures always_is_plain { (r : Run) → (f : Formula) → Holds r (Always f) → Holds r (Plain f) }
    ensures plain_is_surely { (r : Run) → (f : Formula) → Holds r (Plain f) → Holds r (Surely f) }
    ensures always_is_at_end { (r : Run) → IsOrder r.clocks → (f : Formula)
        → Holds r (Always f) → Holds r (AtEnd f) }
    ensures at_end_is_surely { (r : Run) → (f : Formula) → Holds r (AtEnd f) → Holds r (Surely f) }
    ensures surely_is_can { (r : Run) → IsOrder r.clocks → (f : Formula)
        → Holds r (Surely f) → Holds r (Can f) }
    ensures can_is_not_never { (r : Run) (f : Formula) → Holds r (Can f) → Holds r (Never f) → ⊥ }
{}
