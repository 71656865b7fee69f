//! Laws of runs; the functions do nothing.
ghost use Rattle.std.specs.Prelude.{◌≡◌, ℕ, List, Option};
ghost use Rattle.pota_base.specs.Outside.{Rose};
ghost use Rattle.pota_base.specs.declared.status.Status.TheVariants.{ReadFault, WriteFault};
ghost use Rattle.pota_base.specs.Limits.{longest_log};
ghost use Rattle.pota_base.specs.Changes.{change_of};
ghost use Rattle.command_words.specs.declared.request.Form.{Form};
ghost use Rattle.log_rules.specs.Readings.{IsReading};
ghost use Rattle.call_promise.specs.declared.outcome.Outcome.{Outcome as OutcomeIs};
ghost use Rattle.call_promise.specs.Asking.{Handing, reading_of};
ghost use Rattle.call_promise.specs.Run.{IsBenchAnswered, IsCalm, IsDecided, IsRefusedAsAsked};
ghost use Rattle.call_promise.specs.Run.{IsRefusedAsDue, Ran};

/// An input of each form is read so that a fault stays, and without one has at most 64 MiB.
pub fn each_form_is_read()
    ensures { (f : Form) → IsReading longest_log (reading_of f) }
{}

/// A read or write fault is answered only where that object's count of faults rose.
pub fn faults_have_a_cause()
    ensures read { (left rest held now : Option (List ℕ)) (lf lf_now of of_now : ℕ) (on : Handing)
        (words : List (List ℕ)) (o : OutcomeIs) → Ran (change_of left rest lf lf_now)
        (change_of held now of of_now) on words o → o.status ≡ ReadFault → Rose lf lf_now }
    ensures write { (left rest held now : Option (List ℕ)) (lf lf_now of of_now : ℕ) (on : Handing)
        (words : List (List ℕ)) (o : OutcomeIs) → Ran (change_of left rest lf lf_now)
        (change_of held now of of_now) on words o → o.status ≡ WriteFault → Rose of of_now }
{}

/// Where no count rose and there was memory, each log of which no fault is due is decided, each
/// fault that is due is the answer, each fault of the words or their formula is, and each bench is
/// answered.
pub fn calm_runs_answer()
    ensures decided { (left rest held now : Option (List ℕ)) (lf lf_now of of_now : ℕ)
        (on : Handing) (words : List (List ℕ)) (o : OutcomeIs) → Ran (change_of left rest lf lf_now)
        (change_of held now of of_now) on words o → IsCalm lf lf_now of of_now o → IsDecided left on
        words held now o }
    ensures refused { (left rest held now : Option (List ℕ)) (lf lf_now of of_now : ℕ)
        (on : Handing) (words : List (List ℕ)) (o : OutcomeIs) → Ran (change_of left rest lf lf_now)
        (change_of held now of of_now) on words o → IsCalm lf lf_now of of_now o → IsRefusedAsDue
        left on words held now o }
    ensures misasked { (left rest held now : Option (List ℕ)) (lf lf_now of of_now : ℕ)
        (on : Handing) (words : List (List ℕ)) (o : OutcomeIs) → Ran (change_of left rest lf lf_now)
        (change_of held now of of_now) on words o → IsCalm lf lf_now of of_now o → IsRefusedAsAsked
        words held now o }
    ensures benched { (left rest held now : Option (List ℕ)) (lf lf_now of of_now : ℕ)
        (on : Handing) (words : List (List ℕ)) (o : OutcomeIs) → Ran (change_of left rest lf lf_now)
        (change_of held now of of_now) on words o → IsCalm lf lf_now of of_now o → IsBenchAnswered
        on words held now o }
{}
