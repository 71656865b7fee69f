// Laws of questions; the functions do nothing.
ghost use Rattle.std.specs.Prelude.{◌≡◌, ◌⊎◌, ℕ, List};
ghost use Rattle.rctl_grammar.specs.declared.tree.Tree.{Tree};
ghost use Rattle.command_words.specs.declared.request.Task.{Task};
ghost use Rattle.call_request.specs.declared.question.Question.{Question as Asked};
ghost use Rattle.call_request.specs.declared.question.QuestionFault.{QuestionFault as FaultOf};
ghost use Rattle.call_request.specs.Questions.{AsksFor, IsQuestion, IsQuestionFault};

/// The words ask one task of one formula, or have one first fault, and not both.
pub fn words_ask_one_thing()
    ensures question { (words : List (List ℕ)) (q : Asked) → IsQuestion words q
        → AsksFor words q.task q.stated.formula.tree }
    ensures one { (words : List (List ℕ)) (a b : Task) (t u : Tree) → AsksFor words a t
        → AsksFor words b u → (a ≡ b) × (t ≡ u) }
    ensures free { (words : List (List ℕ)) (a : Task) (t : Tree) → AsksFor words a t
        → (f : FaultOf) → IsQuestionFault words f → ⊥ }
    ensures fault { (words : List (List ℕ)) (f g : FaultOf) → IsQuestionFault words f
        → IsQuestionFault words g → f ≡ g }
{}

/// Words ask something, or have a fault.
pub fn words_ask_something()
    ensures { (words : List (List ℕ)) → ((task : Task) × (t : Tree) × AsksFor words task t)
        ⊎ ((f : FaultOf) × IsQuestionFault words f) }
{}
