// Laws of questions that are read.
ghost use Rattle.question_forms.specs.Questions.{IsAsking, IsQuestion, IsQuestionFault};
ghost use Rattle.question_forms.specs.Taking.{Takes, form_fault};
ghost use Rattle.question_forms.specs.declared.question.Question.{Question as QuestionIs};
ghost use Rattle.question_forms.specs.declared.question.QuestionFault.{QuestionFault as FaultIs};
ghost use Rattle.question_meaning.specs.Asking.{IsAnswered, question};
ghost use Rattle.question_meaning.specs.Question.{Holds};
ghost use Rattle.question_text.specs.declared.front.Asking.{Asking as AskingIs};
ghost use Rattle.question_text.specs.declared.head.Head.{Head as HeadIs};
ghost use Rattle.rctl_class.specs.Classed.{disjunct_formulas};
ghost use Rattle.rctl_class.specs.NamedParts.{disjuncts_of};
ghost use Rattle.rctl_class.specs.Nodes.{Node};
ghost use Rattle.rctl_grammar.specs.Shape.{meaning};
ghost use Rattle.rctl_grammar.specs.declared.tree.Tree.{Tree as TreeOf};
ghost use Rattle.run_model.specs.Class.{IsRegular, is_local};
ghost use Rattle.run_model.specs.Consistent.{IsOrder};
ghost use Rattle.run_model.specs.Formula.{Formula, Not};
ghost use Rattle.run_model.specs.Run.{Run};
ghost use Rattle.std.specs.Prelude.{◌≡◌, ◌↔◌, ◌⊎◌, ℕ, IsTrue, List, None};

/// Each text is a question in one way, or has one first fault, and none both.
pub fn each_text_is_read_or_has_a_fault()
    ensures some { (text : List ℕ)
        → ((head : HeadIs) × (t : TreeOf) × IsAsking text head t)
        ⊎ ((f : FaultIs) × IsQuestionFault text f) }
    ensures not_both { (text : List ℕ) (head : HeadIs) (t : TreeOf) (f : FaultIs)
        → IsAsking text head t → IsQuestionFault text f → ⊥ }
    ensures one_reading { (text : List ℕ) (head other : HeadIs) (t u : TreeOf)
        → IsAsking text head t → IsAsking text other u → (head ≡ other) × (t ≡ u) }
    ensures one_fault { (text : List ℕ) (f g : FaultIs)
        → IsQuestionFault text f → IsQuestionFault text g → f ≡ g }
{}

/// A form takes exactly the formulas that are said to be its. Surely takes each local one.
pub fn forms_take()
    ensures exactly { (asking : AskingIs) (n : Node)
        → (form_fault asking n ≡ None) ↔ Takes asking n }
    ensures local { (f : Formula) → IsTrue (is_local f) → IsRegular (Not f) }
{}

/// A question that was read holds of a run exactly where the answer to its disjuncts says so.
pub fn questions_are_answered()
    ensures { (text : List ℕ) (head : HeadIs) (t : TreeOf) (q : QuestionIs)
        → IsQuestion text head t q → (r : Run) → IsOrder r.clocks
        → Holds r (question q.form (meaning t))
        ↔ IsAnswered r q.form (disjunct_formulas (disjuncts_of q.classed.disjuncts)) }
{}
