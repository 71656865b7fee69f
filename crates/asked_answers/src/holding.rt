//! Whether a question holds.
ghost use Rattle.asked_answers.specs.Holding.{AnswersFormula, AnswersList, IsListedAs};
ghost use Rattle.asked_answers.specs.Holding.{all_true, some_true};
ghost use Rattle.asked_list.specs.declared.list.AskedList.{AskedList as ListIs};
ghost use Rattle.question_forms.specs.Questions.{IsQuestion};
ghost use Rattle.question_forms.specs.declared.question.Question.{Question as QuestionIs};
ghost use Rattle.question_text.specs.declared.head.Head.{Head as HeadIs};
ghost use Rattle.rctl_grammar.specs.Shape.{meaning};
ghost use Rattle.rctl_grammar.specs.declared.tree.Tree.{Tree as TreeOf};
ghost use Rattle.part_pulls.specs.Observing.{Reading, run_seen};
ghost use Rattle.part_pulls.specs.declared.observed.Observed.{Observed};
ghost use Rattle.question_meaning.specs.Asking.{is_turned, question};
ghost use Rattle.question_meaning.specs.Question.{Holds};
ghost use Rattle.run_model.specs.Formula.{Formula};
ghost use Rattle.std.specs.Prelude.{◌≡◌, ◌↔◌, ◌-◌, ◌≤◌, ℕ, IsTrue, List};

use asked_list::AskedRange;
use conjunctions::{Answer, PartAnswer};
use question_meaning::Form;

// Whether the question holds where the answer is false.
fn is_turned(form: Form) -> bool
    ensures { result ≡ is_turned form }
{
    match form {
        Form::Never | Form::AlwaysByNegation | Form::Surely => true,
        Form::Can | Form::Always | Form::AtEnd | Form::Plain => false,
    }
}

// Whether no part of the disjunct of this number is false.
fn all_true(parts: &[PartAnswer], disjunct: u32) -> bool
    ensures { result ≡ all_true disjunct parts.now }
{
    for i in 0..parts.len() {
        if parts[i].disjunct == disjunct && !parts[i].truth {
            return false;
        }
    }
    true
}

// Whether one of the disjuncts is true.
fn some_true(parts: &[PartAnswer], from: u32, to: u32) -> bool
    requires { from ≤ to }
    ensures { result ≡ some_true parts.now from (to - from) }
{
    for number in from..to {
        if all_true(parts, number + 1) {
            return true;
        }
    }
    false
}

/// Whether the question holds, by the answer to the disjuncts that all questions ask.
pub fn holds(answer: &Answer, asked: AskedRange) -> bool
    requires range { asked.from ≤ asked.to }
    ensures holds { (seen : Observed) (reading : Reading) (f : Formula)
        → AnswersFormula asked seen reading f answer.now
        → IsTrue result ↔ Holds (run_seen seen reading) (question asked.form f) }
    ensures listed { (text : List ℕ) (head : HeadIs) (t : TreeOf) (q : QuestionIs)
        → IsQuestion text head t q → (list : ListIs) → IsListedAs list asked q
        → (seen : Observed) (reading : Reading) → AnswersList list seen reading answer.now
        → IsTrue result ↔ Holds (run_seen seen reading) (question q.form (meaning t)) }
{
    some_true(answer.parts.as_slice(), asked.from, asked.to) != is_turned(asked.form)
}
