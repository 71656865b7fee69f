//! A question that was read is one line: it has no line feed, as what is written of it may want.
//! The function is a law over the definition of what is read, and does nothing
//! (`read_questions_are_one_line`).
//!
//! Not said: that its other bytes can be shown. A tab may stand in it.
#![tactic(auto)]

ghost use Rattle.question_forms.specs.Questions.{IsQuestion};
ghost use Rattle.question_forms.specs.declared.question.Question.{Question as QuestionIs};
ghost use Rattle.question_lines.specs.Lines.{IsOneLine};
ghost use Rattle.question_text.specs.declared.head.Head.{Head as HeadIs};
ghost use Rattle.rctl_grammar.specs.declared.tree.Tree.{Tree as TreeIs};
ghost use Rattle.std.specs.Prelude.{ℕ, List};

/// The text of a question that was read has no line feed.
pub fn read_questions_are_one_line()
    ensures { (text : List ℕ) (head : HeadIs) (t : TreeIs) (q : QuestionIs)
        → IsQuestion text head t q → IsOneLine text }
{}
