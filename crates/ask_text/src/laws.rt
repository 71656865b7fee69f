// A law of documents.
ghost use Rattle.ask_text.specs.Documents.{EntryView, document, result_lines, text_of};
ghost use Rattle.ask_text.specs.Lines.{outer_lines};
ghost use Rattle.ask_text.specs.Text.{head_lines};
ghost use Rattle.event_log.specs.States.{StatesView};
ghost use Rattle.question_lines.specs.Lines.{IsOneLine};
ghost use Rattle.std.specs.List.{AllByRecursion};
ghost use Rattle.std.specs.Prelude.{◌≡◌, ◌≤◌, ◌++◌, ℕ, List, length};
ghost use Rattle.pota_base.specs.Limits.{most_questions};

/// The lines of a document that begin with no space are the version of the protocol, the plan, and
/// for each of at most 64 questions, in their order, its one line, where each question is one line,
/// as those are that were read.
pub fn a_line_for_each_question()
    ensures { (s : StatesView) (steps : ℕ) (es : List EntryView)
        → length es ≤ most_questions → AllByRecursion (λ (e : EntryView). IsOneLine (text_of e)) es
        → outer_lines (document s steps es) ≡ head_lines (length es) ++ result_lines 1 es }
{}
