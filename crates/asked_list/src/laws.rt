// Laws of the ranges of questions.
ghost use Rattle.asked_list.specs.Lists.{Adds, HasRange, IsAskedIn, IsAskedList, asked_each};
ghost use Rattle.asked_list.specs.Lists.{disjuncts_in};
ghost use Rattle.asked_list.specs.declared.list.AskedList.{AskedList as ListIs};
ghost use Rattle.asked_list.specs.declared.list.AskedRange.{AskedRange as RangeIs};
ghost use Rattle.question_forms.specs.declared.question.Question.{Question as QuestionIs};
ghost use Rattle.question_meaning.specs.declared.form.Form.{Form as FormIs};
ghost use Rattle.rctl_class.specs.NamedParts.{AreDisjuncts, NamedPiece};
ghost use Rattle.rctl_parts.specs.MadeFor.{AreMadeFor, Scope, disjuncts_count};
ghost use Rattle.rctl_parts.specs.Pieces.{Piece};
ghost use Rattle.std.specs.Prelude.{◌≤◌, List, length};
ghost use Rattle.pota_base.specs.Limits.{most_parts};
ghost use Rattle.asked_list.specs.Laws.{AddedQuestionsHaveRanges};

/// A list with a question has disjuncts that names are looked up for as those of one formula. The
/// question that was added has its range in it, and each before it keeps its own.
pub fn ranges_stay()
    ensures some { (list : ListIs) → IsAskedList list → 1 ≤ length (disjuncts_in list)
        → AreDisjuncts (disjuncts_in list) }
    ensures added { AddedQuestionsHaveRanges }
    ensures kept { (before after : ListIs) (q : QuestionIs) → Adds before q after
        → (range : RangeIs) (own : List (List NamedPiece))
        → HasRange range before.forms (disjuncts_in before) own
        → HasRange range after.forms (disjuncts_in after) own }
{}

/// The range of a question has what its form asks of its own disjuncts. The asked disjuncts are
/// made for what the given ones are made for, where they have at most 128 parts.
pub fn ranges_are_asked()
    ensures asked { (range : RangeIs) (forms : List FormIs) (ds own : List (List Piece))
        → HasRange range forms ds own → IsAskedIn (asked_each forms ds) range own }
    ensures made { (scope : Scope) (forms : List FormIs) (ds : List (List Piece))
        → AreMadeFor scope ds → disjuncts_count (asked_each forms ds) ≤ most_parts
        → AreMadeFor scope (asked_each forms ds) }
{}
