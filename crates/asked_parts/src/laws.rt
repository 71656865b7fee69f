// Laws of the parts that are asked.
ghost use Rattle.asked_parts.specs.Asked.{IsAnsweredBy, SpellAt, asked_disjuncts, parts_added};
ghost use Rattle.question_meaning.specs.Asking.{AreFor, asked, asked_formula, question};
ghost use Rattle.question_meaning.specs.Question.{Holds};
ghost use Rattle.question_meaning.specs.declared.form.Form.{Form as FormIs};
ghost use Rattle.rctl_class.specs.Counters.{disjuncts_counters};
ghost use Rattle.rctl_parts.specs.MadeFor.{AreMadeFor, Scope, disjuncts_count};
ghost use Rattle.rctl_parts.specs.Pieces.{Piece};
ghost use Rattle.rctl_parts.specs.Spelled.{Names, part_formulas};
ghost use Rattle.run_model.specs.Consistent.{IsOrder};
ghost use Rattle.run_model.specs.Formula.{Formula};
ghost use Rattle.run_model.specs.Run.{Run};
ghost use Rattle.std.specs.Prelude.{◌≡◌, ◌↔◌, ◌+◌, ◌*◌, ◌≤◌, List, length};
ghost use Rattle.pota_base.specs.Limits.{most_parts};

/// The asked parts spell what the form asks of the formulas of the parts. Where the parts spell the
/// formula that the form asks of, and are one disjunct if it asks of one, the question holds
/// exactly where the answer of the asked parts says so.
pub fn asked_parts_spell_what_is_asked()
    ensures spelled { (names : Names) (form : FormIs) (ds : List (List Piece))
        → part_formulas names (asked_disjuncts form ds) ≡ asked form (part_formulas names ds) }
    ensures answered { (r : Run) → IsOrder r.clocks → (names : Names) (form : FormIs) (f : Formula)
        (ds : List (List Piece)) → SpellAt r names ds (asked_formula form f)
        → AreFor form (part_formulas names ds)
        → Holds r (question form f) ↔ IsAnsweredBy r names form ds }
{}

/// The asked parts have the counters of the given ones, and are so many; where that is at most 128,
/// they are made for what the given ones are made for.
pub fn asked_parts_are_made_alike()
    ensures counters { (names : Names) (form : FormIs) (ds : List (List Piece))
        → disjuncts_counters (part_formulas names (asked_disjuncts form ds))
        ≡ disjuncts_counters (part_formulas names ds) }
    ensures count { (form : FormIs) (ds : List (List Piece))
        → disjuncts_count (asked_disjuncts form ds)
        ≡ disjuncts_count ds + parts_added form * length ds }
    ensures made { (scope : Scope) (form : FormIs) (ds : List (List Piece)) → AreMadeFor scope ds
        → disjuncts_count (asked_disjuncts form ds) ≤ most_parts
        → AreMadeFor scope (asked_disjuncts form ds) }
{}
