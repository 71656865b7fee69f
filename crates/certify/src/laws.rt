//! Laws of canonical certificates. The functions do nothing.
ghost use Rattle.std.specs.Prelude.{◌≡◌, ◌≤◌, ◌↔◌, ℕ, Bool, List, [], length, IsTrue};
ghost use Rattle.run_model.specs.Cut.{initial};
ghost use Rattle.run_model.specs.Meaning.{Sat};
ghost use Rattle.pota_base.specs.Limits.{longest_formula};
ghost use Rattle.rctl_grammar.specs.declared.tree.Tree.{Tree};
ghost use Rattle.rctl_grammar.specs.Shape.{shape_of};
ghost use Rattle.rctl_parse.specs.Parsing.{IsReadAs};
ghost use Rattle.rctl_print.specs.Canonical.{canonical};
ghost use Rattle.trace_growth.specs.Growing.{IsTrace};
ghost use Rattle.rctl_parts.specs.Pieces.{Piece};
ghost use Rattle.rctl_parts.specs.MadeFor.{AllFit};
ghost use Rattle.rctl_parts.specs.Spelled.{disjunction_of};
ghost use Rattle.part_pulls.specs.declared.observed.Observed.{Observed};
ghost use Rattle.part_pulls.specs.Observing.{Reading, AreAnswers, clocks_seen, run_seen};
ghost use Rattle.part_pulls.specs.Observing.{names_seen, scope_seen};
ghost use Rattle.part_pulls.specs.Counters.{CountersRise};
ghost use Rattle.certificate_lines.specs.Spelling.{formula_line};
ghost use Rattle.certificate_text.specs.Taking.{fresh};
ghost use Rattle.certificate_text.specs.Bytes.{IsLine, Judged};
ghost use Rattle.certificate_next_line.specs.PassedOn.{Follows};
ghost use Rattle.certify.specs.Certifying.{IsCertificateOf, nodes_of};

use certificate_next_line::an_accepted_certificate_tells_the_truth;
use printed_lengths::{printed_is_little_longer, printed_is_one_line};

/// The verdict of a canonical certificate is the truth of the formula at the initial cut.
pub fn certificates_tell_the_truth()
    ensures { (seen : Observed) (ds : List (List Piece)) (formula text : List ℕ) (told : Bool)
        → IsTrace seen.trace.states → AllFit (scope_seen seen) ds → CountersRise seen ds
        → IsCertificateOf seen ds formula text told → (reading : Reading) → AreAnswers seen reading
        → IsTrue told ↔ Sat (run_seen seen reading) (disjunction_of (names_seen seen reading) ds)
        (initial (clocks_seen seen)) }
{
    an_accepted_certificate_tells_the_truth();
}

/// A verifier of the formula's nodes accepts the canonical certificate byte for byte, with its
/// verdict, where the formula's line is short enough for a line.
pub fn certificates_are_accepted()
    ensures { (seen : Observed) (ds : List (List Piece)) (formula text : List ℕ) (told : Bool)
        → IsLine formula → IsCertificateOf seen ds formula text told
        → Judged Follows text (fresh formula (nodes_of seen ds)) [] told }
{}

/// The line of a formula that was read is short enough: that of a text of at most 4,096 bytes.
pub fn formula_lines_are_lines()
    ensures { (text : List ℕ) (t : Tree) → IsReadAs text t → length text ≤ longest_formula
        → IsLine (formula_line (canonical (shape_of t))) }
{
    printed_is_little_longer();
    printed_is_one_line();
}

/// There is one canonical certificate at most, and it tells one verdict.
pub fn certificates_are_one()
    ensures text { (seen : Observed) (ds : List (List Piece)) (formula text other : List ℕ)
        (told truth : Bool) → IsCertificateOf seen ds formula text told
        → IsCertificateOf seen ds formula other truth → text ≡ other }
    ensures verdict { (seen : Observed) (ds : List (List Piece)) (formula text other : List ℕ)
        (told truth : Bool) → IsCertificateOf seen ds formula text told
        → IsCertificateOf seen ds formula other truth → told ≡ truth }
{}
