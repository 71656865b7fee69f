//! Accepted lines, as a law.

ghost use Rattle.std.specs.Prelude.{◌≡◌, ◌↔◌, ℕ, List, ◌∷◌, Bool};
ghost use Rattle.certificate_lines.specs.Spelling.{title};
ghost use Rattle.certificate_text.specs.Taking.{AreAccepted, fresh};
ghost use Rattle.certificate_text.specs.Running.{AreNodesAndVerdict, IsCertificate};

use crate::said::Said;

/// Lines are accepted exactly where they are the first line, the formula's, the spellings of lines
/// that follow one another up to a verdict, and `end`. The truth is the one that the verdict told.
pub fn accepted_lines_are_a_run<N: Said>()
    ensures { (formula : List ℕ) (v : N) (texts : List (List ℕ)) (told : Bool)
        → AreAccepted N.follows (fresh formula v) texts told
        ↔ IsCertificate N.follows formula v texts told }
{}
