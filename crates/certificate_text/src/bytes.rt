//! Accepted and refused bytes, as laws.

ghost use Rattle.std.specs.Prelude.{◌≡◌, ◌↔◌, ℕ, List, [], Bool};
ghost use Rattle.certificate_lines.specs.declared.line.Line.{Line};
ghost use Rattle.certificate_lines.specs.Spelling.{LineFits, line_text, lines_text};
ghost use Rattle.certificate_text.specs.Taking.{VerifierView, AreAccepted};
ghost use Rattle.certificate_text.specs.Bytes.{Judged, RefusedAt, IsLine, AreLines, OneFollows};
ghost use Rattle.certificate_text.specs.Bytes.{IsRefusedBehind};

use crate::said::Said;

/// Bytes are accepted exactly where they are lines that are accepted, each with its line feed, and
/// none of them too long.
pub fn accepted_bytes_are_lines<N: Said>()
    ensures lines { (v : VerifierView N) (bytes : List ℕ) (told : Bool)
        → Judged N.follows bytes v [] told → (lines : List (List ℕ)) × (bytes ≡ lines_text lines)
        × AreLines lines × AreAccepted N.follows v lines told }
    ensures bytes { (v : VerifierView N) (lines : List (List ℕ)) (told : Bool) → AreLines lines
        → AreAccepted N.follows v lines told → Judged N.follows (lines_text lines) v [] told }
{}

/// Bytes are refused at a line exactly where they are lines that are justified, and then one that
/// is wrong: nothing justifies it, it is too long, it stands behind the last, or it is cut off.
pub fn refused_bytes_are_lines<N: Said>()
    ensures { (v : VerifierView N) (bytes : List ℕ) (n : ℕ)
        → RefusedAt N.follows bytes v [] n ↔ IsRefusedBehind N.follows v bytes n }
{}

/// Where a line leaves one thing alone, bytes are accepted with one truth or refused at one line,
/// and not both.
pub fn bytes_have_one_answer<N: Said>()
    ensures truth { OneFollows N.follows → (v : VerifierView N) (bytes : List ℕ) (told truth : Bool)
        → Judged N.follows bytes v [] told → Judged N.follows bytes v [] truth → told ≡ truth }
    ensures line { OneFollows N.follows → (v : VerifierView N) (bytes : List ℕ) (n m : ℕ)
        → RefusedAt N.follows bytes v [] n → RefusedAt N.follows bytes v [] m → n ≡ m }
    ensures apart { OneFollows N.follows → (v : VerifierView N) (bytes : List ℕ) (told : Bool)
        (n : ℕ) → Judged N.follows bytes v [] told → RefusedAt N.follows bytes v [] n → ⊥ }
{}

/// The spelling of a line that says something of the nodes is a line that is not too long.
pub fn lines_of_nodes_are_lines()
    ensures { (said : Line) → LineFits said → IsLine (line_text said) }
{}
