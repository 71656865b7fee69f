//! Refusals, as laws.

ghost use Rattle.std.specs.Prelude.{ℕ, List, [], ◌++◌};
ghost use Rattle.certificate_text.specs.Taking.{VerifierView};
ghost use Rattle.certificate_text.specs.Bytes.{RefusedAt, OneFollows};
ghost use Rattle.certificate_input.specs.Pieces.{RefusedWithin, NoneRefused};

use certificate_text::Said;

/// A refusal within bytes is one of all input that begins with them. Where a line leaves one thing
/// alone, no line is refused within bytes of which none is.
pub fn a_refusal_stays<N: Said>()
    ensures stays { (v : VerifierView N) (bytes more : List ℕ) (n : ℕ)
        → RefusedWithin N.follows bytes v [] n → RefusedAt N.follows (bytes ++ more) v [] n }
    ensures none { OneFollows N.follows → (v : VerifierView N) (bytes : List ℕ) (n : ℕ)
        → NoneRefused N.follows bytes v → RefusedWithin N.follows bytes v [] n → ⊥ }
{}
