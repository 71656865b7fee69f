//! A law of a log and the certificate that is written of it: the verifier reads what was written.
//!
//! Behind a log of which no fault is due, what `certify` writes of it is accepted byte for byte,
//! with the verdict that it tells, by the verifier's reading of all these bytes
//! (`what_certify_writes_is_accepted`). The definitions are those that the contracts of both
//! programs cite. The function does nothing.
//!
//! Not said: that memory suffices to write it or to read it.
#![tactic(auto)]

ghost use Rattle.std.specs.Prelude.{ℕ, List as ListOf, ◌++◌};
ghost use Rattle.log_lines.specs.Names.{Name};
ghost use Rattle.rctl_grammar.specs.declared.tree.Tree.{Tree};
ghost use Rattle.verify_top.specs.PassedOn.{AsksAbout};
ghost use Rattle.certificate_round_trip.specs.Behind.{IsAcceptedIn, IsWrittenOf};

use certify::{certificates_are_accepted, formula_lines_are_lines};

/// The canonical certificate of a log without a fault is accepted behind it.
pub fn what_certify_writes_is_accepted()
    ensures { (words : ListOf (ListOf ℕ)) (t : Tree) → AsksAbout words t
        → (watches : ListOf Name) (bytes text : ListOf ℕ) → (w : IsWrittenOf watches t bytes text)
        → IsAcceptedIn words (bytes ++ text) w.certificate.told }
{
    certificates_are_accepted();
    formula_lines_are_lines();
}
