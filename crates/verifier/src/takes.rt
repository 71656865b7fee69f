//! What lines of nodes are handed to.

ghost use Rattle.std.specs.Prelude.{◌+◌, ◌≤◌, ℕ, IfOk};
ghost use Rattle.std.specs.Bool.{OnFalse, OnTrue};
ghost use Rattle.certificate_lines.specs.declared.line.Line.{Line};
ghost use Rattle.certificate_text.specs.Taking.{NoneFollows};

use certificate_lines::Line;
use certificate_text::Said;
use pota_base::{NoMemory, Steps};
use std::alloc::Global;
use std::sync::ledger::Ledger;

/// Takes lines that say something of it, as far as they follow.
pub trait Takes: Said + Drop {
    /// What a line may look up.
    ghost looks: { Self → Line → Self → ℕ };

    /// Takes the line, and says whether it follows.
    ///
    /// # Errors
    ///
    /// `NoMemory`; nothing more may be asked then.
    fn take_line<L: Ledger>(
        &mut self,
        alloc: Global,
        line: Line,
        steps: &mut Steps<L>,
    ) -> Result<bool, NoMemory>
        ensures follows { IfOk result (λ ok. OnTrue ok (Self.follows self.old line self.new)) }
        ensures refused { IfOk result (λ ok. OnFalse ok (NoneFollows Self.follows self.old line)) }
        ensures looks { steps.new ≤ steps.old + looks self.old line self.new };
}
