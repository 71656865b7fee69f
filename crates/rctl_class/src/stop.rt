ghost use Rattle.pota_base.specs.declared.fault.Refused.TheVariants.{Fault};
ghost use Rattle.std.specs.Prelude.{◌≡◌};

use pota_base::Refused;
use rctl_grammar::{FormulaCode, FormulaFault};

/// Why a formula is not decided: a fault of it, or no memory.
pub type Stop = Refused<FormulaFault>;

/// The fault of this code at this place.
pub fn fault(code: FormulaCode, place: u32) -> Stop
    ensures { result ≡ Fault (record { code = code; place = place }) }
{
    Refused::Fault(FormulaFault { code, place })
}
