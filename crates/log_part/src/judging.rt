//! Items of a log, judged one after another.
ghost use Rattle.std.specs.Prelude.{IfOk};
ghost use Rattle.log_rules.specs.Judgement.{Judgement, judged};
ghost use Rattle.log_check.specs.Aims.{Aim, rules_of, said_by};
ghost use Rattle.log_check.specs.Checking.{IsCheckOf, MayFollow};
ghost use Rattle.log_part.specs.inside.Reading.{IsRefusalIn, JudgesTo};

use event_log::Item;
use fault_kinds::Refusal;
use log_check::LogCheck;
use pota_base::{List, NoMemory, Refused};
use std::alloc::Global;
use watch::{Handed, Watch};

// The refusal, where there was memory to tell it.
fn refusal_in(refused: Refused<Refusal>) -> Result<Option<Refusal>, NoMemory>
    ensures { IfOk result (IsRefusalIn refused) }
{
    match refused {
        Refused::Fault(refusal) => Ok(Some(refusal)),
        Refused::NoMemory => Err(NoMemory),
    }
}

/// Takes these items more, in their order, up to the first of which a refusal is due.
pub fn judge_all(
    alloc: Global,
    check: &mut LogCheck,
    items: List<Item>,
) -> Result<Option<Refusal>, NoMemory>
    requires { (aim : Aim) × (j : Judgement)
        × IsCheckOf (said_by answers) aim check.old j × MayFollow j items }
    ensures { IfOk result (λ why. (aim : Aim) (j : Judgement)
        → IsCheckOf (said_by answers) aim check.old j → MayFollow j items
        → JudgesTo (said_by answers) aim check.new (judged (rules_of aim) j items) why) }
{
    let mut rest = items.into_vec().into_iter();
    while let Some(item) = rest.next() {
        match check.take(alloc, item) {
            Ok(_) => {}
            Err(refused) => return refusal_in(refused),
        }
    }
    Ok(None)
}
