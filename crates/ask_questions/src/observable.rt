//! A list of questions that a log can be observed for.
ghost use Rattle.ask_questions.specs.Entries.{IsOfTrue};
ghost use Rattle.rctl_class.specs.NamedParts.{disjuncts_of, local, truth};
ghost use Rattle.std.specs.Prelude.{◌≡◌, ◌≤◌, ◌∷◌, [], length, true, IfOk, None};

use asked_list::AskedList;
use pota_base::{List, NoMemory};
use question_meaning::Form;
use rctl_class::{Classed, NamedExpr, NamedPart};
use std::alloc::Global;

// The disjuncts of the literal `true`.
#[tactic(auto, using(rctl_class::proofs::Rules::named))]
fn of_true(alloc: Global) -> Result<List<List<NamedPart>>, NoMemory>
    ensures { IfOk result (λ made. disjuncts_of made ≡ (local None (truth true) ∷ []) ∷ []) }
{
    let mut parts = List::new(alloc);
    parts.push(NamedPart::Local {
        process: None,
        expr: NamedExpr::Truth(true),
    })?;
    let mut disjuncts = List::new(alloc);
    disjuncts.push(parts)?;
    Ok(disjuncts)
}

/// The list, or where it has no question that of the literal `true`: nothing is observed without a
/// disjunct.
pub fn observable(alloc: Global, list: AskedList) -> Result<AskedList, NoMemory>
    ensures same { 1 ≤ length list.listed → IfOk result (λ made. made ≡ list) }
    ensures filled { list.listed ≡ [] → IfOk result IsOfTrue }
{
    if list.listed.len() > 0 {
        return Ok(list);
    }
    drop(list);
    let disjuncts = of_true(alloc)?;
    let mut forms = List::new(alloc);
    forms.push(Form::Plain)?;
    Ok(AskedList {
        listed: List::new(alloc),
        classed: Classed { disjuncts },
        forms,
        parts: 1,
    })
}
