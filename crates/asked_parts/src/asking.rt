ghost use Rattle.asked_parts.specs.Asked.{asked_disjuncts, asked_pieces, over};
ghost use Rattle.rctl_parts.specs.Pieces.{disjuncts_of, pieces_of};
ghost use Rattle.std.specs.Prelude.{◌≡◌, ◌∷◌, [], IfOk};

use pota_base::{List, NoMemory};
use question_meaning::Form;
use rctl_grammar::Operator;
use rctl_parts::Part;
use std::alloc::Global;

// The operator over the conjunction of the parts, which is one part.
#[tactic(auto, using(rctl_parts::proofs::Rules::pieces))]
fn over(alloc: Global, operator: Operator, parts: List<Part>) -> Result<List<Part>, NoMemory>
    ensures { IfOk result (λ made. pieces_of made ≡ over operator (pieces_of parts) ∷ []) }
{
    let mut made = List::new(alloc);
    made.push(Part::Temporal { operator, parts })?;
    Ok(made)
}

/// What the form asks of the parts of one disjunct. Without memory for it they are dropped.
pub fn ask_parts(alloc: Global, form: Form, parts: List<Part>) -> Result<List<Part>, NoMemory>
    ensures { IfOk result (λ made. pieces_of made ≡ asked_pieces form (pieces_of parts)) }
{
    match form {
        Form::Never | Form::Can | Form::AlwaysByNegation => over(alloc, Operator::Ef, parts),
        Form::Always => over(alloc, Operator::Ag, parts),
        Form::Surely => over(alloc, Operator::Eg, parts),
        Form::AtEnd => {
            let reached = over(alloc, Operator::Ef, parts)?;
            over(alloc, Operator::Ag, reached)
        }
        Form::Plain => Ok(parts),
    }
}

/// What the form asks of the disjuncts, one by one. Without memory for it they are dropped.
pub fn ask(
    alloc: Global,
    form: Form,
    disjuncts: List<List<Part>>,
) -> Result<List<List<Part>>, NoMemory>
    ensures { IfOk result
        (λ made. disjuncts_of made ≡ asked_disjuncts form (disjuncts_of disjuncts)) }
{
    let mut made = List::new(alloc);
    'disjuncts: for parts in disjuncts.into_vec() {
        made.push(ask_parts(alloc, form, parts)?)?;
    }
    Ok(made)
}
