//! What the forms of all questions ask.
ghost use Rattle.asked_list.specs.Lists.{asked_each};
ghost use Rattle.question_meaning.specs.declared.form.Form.TheVariants as form_is;
ghost use Rattle.rctl_parts.specs.Pieces.{disjuncts_of};
ghost use Rattle.std.specs.Prelude.{◌≡◌, IfOk, get_or};

use asked_parts::ask_parts;
use pota_base::{List, NoMemory};
use question_meaning::Form;
use rctl_parts::Part;
use std::alloc::Global;

// The form of that number. A disjunct without one is asked as it is.
fn form_at(forms: &[Form], number: usize) -> Form
    ensures { result ≡ get_or forms.now number form_is.Plain }
{
    if number < forms.len() {
        forms[number]
    } else {
        Form::Plain
    }
}

/// What is asked of disjuncts, each by its own form. Without memory for it they are dropped.
pub fn ask_each(
    alloc: Global,
    forms: &[Form],
    disjuncts: List<List<Part>>,
) -> Result<List<List<Part>>, NoMemory>
    ensures { IfOk result
        (λ made. disjuncts_of made ≡ asked_each forms.now (disjuncts_of disjuncts)) }
{
    let mut made = List::new(alloc);
    'disjuncts: for parts in disjuncts.into_vec() {
        let form = form_at(forms, made.len());
        made.push(ask_parts(alloc, form, parts)?)?;
    }
    Ok(made)
}
