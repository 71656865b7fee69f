//! The disjuncts that a form asks.
ghost use Rattle.question_forms.specs.Taking.{form_fault};
ghost use Rattle.question_forms.specs.inside.Asked.{IsAsked};
ghost use Rattle.question_text.specs.declared.front.Asking.TheVariants as asking_is;
ghost use Rattle.rctl_class.specs.Nodes.{IsWithinLimits, node_of};
ghost use Rattle.rctl_parse.specs.Reading.{Faults};
ghost use Rattle.std.specs.Prelude.{◌≡◌, MatchResult, Ok, Err, Some};

use crate::class::{negation, one_disjunct, regular_negation};
use pota_base::Refused;
use question_meaning::Form;
use question_text::Asking;
use rctl_class::{Classed, Stop, classify};
use rctl_grammar::Formula;
use std::alloc::Global;

/// A form, and the disjuncts that it asks.
#[derive(Debug, Drop)]
pub struct Asked {
    pub form: Form,
    pub classed: Classed,
}

// The disjuncts with this form.
fn with_form(form: Form, classed: Result<Classed, Stop>) -> Result<Asked, Stop>
    ensures { MatchResult classed
        (λ given. result ≡ Ok (record { form = form; classed = given }))
        (λ stop. result ≡ Err stop) }
{
    match classed {
        Ok(classed) => Ok(Asked { form, classed }),
        Err(stop) => Err(stop),
    }
}

// `always`: of the formula's negation where that is analysed, and else of the formula. That one is
// read first, since the negation is made of it.
fn always(alloc: Global, formula: Formula) -> Result<Asked, Stop>
    requires { IsWithinLimits (node_of formula.tree) }
    ensures { MatchResult result (IsAsked asking_is.Always (node_of formula.tree))
        (λ stop. Faults stop (λ f. form_fault asking_is.Always (node_of formula.tree) ≡ Some f)) }
{
    let regular = one_disjunct(alloc, &formula);
    match negation(alloc, formula) {
        Ok(classed) => {
            drop(regular);
            Ok(Asked {
                form: Form::AlwaysByNegation,
                classed,
            })
        }
        Err(Refused::NoMemory) => {
            drop(regular);
            Err(Refused::NoMemory)
        }
        Err(Refused::Fault(_)) => with_form(Form::Always, regular),
    }
}

/// The disjuncts that are asked of the formula behind these words.
pub fn ask_formula(alloc: Global, asking: Asking, formula: Formula) -> Result<Asked, Stop>
    requires { IsWithinLimits (node_of formula.tree) }
    ensures { MatchResult result (IsAsked asking (node_of formula.tree))
        (λ stop. Faults stop (λ f. form_fault asking (node_of formula.tree) ≡ Some f)) }
{
    let asked = match asking {
        Asking::Always => return always(alloc, formula),
        Asking::Surely => return with_form(Form::Surely, regular_negation(alloc, formula)),
        Asking::Never => with_form(Form::Never, classify(alloc, &formula)),
        Asking::Can => with_form(Form::Can, classify(alloc, &formula)),
        Asking::AtEnd => with_form(Form::AtEnd, one_disjunct(alloc, &formula)),
        Asking::Plain => with_form(Form::Plain, classify(alloc, &formula)),
    };
    drop(formula);
    asked
}
