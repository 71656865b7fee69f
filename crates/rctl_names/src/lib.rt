//! The parts of a formula with numbers in the place of names: the places of processes and of their
//! variables in a header, and of watches among those that were handed in.
//!
//! `resolve` gives parts that spell the very formulas of the parts by names and that are made for
//! the header and the watches (`IsResolved`), or exactly the first name, from left to right, that
//! is unknown or is a watch on a second process. Laws: the formula that the parts spell is true
//! where the formula that was read is (`resolved_parts_mean_the_formula`), they have its counters
//! (`resolved_parts_have_the_counters_of_the_formula`), and the names of the parts have the first
//! fault of the names of the text (`faults_are_in_the_order_of_the_text`).
//! *Not said*: that memory suffices. Processes, variables and watches are few by the condition, so
//! that numbers fit in 32 bits.
#![tactic(auto)]

ghost use Rattle.rctl_class.specs.NamedParts.{AreDisjuncts, disjuncts_of, disjuncts_uses};
ghost use Rattle.rctl_class.specs.Uses.{first_unknown};
ghost use Rattle.rctl_names.specs.Numbers.{known_in};
ghost use Rattle.rctl_names.specs.Resolving.{CanResolve, IsResolved};
ghost use Rattle.rctl_names.specs.Seen.{names_of};
ghost use Rattle.rctl_parse.specs.Reading.{Faults};
ghost use Rattle.std.specs.Prelude.{◌≡◌, [], MatchResult, Some};

mod channel;
mod difference;
mod exprs;
mod laws;
mod numbers;
mod parts;
mod process;
mod scope;
mod watches;

use event_log::Header;
pub use laws::{
    faults_are_in_the_order_of_the_text, resolved_parts_have_the_counters_of_the_formula,
    resolved_parts_mean_the_formula,
};
use parts::resolve_disjuncts;
use pota_base::{List, Refused};
use pota_names::Name;
use rctl_class::Classed;
use rctl_grammar::FormulaFault;
use rctl_parts::Resolved;
use scope::Scope;
use std::alloc::Global;
use watches::Watches;

/// The disjuncts with the numbers of a header's processes and variables and of the watches in the
/// place of names. `Fault` is at the first name, from left to right, that is no process of the
/// header, no variable of its process, or none of the watches, or that is a watch which stands on
/// another process before.
pub fn resolve(
    alloc: Global,
    classed: &Classed,
    header: &Header,
    watches: &List<Name>,
) -> Result<Resolved, Refused<FormulaFault>>
    requires disjuncts { AreDisjuncts (disjuncts_of classed.now.disjuncts) }
    requires header { CanResolve header.now watches.now }
    ensures { MatchResult result
        (λ resolved. IsResolved header.now watches.now (disjuncts_of classed.now.disjuncts)
        resolved)
        (λ stop. Faults stop (λ f. first_unknown (known_in (names_of header.now watches.now)) []
        (disjuncts_uses (disjuncts_of classed.now.disjuncts)) ≡ Some f)) }
{
    let scope = Scope {
        processes: header.procs.as_slice(),
        variables: header.vars.as_slice(),
    };
    let mut watched = Watches {
        names: watches.as_slice(),
        on: List::from_vec(vec![in alloc; None; watches.len()]?),
    };
    let disjuncts = resolve_disjuncts(alloc, &scope, &mut watched, classed.disjuncts.as_slice())?;
    let Watches { on, .. } = watched;
    Ok(Resolved {
        disjuncts,
        watch_process: on,
    })
}
