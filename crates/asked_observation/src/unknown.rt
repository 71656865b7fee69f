//! The first name of a list of questions that is unknown, and the question that it is one of.
ghost use Rattle.asked_list.specs.Lists.{IsAskedList, disjuncts_in};
ghost use Rattle.asked_observation.specs.Observed.{IsUnknownBehind, IsUnknownIn, unknown_from};
ghost use Rattle.asked_observation.specs.inside.Fronts.{AreFew};
ghost use Rattle.rctl_class.specs.NamedParts.{disjuncts_of, disjuncts_uses};
ghost use Rattle.rctl_class.specs.Uses.{first_unknown};
ghost use Rattle.rctl_names.specs.Numbers.{known_in};
ghost use Rattle.rctl_names.specs.Resolving.{CanResolve};
ghost use Rattle.rctl_names.specs.Seen.{names_of};
ghost use Rattle.std.specs.Prelude.{◌≡◌, ◌≤◌, ◌-◌, [], length, take, IfOk, Some};

use asked_list::{AskedList, Listed};
use event_log::Header;
use pota_base::{List, NoMemory, Refused};
use pota_names::Name;
use rctl_class::{Classed, NamedPart};
use rctl_grammar::FormulaFault;
use rctl_names::resolve;
use std::alloc::Global;

/// A name of a question that is unknown, or is a watch on a second process.
#[derive(Clone, Copy, Debug, PartialEq, Eq)]
pub struct UnknownName {
    /// The question's number, from 1.
    pub question: usize,
    /// The byte of the question from which on it is its formula.
    pub formula: u32,
    /// Its place counts from there.
    pub fault: FormulaFault,
}

// A fault of a name, and how many whole disjuncts stand before that of the name.
#[derive(Clone, Copy, Debug, PartialEq, Eq)]
struct Found {
    before: usize,
    fault: FormulaFault,
}

// The fault, as one of the question that has the disjunct behind so many others.
fn named(listed: &[Listed], before: usize, fault: FormulaFault) -> UnknownName
    ensures { result ≡ unknown_from 1 before fault listed.now }
{
    let mut question = 1;
    for entry in listed {
        if before < entry.range.to as usize {
            return UnknownName {
                question,
                formula: entry.formula,
                fault,
            };
        }
        question += 1;
    }
    UnknownName {
        question,
        formula: 0,
        fault,
    }
}

// The disjuncts without the last one.
fn without_last(classed: Classed) -> Classed
    ensures { result.disjuncts ≡ take (length classed.disjuncts - 1) classed.disjuncts }
{
    let Classed { disjuncts } = classed;
    let mut rest = disjuncts.into_vec();
    if let Some(last) = rest.pop() {
        drop(last);
    }
    Classed {
        disjuncts: List::from_vec(rest),
    }
}

// The first unknown name of disjuncts that have one, by taking one after the other off their end.
fn first_of(
    alloc: Global,
    classed: Classed,
    header: &Header,
    names: &List<Name>,
    fault: FormulaFault,
) -> Result<Found, NoMemory>
    requires few { AreFew (disjuncts_of classed.disjuncts) }
    requires header { CanResolve header.now names.now }
    requires unknown { first_unknown (known_in (names_of header.now names.now)) []
        (disjuncts_uses (disjuncts_of classed.disjuncts)) ≡ Some fault }
    ensures { IfOk result (λ found. IsUnknownBehind (known_in (names_of header.now names.now))
        (disjuncts_of classed.disjuncts) found.before found.fault) }
{
    let mut front = classed;
    let mut fault = fault;
    'fronts: while front.disjuncts.len() > 1 {
        front = without_last(front);
        match resolve(alloc, &front, header, names) {
            Ok(resolved) => {
                drop(resolved);
                let before = front.disjuncts.len();
                drop(front);
                return Ok(Found { before, fault });
            }
            Err(Refused::Fault(earlier)) => fault = earlier,
            Err(Refused::NoMemory) => {
                drop(front);
                return Err(NoMemory);
            }
        }
    }
    drop(front);
    Ok(Found { before: 0, fault })
}

/// The first unknown name of a list that has one.
pub fn unknown_in(
    alloc: Global,
    list: AskedList,
    header: &Header,
    names: &List<Name>,
    fault: FormulaFault,
) -> Result<UnknownName, NoMemory>
    requires list { IsAskedList list }
    requires header { CanResolve header.now names.now }
    requires unknown { first_unknown (known_in (names_of header.now names.now)) []
        (disjuncts_uses (disjuncts_in list)) ≡ Some fault }
    ensures { IfOk result (IsUnknownIn (known_in (names_of header.now names.now)) list) }
{
    let AskedList {
        listed,
        classed,
        ..
    } = list;
    let found = first_of(alloc, classed, header, names, fault)?;
    Ok(named(listed.as_slice(), found.before, found.fault))
}
