//! The witnesses that a report tells.
ghost use Rattle.std.specs.Prelude.{◌≡◌, ◌^◌, ◌<◌, true, false, [], IfOk, OnOk};
ghost use Rattle.std.specs.List.{AllByRecursion};
ghost use Rattle.run_model.specs.Cut.{lengths};
ghost use Rattle.slice_graph.specs.Fitting.{FitsOrder};
ghost use Rattle.witness_kinds.specs.Views.{witness_of};
ghost use Rattle.report_lines.specs.Spelling.{WitnessFits};
ghost use Rattle.answer_report.specs.inside.Choosing.{first_true, first_false, of_disjunct, chosen};
ghost use Rattle.answer_report.specs.inside.Showing.{HasOperand, IsGivenFor, Adds, TellAll};

use crate::choice::first_true;
use causal_order::Order;
use conjunctions::PartAnswer;
use pota_base::{List, NoMemory};
use rctl_grammar::Operator;
use report_lines::WitnessText;
use std::alloc::Global;
use witness::{Explained, explain};
use witness_kinds::Witness;

/// The witness of one part, by the slice of its operand.
fn witness_of(alloc: Global, order: &Order, part: &PartAnswer) -> Result<Witness, NoMemory>
    requires { HasOperand order.now part.now }
    ensures given { IfOk result (λ w.
        IsGivenFor order.now part.now.operator part.now.operand (witness_of w)) }
    ensures fits { IfOk result (WitnessFits (lengths order.now)) }
{
    let (Some(operator), Some(operand)) = (part.operator, &part.operand) else {
        return Ok(Witness::Nothing);
    };
    match operator {
        Operator::Ef => explain(alloc, order, Explained::ForEf, operand),
        Operator::Ag => explain(alloc, order, Explained::ForAg, operand),
        Operator::Eg => explain(alloc, order, Explained::ForEg, operand),
        Operator::Ex(process) => explain(alloc, order, Explained::ExistsNext(process), operand),
        Operator::Af | Operator::Ax => Ok(Witness::Nothing),
    }
}

/// The witness, with the numbers of the part that it is of.
fn numbered(disjunct: u32, part: u32, witness: Witness) -> WitnessText
    ensures is { result ≡ record { disjunct = disjunct; part = part; witness = witness } }
    ensures disjunct { disjunct < 2 ^ 32 }
    ensures part { part < 2 ^ 32 }
{
    WitnessText {
        disjunct,
        part,
        witness,
    }
}

/// Puts the witness of a part, with the part's numbers, behind those that are there.
fn push_witness(
    alloc: Global,
    order: &Order,
    part: &PartAnswer,
    witnesses: &mut List<WitnessText>,
) -> Result<(), NoMemory>
    requires { HasOperand order.now part.now }
    ensures { OnOk result (Adds order.now part.now witnesses.old witnesses.new) }
{
    let witness = witness_of(alloc, order, part)?;
    witnesses.push(numbered(part.disjunct, part.part, witness))
}

/// The witnesses of all parts of the first disjunct that is true.
fn witnesses_of_true(
    alloc: Global,
    order: &Order,
    parts: &[PartAnswer],
) -> Result<List<WitnessText>, NoMemory>
    requires { AllByRecursion (HasOperand order.now) parts.now }
    ensures { IfOk result (TellAll order.now (of_disjunct (first_true 1 parts.now) parts.now)) }
{
    let number = first_true(parts);
    let mut witnesses = List::new(alloc);
    for part in parts {
        if u64::from(part.disjunct) == number {
            push_witness(alloc, order, part, &mut witnesses)?;
        }
    }
    Ok(witnesses)
}

/// The witness of the first false part of each disjunct.
fn witnesses_of_false(
    alloc: Global,
    order: &Order,
    parts: &[PartAnswer],
) -> Result<List<WitnessText>, NoMemory>
    requires { AllByRecursion (HasOperand order.now) parts.now }
    ensures { IfOk result (TellAll order.now (first_false 0 parts.now)) }
{
    let mut told = 0;
    let mut witnesses = List::new(alloc);
    for part in parts {
        if !part.truth && part.disjunct != told {
            push_witness(alloc, order, part, &mut witnesses)?;
            told = part.disjunct;
        }
    }
    Ok(witnesses)
}

/// The witnesses of a verdict where they are wanted.
pub fn witnesses_told(
    alloc: Global,
    order: &Order,
    parts: &[PartAnswer],
    verdict: bool,
    wanted: bool,
) -> Result<List<WitnessText>, NoMemory>
    requires { AllByRecursion (HasOperand order.now) parts.now }
    ensures wanted { wanted ≡ true
        → IfOk result (TellAll order.now (chosen verdict parts.now)) }
    ensures unwanted { wanted ≡ false → IfOk result (λ witnesses. witnesses ≡ []) }
{
    if !wanted {
        return Ok(List::new(alloc));
    }
    if verdict {
        witnesses_of_true(alloc, order, parts)
    } else {
        witnesses_of_false(alloc, order, parts)
    }
}
