//! The text of a report.

ghost use Rattle.std.specs.Prelude.{◌≡◌, ◌++◌, ◌<◌, [], length, map, IfOk, IfSome, OnOk};
ghost use Rattle.std.specs.List.{AllByRecursion};
ghost use Rattle.event_log.specs.LogText.{text_of};
ghost use Rattle.report_lines.specs.Spelling.{truth_text, edge_line, step_line};
ghost use Rattle.report_lines.specs.Reading.{steps_of};
ghost use Rattle.report.specs.Spelling.{IsWellFormed, head_lines, slice_lines, lines_of_slice};
ghost use Rattle.report.specs.Spelling.{witness_lines, lines_of_witnesses, report_text};
ghost use Rattle.report.specs.inside.Writing.{IsOf, Joins, IsTold};

use crate::report::{Report, SliceText};
use event_log::{put_clock, put_names};
use pota_base::{Bytes, EventId, NoMemory, put_u64};
use pota_names::Name;
use report_lines::{Edge, WitnessText, put_edge, put_slice, put_step, put_witness};
use std::alloc::Global;
use witness_kinds::Witness;

fn put_truth(out: &mut Bytes, truth: bool) -> Result<(), NoMemory>
    ensures { OnOk result (out.new ≡ out.old ++ truth_text truth) }
{
    if truth {
        return out.extend_from_slice(b"true");
    }
    out.extend_from_slice(b"false")
}

// The lines before slice and witnesses.
fn head_text(alloc: Global, report: &Report) -> Result<Bytes, NoMemory>
    ensures { IfOk result (λ text. text ≡ text_of (head_lines report.now)) }
{
    let mut out = Bytes::new(alloc);
    out.extend_from_slice(b"pota-report 1\nbatch ")?;
    put_u64(&mut out, u64::from(report.batch))?;
    out.extend_from_slice(b"\nprocs")?;
    put_names(&mut out, report.procs.as_slice())?;
    out.extend_from_slice(b"\nlengths ")?;
    put_clock(&mut out, report.lengths.as_slice())?;
    out.extend_from_slice(b"\nformula ")?;
    out.extend_from_slice(report.formula.as_slice())?;
    out.extend_from_slice(b"\nverdict ")?;
    put_truth(&mut out, report.verdict)?;
    out.push(b'\n')?;
    Ok(out)
}

fn put_edges(out: &mut Bytes, procs: &[Name], edges: &[Edge]) -> Result<(), NoMemory>
    requires { AllByRecursion (Joins procs.now) edges.now }
    ensures { OnOk result (out.new ≡ out.old ++ text_of (map (edge_line procs.now) edges.now)) }
{
    for edge in edges {
        put_edge(out, procs, *edge)?;
    }
    Ok(())
}

fn put_steps(out: &mut Bytes, procs: &[Name], steps: &[EventId]) -> Result<(), NoMemory>
    requires { AllByRecursion (IsOf procs.now) steps.now }
    ensures { OnOk result (out.new ≡ out.old ++ text_of (map (step_line procs.now) steps.now)) }
{
    for step in steps {
        put_step(out, procs, *step)?;
    }
    Ok(())
}

fn put_slice_lines(out: &mut Bytes, procs: &[Name], slice: &SliceText) -> Result<(), NoMemory>
    requires { AllByRecursion (Joins procs.now) slice.now.edges }
    ensures { OnOk result (out.new ≡ out.old ++ text_of (slice_lines procs.now slice.now)) }
{
    put_slice(out, &slice.bounds)?;
    put_edges(out, procs, slice.edges.as_slice())?;
    Ok(())
}

// The slice, where one was asked for.
fn put_slice_part(
    out: &mut Bytes,
    procs: &[Name],
    slice: &Option<SliceText>,
) -> Result<(), NoMemory>
    requires { IfSome slice.now (λ s. AllByRecursion (Joins procs.now) s.edges) }
    ensures { OnOk result (out.new ≡ out.old ++ text_of (lines_of_slice procs.now slice.now)) }
{
    match slice {
        None => Ok(()),
        Some(slice) => put_slice_lines(out, procs, slice),
    }
}

// The steps of the path of a witness, if it has one.
fn steps_of(witness: &Witness) -> &[EventId]
    ensures { result.now ≡ steps_of witness.now }
{
    match witness {
        Witness::Reach(path) | Witness::Against(path) | Witness::Always(path) => {
            path.steps.as_slice()
        }
        Witness::Nothing | Witness::StuckStart | Witness::StuckFinish | Witness::StuckPair(_, _) =>
            &[],
    }
}

fn put_witness_lines(out: &mut Bytes, procs: &[Name], witness: &WitnessText) -> Result<(), NoMemory>
    requires { IsTold procs.now witness.now }
    ensures { OnOk result (out.new ≡ out.old ++ text_of (witness_lines procs.now witness.now)) }
{
    put_witness(out, procs, witness)?;
    put_steps(out, procs, steps_of(&witness.witness))?;
    Ok(())
}

fn put_witnesses(out: &mut Bytes, procs: &[Name], witnesses: &[WitnessText]) -> Result<(), NoMemory>
    requires { AllByRecursion (IsTold procs.now) witnesses.now }
    ensures { OnOk result (out.new
        ≡ out.old ++ text_of (lines_of_witnesses procs.now witnesses.now)) }
{
    for witness in witnesses {
        put_witness_lines(out, procs, witness)?;
    }
    Ok(())
}

/// The text of the report.
pub fn write_report(alloc: Global, report: &Report) -> Result<Bytes, NoMemory>
    requires { IsWellFormed report.now }
    ensures { IfOk result (λ text. text ≡ report_text report.now) }
{
    let procs = report.procs.as_slice();
    let mut out = head_text(alloc, report)?;
    put_slice_part(&mut out, procs, &report.slice)?;
    put_witnesses(&mut out, procs, report.witnesses.as_slice())?;
    out.extend_from_slice(b"end\n")?;
    Ok(out)
}
