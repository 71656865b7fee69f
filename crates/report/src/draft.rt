//! What stands of a report behind its first lines.

ghost use Rattle.std.specs.Prelude.{◌≡◌, ◌≤◌, length, IfOk};
ghost use Rattle.pota_base.specs.Limits.{most_processes};
ghost use Rattle.log_lines.specs.Spelling.{ProcsFit};
ghost use Rattle.report_lines.specs.Spelling.{RunFits};
ghost use Rattle.report_lines.specs.Reading.{has_path, with_steps};
ghost use Rattle.report.specs.declared.draft.Draft.TheVariants.{Numbered as NumberedAs};
ghost use Rattle.report.specs.declared.draft.Draft.TheVariants.{Named as NamedAs};
ghost use Rattle.report.specs.declared.draft.Draft.TheVariants.{Measured as MeasuredAs};
ghost use Rattle.report.specs.declared.draft.Draft.TheVariants.{Stated as StatedAs};
ghost use Rattle.report.specs.declared.draft.Draft.TheVariants.{Judged as JudgedAs};
ghost use Rattle.report.specs.declared.draft.Draft.TheVariants.{Sliced as SlicedAs};
ghost use Rattle.report.specs.declared.draft.Draft.TheVariants.{Walked as WalkedAs};
ghost use Rattle.report.specs.Machine.{body_step, step, next_edge, next_step, walked, IsGood};

use crate::report::{Report, SliceText};
use cut_lattice::Cut;
use event_log::names_of;
use log_lines::{LineError, is_end, read_procs};
use pota_base::{Bytes, EventId, List, NoMemory};
use pota_names::Name;
use report_lines::{
    Edge, WitnessText, is_title, read_batch, read_edge, read_formula, read_lengths, read_slice,
    read_step, read_verdict, read_witness,
};
use std::alloc::Global;
use witness_kinds::{Path, Witness};

/// What the lines so far say, by the place behind them. A list that still grows is kept apart from
/// what it belongs to.
#[derive(Debug, Drop)]
pub enum Draft {
    Start,
    /// Behind the first line.
    Titled,
    Numbered(u32),
    Named(u32, List<Name>),
    Measured(u32, List<Name>, Cut),
    Stated(u32, List<Name>, Cut, Bytes),
    /// Behind the verdict.
    Judged(Report),
    /// Behind some lines of the slice.
    Sliced(Report, SliceText),
    /// Behind the line of a witness and some of its steps.
    Walked(Report, WitnessText, List<EventId>),
    /// Behind the last line.
    Over(Report),
}

// Behind the `procs` line.
#[tactic(auto, unfolding(crate::specs::Machine::step))]
fn named(alloc: Global, batch: u32, line: &[u8]) -> Result<Option<Draft>, NoMemory>
    ensures { IfOk result (λ next. next ≡ step (NumberedAs batch) line.now) }
{
    let names = match read_procs(alloc, line) {
        Ok(names) => names,
        Err(LineError::Malformed) => return Ok(None),
        Err(LineError::NoMemory) => return Err(NoMemory),
    };
    let procs = names_of(alloc, &names)?;
    Ok(Some(Draft::Named(batch, procs)))
}

// Behind the lengths.
#[tactic(auto, unfolding(crate::specs::Machine::step))]
fn measured(
    alloc: Global,
    batch: u32,
    procs: List<Name>,
    line: &[u8],
) -> Result<Option<Draft>, NoMemory>
    requires { length procs ≤ most_processes }
    ensures { IfOk result (λ next. next ≡ step (NamedAs batch procs) line.now) }
{
    let Some(lengths) = read_lengths(alloc, procs.len(), line)? else {
        return Ok(None);
    };
    Ok(Some(Draft::Measured(batch, procs, lengths)))
}

// Behind the formula.
#[tactic(auto, unfolding(crate::specs::Machine::step))]
fn stated(
    alloc: Global,
    batch: u32,
    procs: List<Name>,
    lengths: Cut,
    line: &[u8],
) -> Result<Option<Draft>, NoMemory>
    ensures { IfOk result (λ next. next ≡ step (MeasuredAs batch procs lengths) line.now) }
{
    let Some(formula) = read_formula(alloc, line)? else {
        return Ok(None);
    };
    Ok(Some(Draft::Stated(batch, procs, lengths, formula)))
}

// Behind the verdict.
#[tactic(auto, unfolding(crate::specs::Machine::step))]
fn judged(
    alloc: Global,
    batch: u32,
    procs: List<Name>,
    lengths: Cut,
    formula: Bytes,
    line: &[u8],
) -> Option<Draft>
    ensures { result ≡ step (StatedAs batch procs lengths formula) line.now }
{
    let verdict = read_verdict(line)?;
    Some(Draft::Judged(Report {
        batch,
        procs,
        lengths,
        formula,
        verdict,
        slice: None,
        witnesses: List::new(alloc),
    }))
}

// Behind the line of a witness, or the last line.
fn body_step(alloc: Global, report: Report, line: &[u8]) -> Result<Option<Draft>, NoMemory>
    requires { RunFits report.procs report.lengths }
    ensures { IfOk result (λ next. next ≡ body_step report line.now) }
{
    let witness = read_witness(alloc, report.procs.as_slice(), &report.lengths, line)?;
    if let Some(witness) = witness {
        return Ok(Some(Draft::Walked(report, witness, List::new(alloc))));
    }
    if is_end(line) {
        return Ok(Some(Draft::Over(report)));
    }
    Ok(None)
}

// Behind the line after the verdict.
#[tactic(auto, unfolding(crate::specs::Machine::step))]
fn sliced(alloc: Global, report: Report, line: &[u8]) -> Result<Option<Draft>, NoMemory>
    requires { RunFits report.procs report.lengths }
    ensures { IfOk result (λ next. next ≡ step (JudgedAs report) line.now) }
{
    if let Some(bounds) = read_slice(alloc, &report.lengths, line)? {
        let edges = List::new(alloc);
        return Ok(Some(Draft::Sliced(report, SliceText { bounds, edges })));
    }
    body_step(alloc, report, line)
}

// The next edge of a slice that is not empty.
fn next_edge(report: &Report, slice: &SliceText, line: &[u8]) -> Option<Edge>
    requires { RunFits report.now.procs report.now.lengths }
    ensures { result ≡ next_edge report.now slice.now line.now }
{
    if slice.bounds.is_none() {
        return None;
    }
    read_edge(report.procs.as_slice(), &report.lengths, line)
}

// Behind a line after the first one of a slice.
#[tactic(auto, unfolding(crate::specs::Machine::step))]
fn edged(
    alloc: Global,
    mut report: Report,
    mut slice: SliceText,
    line: &[u8],
) -> Result<Option<Draft>, NoMemory>
    requires { RunFits report.procs report.lengths }
    ensures { IfOk result (λ next. next ≡ step (SlicedAs report slice) line.now) }
{
    if let Some(edge) = next_edge(&report, &slice, line) {
        slice.edges.push(edge)?;
        return Ok(Some(Draft::Sliced(report, slice)));
    }
    report.slice = Some(slice);
    body_step(alloc, report, line)
}

fn has_path(witness: &Witness) -> bool
    ensures { result ≡ has_path witness.now }
{
    match witness {
        Witness::Reach(_) | Witness::Against(_) | Witness::Always(_) => true,
        Witness::Nothing | Witness::StuckStart | Witness::StuckFinish | Witness::StuckPair(_, _) =>
            false,
    }
}

// The next step of a witness with a path.
fn next_step(report: &Report, witness: &WitnessText, line: &[u8]) -> Option<EventId>
    requires { RunFits report.now.procs report.now.lengths }
    ensures { result ≡ next_step report.now witness.now line.now }
{
    if !has_path(&witness.witness) {
        return None;
    }
    read_step(report.procs.as_slice(), &report.lengths, line)
}

// The witness with the steps of its path, if it has one.
fn with_steps(witness: Witness, steps: List<EventId>) -> Witness
    ensures { result ≡ with_steps witness steps }
{
    match witness {
        Witness::Reach(Path { goal, .. }) => Witness::Reach(Path { goal, steps }),
        Witness::Against(Path { goal, .. }) => Witness::Against(Path { goal, steps }),
        Witness::Always(Path { goal, .. }) => Witness::Always(Path { goal, steps }),
        Witness::Nothing => Witness::Nothing,
        Witness::StuckStart => Witness::StuckStart,
        Witness::StuckFinish => Witness::StuckFinish,
        Witness::StuckPair(first, other) => Witness::StuckPair(first, other),
    }
}

// Behind a line after that of a witness.
#[tactic(auto, unfolding(crate::specs::Machine::step))]
fn stepped(
    alloc: Global,
    mut report: Report,
    witness: WitnessText,
    mut steps: List<EventId>,
    line: &[u8],
) -> Result<Option<Draft>, NoMemory>
    requires { RunFits report.procs report.lengths }
    ensures { IfOk result (λ next. next ≡ step (WalkedAs report witness steps) line.now) }
{
    if let Some(event) = next_step(&report, &witness, line) {
        steps.push(event)?;
        return Ok(Some(Draft::Walked(report, witness, steps)));
    }
    let WitnessText {
        disjunct,
        part,
        witness,
    } = witness;
    report.witnesses.push(WitnessText {
        disjunct,
        part,
        witness: with_steps(witness, steps),
    })?;
    body_step(alloc, report, line)
}

impl Draft {
    /// What one line more makes of it, and `None` where no report goes on with that line.
    #[tactic(auto, unfolding(crate::specs::Machine::step))]
    pub fn step(self, alloc: Global, line: &[u8]) -> Result<Option<Draft>, NoMemory>
        requires { IsGood self }
        ensures { IfOk result (λ next. next ≡ step self line.now) }
    {
        match self {
            Draft::Start if is_title(line) => Ok(Some(Draft::Titled)),
            Draft::Start => Ok(None),
            Draft::Titled => Ok(read_batch(line).map(Draft::Numbered)),
            Draft::Numbered(batch) => named(alloc, batch, line),
            Draft::Named(batch, procs) => measured(alloc, batch, procs, line),
            Draft::Measured(batch, procs, lengths) => stated(alloc, batch, procs, lengths, line),
            Draft::Stated(batch, procs, lengths, formula) => {
                Ok(judged(alloc, batch, procs, lengths, formula, line))
            }
            Draft::Judged(report) => sliced(alloc, report, line),
            Draft::Sliced(report, slice) => edged(alloc, report, slice, line),
            Draft::Walked(report, witness, steps) => stepped(alloc, report, witness, steps, line),
            Draft::Over(_) => Ok(None),
        }
    }
}
