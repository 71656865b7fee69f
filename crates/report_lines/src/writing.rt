//! The spelling of the lines of slices and witnesses, with their line feeds.

ghost use Rattle.std.specs.Prelude.{◌≡◌, ◌++◌, ◌∷◌, ◌<◌, [], length, OnOk};
ghost use Rattle.log_lines.specs.Spelling.{clock_text};
ghost use Rattle.event_log.specs.LogText.{text_of};
ghost use Rattle.witness_kinds.specs.declared.Witness.TheVariants.{StuckPair};
ghost use Rattle.report_lines.specs.Spelling.{event_text, bounds_text, kind_text, slice_line};
ghost use Rattle.report_lines.specs.Spelling.{edge_line, witness_line, step_line, IsNamed};

use crate::kinds::WitnessText;
use cut_lattice::Cut;
use event_log::{put_clock, put_spaced};
use pota_base::{Bytes, EventId, NoMemory, put_u64};
use pota_names::Name;
use slice_graph::Edge;
use witness_kinds::Witness;

// ` NAME NAT`
fn put_event(out: &mut Bytes, procs: &[Name], event: EventId) -> Result<(), NoMemory>
    requires { event.process < length procs.now }
    ensures { OnOk result (out.new ≡ out.old ++ event_text procs.now event) }
{
    put_spaced(out, procs[event.process as usize].as_bytes())?;
    out.push(b' ')?;
    put_u64(out, u64::from(event.position))
}

fn put_bounds(out: &mut Bytes, bounds: &Option<(Cut, Cut)>) -> Result<(), NoMemory>
    ensures { OnOk result (out.new ≡ out.old ++ bounds_text bounds.now) }
{
    match bounds {
        None => out.extend_from_slice(b"empty"),
        Some((low, high)) => {
            put_clock(out, low.as_slice())?;
            out.push(b' ')?;
            put_clock(out, high.as_slice())
        }
    }
}

/// Appends the line of the bottom and the top of a slice.
pub fn put_slice(out: &mut Bytes, bounds: &Option<(Cut, Cut)>) -> Result<(), NoMemory>
    ensures { OnOk result (out.new ≡ out.old ++ text_of (slice_line bounds.now ∷ [])) }
{
    out.extend_from_slice(b"slice ")?;
    put_bounds(out, bounds)?;
    out.push(b'\n')
}

/// Appends the line of an edge.
pub fn put_edge(out: &mut Bytes, procs: &[Name], edge: Edge) -> Result<(), NoMemory>
    requires cause { edge.cause.process < length procs.now }
    requires effect { edge.effect.process < length procs.now }
    ensures { OnOk result (out.new ≡ out.old ++ text_of (edge_line procs.now edge ∷ [])) }
{
    out.extend_from_slice(b"edge")?;
    put_event(out, procs, edge.cause)?;
    out.extend_from_slice(b" ->")?;
    put_event(out, procs, edge.effect)?;
    out.push(b'\n')
}

/// Appends the line of a step.
pub fn put_step(out: &mut Bytes, procs: &[Name], event: EventId) -> Result<(), NoMemory>
    requires { event.process < length procs.now }
    ensures { OnOk result (out.new ≡ out.old ++ text_of (step_line procs.now event ∷ [])) }
{
    out.extend_from_slice(b"step")?;
    put_event(out, procs, event)?;
    out.push(b'\n')
}

// A word, and the goal of a path.
fn put_goal(out: &mut Bytes, word: &[u8], goal: &Cut) -> Result<(), NoMemory>
    ensures { OnOk result (out.new ≡ out.old ++ (word.now ++ clock_text goal.now)) }
{
    out.extend_from_slice(word)?;
    put_clock(out, goal.as_slice())
}

fn put_pair(out: &mut Bytes, procs: &[Name], first: EventId, other: EventId) -> Result<(), NoMemory>
    requires first { first.process < length procs.now }
    requires other { other.process < length procs.now }
    ensures { OnOk result (out.new ≡ out.old ++ kind_text procs.now (StuckPair first other)) }
{
    out.extend_from_slice(b"stuck pair")?;
    put_event(out, procs, first)?;
    put_event(out, procs, other)?;
    Ok(())
}

// What is told behind the numbers of a witness.
fn put_kind(out: &mut Bytes, procs: &[Name], witness: &Witness) -> Result<(), NoMemory>
    requires { IsNamed procs.now witness.now }
    ensures { OnOk result (out.new ≡ out.old ++ kind_text procs.now witness.now) }
{
    match witness {
        Witness::Nothing => out.extend_from_slice(b"none"),
        Witness::Reach(path) => put_goal(out, b"reach ", &path.goal),
        Witness::Against(path) => put_goal(out, b"against ", &path.goal),
        Witness::Always(path) => put_goal(out, b"always ", &path.goal),
        Witness::StuckStart => out.extend_from_slice(b"stuck start"),
        Witness::StuckFinish => out.extend_from_slice(b"stuck finish"),
        Witness::StuckPair(first, other) => put_pair(out, procs, *first, *other),
    }
}

/// Appends the line of a witness, without the steps of its path.
pub fn put_witness(out: &mut Bytes, procs: &[Name], witness: &WitnessText) -> Result<(), NoMemory>
    requires { IsNamed procs.now witness.now.witness }
    ensures { OnOk result (out.new ≡ out.old ++ text_of (witness_line procs.now witness.now ∷ [])) }
{
    out.extend_from_slice(b"witness ")?;
    put_u64(out, u64::from(witness.disjunct))?;
    out.push(b'.')?;
    put_u64(out, u64::from(witness.part))?;
    out.push(b' ')?;
    put_kind(out, procs, &witness.witness)?;
    out.push(b'\n')
}
