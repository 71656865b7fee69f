//! The rows of witnesses.
ghost use Rattle.std.specs.Prelude.{◌≡◌, ◌-◌, ◌++◌, ◌∷◌, [], length, map, get_or, codes, OnOk};
ghost use Rattle.std.specs.List.{AllByRecursion, flat_map};
ghost use Rattle.pota_base.specs.Shape.{HasEvent};
ghost use Rattle.report_lines.specs.Spelling.{PathFits, WitnessFits, WitnessTextFits};
ghost use Rattle.view_text.specs.Text.{goal_row, step_rows, path_rows, pair_rows, witness_told};
ghost use Rattle.view_text.specs.Text.{witness_rows, of_alternative, witness_head};

use crate::columns::put_spaces;
use crate::events::{put_event_row, put_left_out, put_step_row};
use crate::shown::{bounds_of, is_shown, is_whole};
use crate::values::put_value_rows;
use event_log::{States, put_clock};
use pota_base::{Bytes, EventId, NoMemory, put_u64};
use rctl_grammar::Token;
use report::WitnessText;
use std::alloc::Global;
use view_parts::Extent;
use witness_kinds::{Path, Witness};

/// What the rows of a view are told from.
#[derive(Clone, Copy)]
pub struct Told<'a> {
    pub alloc: Global,
    pub states: &'a States,
    /// The tokens of the formula.
    pub tokens: &'a [Token],
    pub extent: Extent,
}

// Appends what holds at the goal of a path, and how many steps lead there.
fn put_goal_row(out: &mut Bytes, shown: &[u8], path: &Path) -> Result<(), NoMemory>
    ensures { OnOk result (out.new ≡ out.old ++ goal_row shown.now path.now) }
{
    out.extend_from_slice(shown)?;
    put_clock(out, path.goal.as_slice())?;
    out.extend_from_slice(b"; steps: ")?;
    put_u64(out, path.steps.len() as u64)?;
    out.push(b'\n')
}

/// Appends the rows of the steps of a path that are shown, and how many are not.
pub fn put_step_rows(out: &mut Bytes, told: &Told<'_>, path: &Path) -> Result<(), NoMemory>
    requires { PathFits (map length told.now.states.now.events) path.now }
    ensures { OnOk result (out.new ≡ out.old
        ++ step_rows told.now.states.now told.now.tokens.now told.now.extent path.now) }
{
    let bounds = bounds_of(told, path)?;
    let steps = path.steps.as_slice();
    let whole = is_whole(told.extent, steps.len());
    let mut left_out = 0;
    for k in 0..steps.len() {
        if is_shown(told, whole, &bounds, steps[k]) {
            put_left_out(out, left_out)?;
            put_step_row(out, told.alloc, told.states, k as u64 + 1, steps[k])?;
            left_out = 0;
        } else {
            left_out += 1;
        }
    }
    put_left_out(out, left_out)
}

// Appends what is shown of a path.
fn put_path(out: &mut Bytes, told: &Told<'_>, shown: &[u8], path: &Path) -> Result<(), NoMemory>
    requires { PathFits (map length told.now.states.now.events) path.now }
    ensures { OnOk result (out.new
        ≡ out.old ++ path_rows told.now.states.now told.now.tokens.now told.now.extent shown.now
        path.now) }
{
    put_goal_row(out, shown, path)?;
    put_step_rows(out, told, path)?;
    put_value_rows(out, told.states, told.tokens, &path.goal)
}

// Appends what is shown of a stuck pair.
fn put_pair(
    out: &mut Bytes,
    told: &Told<'_>,
    first: EventId,
    other: EventId,
) -> Result<(), NoMemory>
    requires first { HasEvent (map length told.now.states.now.events) first }
    requires other { HasEvent (map length told.now.states.now.events) other }
    ensures { OnOk result (out.new ≡ out.old ++ pair_rows told.now.states.now first other) }
{
    out.extend_from_slice(
        b"a cut where the operand holds has both of these or neither, and a step takes one\n",
    )?;
    put_spaces(out, 7)?;
    put_event_row(out, told.alloc, told.states, first)?;
    put_spaces(out, 7)?;
    put_event_row(out, told.alloc, told.states, other)
}

// Appends what a witness shows.
fn put_witness(out: &mut Bytes, told: &Told<'_>, witness: &Witness) -> Result<(), NoMemory>
    requires { WitnessFits (map length told.now.states.now.events) witness.now }
    ensures { OnOk result (out.new
        ≡ out.old ++ witness_told told.now.states.now told.now.tokens.now told.now.extent
        witness.now) }
{
    match witness {
        Witness::Nothing => out.extend_from_slice(b"there is nothing to show\n"),
        Witness::Reach(path) => put_path(out, told, b"the operand holds at ", path),
        Witness::Against(path) => put_path(out, told, b"the operand does not hold at ", path),
        Witness::Always(path) => {
            put_path(
                out,
                told,
                b"the operand holds at each cut on the way to ",
                path,
            )
        }
        Witness::StuckStart => out.extend_from_slice(
            b"the operand does not hold where nothing has happened yet\n",
        ),
        Witness::StuckFinish => out.extend_from_slice(b"the operand does not hold at the end\n"),
        Witness::StuckPair(first, other) => put_pair(out, told, *first, *other),
    }
}

// The alternative of this number, from 1, and nothing where none is told of.
fn alternative(alternatives: &[Bytes], number: u32) -> &[u8]
    ensures { result.now ≡ get_or alternatives.now (number - 1) [] }
{
    match alternatives.get((number as usize).saturating_sub(1)) {
        Some(text) => text.as_slice(),
        None => &[],
    }
}

// Appends the text of an alternative behind ` of `, and nothing where none is told of.
fn put_of_alternative(out: &mut Bytes, text: &[u8]) -> Result<(), NoMemory>
    ensures { OnOk result (out.new ≡ out.old ++ of_alternative text.now) }
{
    match text {
        [] => Ok(()),
        [_, ..] => {
            out.extend_from_slice(b" of ")?;
            out.extend_from_slice(text)
        }
    }
}

// Appends an empty line, the numbers of a witness, and its alternative.
fn put_head(out: &mut Bytes, alternatives: &[Bytes], witness: &WitnessText) -> Result<(), NoMemory>
    ensures { OnOk result (out.new ≡ out.old ++ witness_head alternatives.now witness.now) }
{
    out.extend_from_slice(b"\nwitness ")?;
    put_u64(out, u64::from(witness.disjunct))?;
    out.push(b'.')?;
    put_u64(out, u64::from(witness.part))?;
    put_of_alternative(out, alternative(alternatives, witness.disjunct))?;
    out.extend_from_slice(b": ")
}

fn put_witness_rows(
    out: &mut Bytes,
    told: &Told<'_>,
    alternatives: &[Bytes],
    witness: &WitnessText,
) -> Result<(), NoMemory>
    requires { WitnessTextFits (map length told.now.states.now.events) witness.now }
    ensures { OnOk result (out.new
        ≡ out.old ++ witness_rows told.now.states.now told.now.tokens.now told.now.extent
        alternatives.now witness.now) }
{
    put_head(out, alternatives, witness)?;
    put_witness(out, told, &witness.witness)
}

/// Appends what each of the witnesses shows, with its alternative of these.
pub fn put_witnesses(
    out: &mut Bytes,
    told: &Told<'_>,
    alternatives: &[Bytes],
    witnesses: &[WitnessText],
) -> Result<(), NoMemory>
    requires { AllByRecursion (WitnessTextFits (map length told.now.states.now.events))
        witnesses.now }
    ensures { OnOk result (out.new ≡ out.old
        ++ flat_map (witness_rows told.now.states.now told.now.tokens.now told.now.extent
        alternatives.now) witnesses.now) }
{
    for witness in witnesses {
        put_witness_rows(out, told, alternatives, witness)?;
    }
    Ok(())
}
