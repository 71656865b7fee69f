//! The verifier.

ghost use Rattle.std.specs.Prelude.{◌≡◌, ◌+◌, ◌≤◌, IfOk, IfSome, IfNone, IsErr, OnErr};
ghost use Rattle.certificate_lines.specs.declared.line.Line.{Line};
ghost use Rattle.certificate_lines.specs.Spelling.{Spells};
ghost use Rattle.certificate_text.specs.declared.said.Stage.TheVariants as stage;
ghost use Rattle.certificate_text.specs.Taking.{Justifies, IsUnjustified, fresh, taken};
ghost use Rattle.certificate_text.specs.Taking.{stage_after};
ghost use Rattle.verifier.specs.Checking.{IsChecked, IsNoLine};
ghost use Rattle.verifier.specs.inside.Checking.{IsText, IsSaid, IsUnsaid};
ghost use Rattle.verifier.specs.Checking.{checked_as, number_at};
ghost use Rattle.verifier.specs.inside.Checking.{KeepsText};
ghost use Rattle.verifier.specs.declared.verifier.Checked.TheVariants as checked;

use crate::takes::Takes;
use certificate_lines::{Line, read_line};
use certificate_text::Stage;
use pota_base::{Bytes, NoMemory, Steps};
use std::alloc::Global;
use std::marker::Model;
use std::sync::ledger::Ledger;

/// What is told of a line.
#[derive(Clone, Copy, Debug, PartialEq, Eq)]
pub enum Checked {
    /// It is justified, and more is due.
    More,
    /// It is the last one of an accepted certificate, with this verdict.
    Accepted(bool),
    /// The line of this number, from 1, is refused: this one, or one before it.
    Refused(u64),
}

/// A verifier of the text of a certificate.
#[derive(Debug, Drop)]
pub struct Verifier<N: Takes> {
    alloc: Global,
    formula: Bytes,
    nodes: N,
    stage: Stage,
    lines: u64,
}

impl<N: Takes> Model for Verifier<N> {
    ghost use Rattle.certificate_text.specs.Taking.{VerifierView};

    ghost Value = { VerifierView N };

    ghost view = { λ v. record {
      formula = v.formula;
      nodes = v.nodes;
      stage = v.stage;
      lines = v.lines;
    } };
}

// What is due behind a line that has to be this text, where it is.
fn due_behind(line: &[u8], text: &[u8], due: Stage) -> Option<Stage>
    ensures { IsText line.now text.now due result }
{
    if line == text { Some(due) } else { None }
}

// What is due behind a line that says something of the nodes.
fn due_after(line: Line) -> Stage
    ensures { result ≡ stage_after line }
{
    match line {
        Line::Verdict(told) => Stage::Ending(told),
        _ => Stage::Body,
    }
}

// What is told where this is due.
fn checked_as(due: Stage) -> Checked
    ensures { result ≡ checked_as due }
{
    match due {
        Stage::Accepted(told) => Checked::Accepted(told),
        _ => Checked::More,
    }
}

// Takes a line that has to say something of the nodes, and says what is due behind it, where it
// follows.
fn take_said<N: Takes, L: Ledger>(
    nodes: &mut N,
    alloc: Global,
    line: &[u8],
    steps: &mut Steps<L>,
) -> Result<Option<Stage>, NoMemory>
    ensures said { IfOk result (λ due. IfSome due
        (λ next. IsSaid N.follows nodes.old line.now nodes.new next)) }
    ensures refused { IfOk result (λ due. IfNone due
        (IsUnsaid N.follows nodes.old line.now)) }
    ensures looks { (said : Line) → Spells line.now said
        → steps.new ≤ steps.old + N.looks nodes.old said nodes.new }
    ensures none { IsNoLine line.now → steps.new ≤ steps.old }
{
    let Some(said) = read_line(line) else {
        return Ok(None);
    };
    if nodes.take_line(alloc, said, steps)? {
        return Ok(Some(due_after(said)));
    }
    Ok(None)
}

impl<N: Takes> Verifier<N> {
    /// A verifier that took no line, of this line for the formula.
    pub fn new(alloc: Global, formula: Bytes, nodes: N) -> Verifier<N>
        ensures { result ≡ fresh formula nodes }
    {
        Verifier {
            alloc,
            formula,
            nodes,
            stage: Stage::Title,
            lines: 0,
        }
    }

    // What is due behind the line, where it is justified.
    fn due_behind<L: Ledger>(
        &mut self,
        line: &[u8],
        steps: &mut Steps<L>,
    ) -> Result<Option<Stage>, NoMemory>
        ensures justified { IfOk result (λ due. IfSome due (λ next.
            Justifies N.follows self.old line.now (taken self.old self.new.nodes next))) }
        ensures refused { IfOk result (λ due. IfNone due
            (IsUnjustified N.follows self.old line.now)) }
        ensures spent { self.old.stage ≡ stage.Spent → IsErr result }
        ensures same { KeepsText self.old self.new }
        ensures looks { (said : Line) → Spells line.now said
            → steps.new ≤ steps.old + N.looks self.old.nodes said self.new.nodes }
        ensures none { IsNoLine line.now → steps.new ≤ steps.old }
    {
        match self.stage {
            Stage::Title => Ok(due_behind(line, b"pota-cert 1", Stage::Formula)),
            Stage::Formula => Ok(due_behind(line, self.formula.as_slice(), Stage::Body)),
            Stage::Body => take_said(&mut self.nodes, self.alloc, line, steps),
            Stage::Ending(told) => Ok(due_behind(line, b"end", Stage::Accepted(told))),
            Stage::Accepted(_) => Ok(None),
            Stage::Refused(_) => Ok(None),
            Stage::Spent => Err(NoMemory),
        }
    }

    // Keeps what is due behind a justified line, and tells of it.
    fn pass(&mut self, due: Stage, number: u64) -> Checked
        ensures told { result ≡ checked_as due }
        ensures taken { self.new ≡ record {
          formula = self.old.formula;
          nodes = self.old.nodes;
          stage = due;
          lines = number;
        } }
    {
        self.stage = due;
        self.lines = number;
        checked_as(due)
    }

    // Refuses the line of this number from here on.
    fn refuse(&mut self, number: u64) -> Checked
        ensures told { result ≡ checked.Refused number }
        ensures due { self.new.stage ≡ stage.Refused number }
        ensures formula { self.new.formula ≡ self.old.formula }
        ensures nodes { self.new.nodes ≡ self.old.nodes }
    {
        self.stage = Stage::Refused(number);
        Checked::Refused(number)
    }

    // The number of the next line, or of the one that was refused.
    fn number(&self) -> Result<u64, NoMemory>
        ensures { IfOk result (λ number. number ≡ number_at self.now.stage (self.now.lines + 1)) }
    {
        match self.stage {
            Stage::Refused(line) => Ok(line),
            _ => self.lines.checked_add(1).ok_or(NoMemory),
        }
    }

    // What is told of the line, by its number.
    fn take<L: Ledger>(&mut self, line: &[u8], steps: &mut Steps<L>) -> Result<Checked, NoMemory>
        ensures checked { IfOk result
            (λ told. IsChecked N.follows self.old line.now told self.new) }
        ensures spent { self.old.stage ≡ stage.Spent → IsErr result }
        ensures formula { self.new.formula ≡ self.old.formula }
        ensures looks { (said : Line) → Spells line.now said
            → steps.new ≤ steps.old + N.looks self.old.nodes said self.new.nodes }
        ensures none { IsNoLine line.now → steps.new ≤ steps.old }
    {
        let number = self.number()?;
        match self.due_behind(line, steps)? {
            Some(due) => Ok(self.pass(due, number)),
            None => Ok(self.refuse(number)),
        }
    }

    /// Takes one line, without its line feed, and tells of it.
    ///
    /// # Errors
    ///
    /// `NoMemory`, then and at each line behind.
    pub fn line<L: Ledger>(
        &mut self,
        line: &[u8],
        steps: &mut Steps<L>,
    ) -> Result<Checked, NoMemory>
        ensures checked { IfOk result
            (λ told. IsChecked N.follows self.old line.now told self.new) }
        ensures memory { OnErr result (self.new.stage ≡ stage.Spent) }
        ensures spent { self.old.stage ≡ stage.Spent → IsErr result }
        ensures formula { self.new.formula ≡ self.old.formula }
        ensures looks { (said : Line) → Spells line.now said
            → steps.new ≤ steps.old + N.looks self.old.nodes said self.new.nodes }
        ensures none { IsNoLine line.now → steps.new ≤ steps.old }
    {
        let told = self.take(line, steps);
        if told.is_err() {
            self.stage = Stage::Spent;
        }
        told
    }
}
