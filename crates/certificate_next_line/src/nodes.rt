//! Nodes whose lines come in the canonical order.
ghost use Rattle.std.specs.Prelude.{◌≡◌, ◌<◌, length, IfNone, IfOk, IfSome, OnSome};
ghost use Rattle.certificate_text.specs.Running.{IsOfNode};
ghost use Rattle.certificate_nodes.specs.Given.{IsEnded};
ghost use Rattle.certificate_nodes.specs.Nodes.{AreNodes, MayConclude, nodes_begun};
ghost use Rattle.certificate_canonical.specs.Canonical.{IsNext};
ghost use Rattle.certificate_next_line.specs.Coming.{lines_left};

use crate::rows::{doubts_of, next_of_rows, take_of_rows};
use certificate_lines::Line;
use certificate_nodes::Nodes;
use certificate_raises::Doubts;
use pota_base::{NoMemory, Steps};
use std::alloc::Global;
use std::marker::Model;
use std::sync::ledger::Ledger;

/// Nodes that make their canonical lines. Contracts see the nodes themselves.
#[derive(Debug, Drop)]
pub struct CanonicalNodes {
    alloc: Global,
    nodes: Nodes,
    doubts: Option<Doubts>,
}

impl Model for CanonicalNodes {
    ghost use Rattle.certificate_nodes.specs.Nodes.{NodesView};
    ghost use Rattle.certificate_next_line.specs.inside.Coming.{AreDoubtsOf};

    ghost Value = { NodesView };

    ghost view = { λ c. c.nodes };

    ghost invariant = { λ c. AreDoubtsOf c.doubts c.nodes.present };
}

impl CanonicalNodes {
    /// These nodes, whose lines come from here on.
    pub fn new(alloc: Global, nodes: Nodes) -> CanonicalNodes
        ensures { result ≡ nodes }
    {
        CanonicalNodes {
            alloc,
            nodes,
            doubts: None,
        }
    }

    /// The next canonical line, which the nodes take.
    ///
    /// # Errors
    ///
    /// `NoMemory`; no line may be asked for then.
    pub fn next_line<L: Ledger>(&mut self, steps: &mut Steps<L>) -> Result<Line, NoMemory>
        ensures next { IfOk result (λ line. IsNext self.old line self.new) }
        ensures less { IfOk result
            (λ line. IsOfNode line → lines_left self.new < lines_left self.old) }
    {
        if let Some(line) = self.line_of_rows(steps)? {
            return Ok(line);
        }
        if let Some(line) = self.line_of_node(steps)? {
            return Ok(line);
        }
        self.line_of_verdict(steps)
    }

    /// The next line of the present rows, or none where they have ended or there are none.
    fn line_of_rows<L: Ledger>(&mut self, steps: &mut Steps<L>) -> Result<Option<Line>, NoMemory>
        ensures next { IfOk result (λ line. IfSome line (λ said. IsNext self.old said self.new)) }
        ensures less { IfOk result
            (λ line. OnSome line (lines_left self.new < lines_left self.old)) }
        ensures ended { IfOk result (λ line. IfNone line (IsEnded self.old.present)) }
        ensures same { IfOk result (λ line. IfNone line (self.new ≡ self.old)) }
        ensures nodes { AreNodes self.old }
    {
        let Some(rows) = self.nodes.present() else {
            return Ok(None);
        };
        let mut doubts = doubts_of(self.alloc, rows, self.doubts.take())?;
        let Some(line) = next_of_rows(rows, &mut doubts, steps) else {
            return Ok(None);
        };
        take_of_rows(&mut self.nodes, line, steps);
        self.doubts = Some(doubts);
        Ok(Some(line))
    }

    /// The line of the next node, or none where all were begun.
    fn line_of_node<L: Ledger>(&mut self, steps: &mut Steps<L>) -> Result<Option<Line>, NoMemory>
        requires ended { IsEnded self.old.present }
        requires nodes { AreNodes self.old }
        ensures next { IfOk result (λ line. IfSome line (λ said. IsNext self.old said self.new)) }
        ensures less { IfOk result
            (λ line. OnSome line (lines_left self.new < lines_left self.old)) }
        ensures all { IfOk result (λ line. IfNone line (MayConclude self.old)) }
        ensures same { IfOk result (λ line. IfNone line (self.new ≡ self.old)) }
    {
        self.doubts = None;
        let number = self.nodes.begun() + 1;
        if self.nodes.begin_node(self.alloc, number, steps)? {
            return Ok(Some(Line::Node(number)));
        }
        Ok(None)
    }

    /// The verdict's line.
    fn line_of_verdict<L: Ledger>(&mut self, steps: &mut Steps<L>) -> Result<Line, NoMemory>
        requires { MayConclude self.old }
        ensures next { IfOk result (λ line. IsNext self.old line self.new) }
        ensures verdict { IfOk result (λ line. IsOfNode line → ⊥) }
    {
        self.doubts = None;
        match self.nodes.conclude(self.alloc, steps)? {
            Some(told) => Ok(Line::Verdict(told)),
            None => unreachable!(),
        }
    }
}
