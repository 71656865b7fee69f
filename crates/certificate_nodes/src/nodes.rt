//! Nodes that are begun, raised and ended.
ghost use Rattle.std.specs.Prelude.{◌≡◌, ◌↔◌, ◌+◌, ◌<◌, ◌≤◌, false, length, IfNone, IfOk, IfSome};
ghost use Rattle.std.specs.Prelude.{IsSome, IsTrue, MatchOption, OnOk};
ghost use Rattle.std.specs.Bool.{OnFalse, OnTrue};
ghost use Rattle.run_model.specs.Cut.{lengths};
ghost use Rattle.part_pulls.specs.PassedOn.{clocks_of};
ghost use Rattle.certificate_table.specs.Begun.{fresh_rows};
ghost use Rattle.certificate_nodes.specs.Plans.{IsPlan, system_at};
ghost use Rattle.certificate_nodes.specs.Given.{IsEnded};
ghost use Rattle.certificate_nodes.specs.Nodes.{AreNodes, BeginsNode, Concludes, GivesSlice};
ghost use Rattle.certificate_nodes.specs.Nodes.{MayBeginNode, MayBeginRow, MayConclude};
ghost use Rattle.certificate_nodes.specs.Nodes.{MayRaiseRow, disjunct_looks, fresh_nodes, looks_of};
ghost use Rattle.certificate_nodes.specs.Nodes.{nodes_begun, with_begun_row, with_raised_row};

use crate::conclusion::some_closes;
use crate::giving::slice_given;
use crate::ordered::OrderedRun;
use crate::plan::Plan;
use crate::present::{begin, is_ended, raise};
use crate::systems::system_of;
use certificate_table::CertifiedRows;
use part_pulls::Trace;
use pota_base::{List, NoMemory, Steps};
use slice_graph::Slice;
use std::alloc::Global;
use std::marker::Model;
use std::sync::ledger::Ledger;

/// The nodes of a plan on one run.
#[derive(Debug, Drop)]
pub struct Nodes {
    run: OrderedRun,
    plan: Plan,
    slices: List<Slice>,
    present: Option<CertifiedRows>,
}

impl Model for Nodes {
    ghost use Rattle.certificate_nodes.specs.Nodes.{AreNodes, NodesView};

    ghost Value = { NodesView };

    ghost view = { λ n. record {
      order = n.run;
      plan = n.plan;
      slices = n.slices;
      present = n.present;
    } };

    ghost invariant = { λ n. AreNodes (record {
      order = n.run;
      plan = n.plan;
      slices = n.slices;
      present = n.present;
    }) };
}

impl Nodes {
    /// The nodes of a plan on the run of this trace, before one is begun.
    pub fn new(alloc: Global, trace: Trace, plan: Plan) -> Nodes
        requires unspent { trace.spent ≡ false }
        requires plan { IsPlan (lengths (clocks_of trace.states.events)) plan }
        ensures fresh { result ≡ fresh_nodes (clocks_of trace.states.events) plan }
        ensures nodes { AreNodes result }
    {
        let run = OrderedRun::new(trace);
        // By its clause the clocks are those of an order.
        let _shape = run.order().shape();
        Nodes {
            run,
            plan,
            slices: List::new(alloc),
            present: None,
        }
    }

    /// Begins the node of this number, from 1, and says whether it may begin. It looks up each pull
    /// of the node before once at most.
    pub fn begin_node<L: Ledger>(
        &mut self,
        alloc: Global,
        number: u32,
        steps: &mut Steps<L>,
    ) -> Result<bool, NoMemory>
        ensures allowed { IfOk result (λ ok. IsTrue ok ↔ MayBeginNode self.old number) }
        ensures begun { IfOk result (λ ok. OnTrue ok (BeginsNode self.old self.new)) }
        ensures same { IfOk result (λ ok. OnFalse ok (self.new ≡ self.old)) }
        ensures looks { steps.new ≤ steps.old + looks_of self.old.present }
    {
        if !self.may_begin(number, steps) {
            return Ok(false);
        }
        self.give_slice(alloc)?;
        self.present = Some(self.next_rows(alloc)?);
        Ok(true)
    }

    /// Begins the row of the present node, and says whether it may begin. It looks up each pull of
    /// the node once at most.
    pub fn begin_row<L: Ledger>(
        &mut self,
        row: u32,
        after: Option<u32>,
        steps: &mut Steps<L>,
    ) -> bool
        ensures allowed { IsTrue result ↔ MayBeginRow self.old row after }
        ensures begun { OnTrue result (self.new ≡ with_begun_row self.old row after) }
        ensures same { OnFalse result (self.new ≡ self.old) }
        ensures looks { steps.new ≤ steps.old + looks_of self.old.present }
    {
        begin(&mut self.present, row, after, steps)
    }

    /// Raises the present row, and says whether it may. It looks up one pull at most.
    pub fn raise<L: Ledger>(&mut self, k: u32, x: u32, steps: &mut Steps<L>) -> bool
        ensures allowed { IsTrue result ↔ MayRaiseRow self.old k x }
        ensures raised { OnTrue result (self.new ≡ with_raised_row self.old k x) }
        ensures same { OnFalse result (self.new ≡ self.old) }
        ensures looks { steps.new ≤ steps.old + 1 }
    {
        raise(&mut self.present, k, x, steps)
    }

    /// The truth of the formula, once all nodes have ended. It looks up each pull of the last node
    /// and of each disjunct once at most.
    pub fn conclude<L: Ledger>(
        &mut self,
        alloc: Global,
        steps: &mut Steps<L>,
    ) -> Result<Option<bool>, NoMemory>
        ensures allowed { IfOk result (λ found. IsSome found ↔ MayConclude self.old) }
        ensures truth { IfOk result (λ found. IfSome found (Concludes self.old self.new)) }
        ensures same { IfOk result (λ found. IfNone found (self.new ≡ self.old)) }
        ensures looks { steps.new ≤ steps.old + looks_of self.old.present
            + disjunct_looks self.old.order self.old.plan self.new.slices }
    {
        if !self.may_conclude(steps) {
            return Ok(None);
        }
        self.give_slice(alloc)?;
        let found = some_closes(alloc, self.run.order(), &self.plan, &self.slices, steps)?;
        Ok(Some(found))
    }

    /// The rows of the present node, if there is one.
    pub fn present(&self) -> Option<&CertifiedRows>
        ensures rows { MatchOption result (self.now.present ≡ None)
            (λ rows. self.now.present ≡ Some rows.now) }
        ensures nodes { AreNodes self.now }
    {
        match &self.present {
            None => None,
            Some(rows) => Some(rows),
        }
    }

    /// How many nodes were begun.
    pub fn begun(&self) -> u32
        ensures count { result ≡ nodes_begun self.now }
        ensures few { result ≤ 65536 }
    {
        let ended = self.slices.len() as u32;
        match self.present {
            None => ended,
            Some(_) => ended + 1,
        }
    }

    /// Whether the node of this number may begin.
    fn may_begin<L: Ledger>(&self, number: u32, steps: &mut Steps<L>) -> bool
        ensures allowed { IsTrue result ↔ MayBeginNode self.now number }
        ensures looks { steps.new ≤ steps.old + looks_of self.now.present }
    {
        if number != self.begun() + 1 || number as usize > self.plan.nodes.len() {
            return false;
        }
        is_ended(&self.present, steps)
    }

    /// Whether all nodes were begun, and the last has ended.
    fn may_conclude<L: Ledger>(&self, steps: &mut Steps<L>) -> bool
        ensures allowed { IsTrue result ↔ MayConclude self.now }
        ensures looks { steps.new ≤ steps.old + looks_of self.now.present }
    {
        if self.begun() as usize != self.plan.nodes.len() {
            return false;
        }
        is_ended(&self.present, steps)
    }

    /// The present node gives its slice, if there is one.
    fn give_slice(&mut self, alloc: Global) -> Result<(), NoMemory>
        requires { IsEnded self.old.present }
        ensures { OnOk result (GivesSlice self.old self.new) }
    {
        let slice = match &self.present {
            None => return Ok(()),
            Some(rows) => {
                let operator = self.plan.nodes.get(self.slices.len()).operator;
                slice_given(alloc, self.run.order(), operator, rows)?
            }
        };
        self.slices.push(slice)?;
        self.present = None;
        Ok(())
    }

    /// The rows of the next node, before one is begun.
    fn next_rows(&self, alloc: Global) -> Result<CertifiedRows, NoMemory>
        requires { length self.now.slices < length self.now.plan.nodes }
        ensures { IfOk result (λ rows. rows ≡ fresh_rows (system_at self.now.order self.now.plan
            self.now.slices (length self.now.slices))) }
    {
        let node = self.plan.nodes.get(self.slices.len());
        let system = system_of(
            alloc,
            self.run.order(),
            &self.plan,
            &self.slices,
            &node.parts,
        )?;
        CertifiedRows::new(alloc, system)
    }
}
