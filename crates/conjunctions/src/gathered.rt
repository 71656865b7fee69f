//! What the parts of a conjunction ask of its cuts.
ghost use Rattle.std.specs.Prelude.{◌≡◌, ◌++◌, [], None, false, All, IfOk, OnOk, true};
ghost use Rattle.std.specs.Option.{option_or};
ghost use Rattle.run_model.specs.Cut.{Clocks};
ghost use Rattle.pull_system.specs.System.{IsPull};
ghost use Rattle.pull_fans.specs.Fans.{pulls_of_fans};
ghost use Rattle.slice_graph.specs.Views.{HasAllRows};
ghost use Rattle.slice_graph.specs.Fitting.{FitsOrder};
ghost use Rattle.slice_graph.specs.PullLists.{pulls_of_slice};
ghost use Rattle.rctl_parts.specs.Pieces.{pieces_of};
ghost use Rattle.conjunctions.specs.inside.Numbering.{gives_order};
ghost use Rattle.conjunctions.specs.inside.Gathering.{first_pulls};
ghost use Rattle.conjunctions.specs.inside.Asked.{asked_pulls};
ghost use Rattle.conjunctions.specs.inside.Beginning.{GatheredFits};

use crate::kinds::{are_atoms, give_order};
use causal_order::Order;
use pota_base::{List, NoMemory, Shape};
use pull_fans::Fan;
use pull_system::{Floor, Pull, Rows};
use rctl_parts::Part;
use slice_graph::{Slice, order_rows};
use std::alloc::Global;
use std::marker::Model;
use std::snapshot::Snapshot;

/// The fans of a conjunction's parts, and whether a part gives the order. If none does, the order's
/// pulls come before them.
#[derive(Debug, Drop)]
pub struct Asked {
    pub has_order: bool,
    pub fans: List<Fan>,
}

/// The rows from which a conjunction may begin: those of a slice that asked before all others, and
/// else the floor.
#[derive(Drop)]
pub struct FirstRows {
    pub own: Option<Rows>,
    pub floor: Option<Floor>,
    /// Whether the slice asks alone.
    pub alone: bool,
}

/// What the parts so far ask of cuts. Contracts see the pulls, those of the order first where the
/// conjunction begins with them, the floor, and whether one slice asks alone.
#[derive(Drop)]
pub struct Gathered {
    /// The order of the trace, for contracts alone.
    order: Snapshot<Order>,
    /// Whether a part gives the order. If none does, the conjunction begins with the order's pulls.
    has_order: bool,
    /// What the parts ask.
    fans: List<Fan>,
    /// Rows from which the conjunction may begin: the clocks, or the rows of the first slice of an
    /// operator, but where that asked before all others.
    floor: Option<Floor>,
    /// The rows of a slice that asked before all others.
    own: Option<Rows>,
    /// Whether that slice asks alone, so that these rows, its own, are the least already.
    alone: bool,
    /// The slice, where it asks alone: it is the conjunction's.
    slice: Option<Slice>,
}

impl Model for Gathered {
    ghost use Rattle.std.specs.Prelude.{◌++◌};
    ghost use Rattle.std.specs.Option.{option_or};
    ghost use Rattle.pull_fans.specs.Fans.{pulls_of_fans};
    ghost use Rattle.conjunctions.specs.inside.Beginning.{GatheredView};
    ghost use Rattle.conjunctions.specs.inside.Gathering.{first_pulls};

    ghost Value = { GatheredView };

    ghost view = { λ gathered. record {
      order = gathered.order.value;
      pulls = first_pulls gathered.order.value gathered.has_order ++ pulls_of_fans gathered.fans;
      floor = option_or gathered.own gathered.floor;
      alone = gathered.alone;
      slice = gathered.slice;
    } };
}

impl Gathered {
    /// What a conjunction of these parts begins with: nothing where a part gives the order, and
    /// else the pulls of the order. The clocks are the rows to begin from, but where all parts are
    /// atoms: these have rows of their own.
    pub fn new(alloc: Global, order: &Order, parts: &[Part]) -> Result<Gathered, NoMemory>
        ensures order { IfOk result (λ gathered. gathered.order ≡ order.now) }
        ensures pulls { IfOk result (λ gathered. gathered.pulls
            ≡ first_pulls order.now (gives_order (pieces_of parts.now))) }
        ensures floor { IfOk result (GatheredFits order.now) }
    {
        let has_order = give_order(parts);
        let floor = if has_order || are_atoms(parts) {
            None
        } else {
            Some(order_rows(alloc, order)?)
        };
        Ok(Gathered {
            order: Snapshot::of(order),
            has_order,
            fans: List::new(alloc),
            floor,
            own: None,
            alone: false,
            slice: None,
        })
    }

    /// Puts pulls behind the others.
    pub fn add_pulls(
        &mut self,
        alloc: Global,
        shape: &Shape,
        added: &[Pull],
    ) -> Result<(), NoMemory>
        requires { All (IsPull shape.now) added.now }
        ensures pulls { OnOk result (self.new.pulls ≡ self.old.pulls ++ added.now) }
        ensures order { self.new.order ≡ self.old.order }
        ensures floor { self.new.floor ≡ self.old.floor }
        ensures alone { self.new.alone ≡ false }
        ensures slice { self.new.slice ≡ None }
    {
        // By its clause the lengths are those of a shape.
        let _procs = shape.procs();
        self.asks_with_others();
        for pull in added {
            self.fans.push(Fan::of_pull(alloc, pull)?)?;
        }
        Ok(())
    }

    /// Puts the pulls of an operator's slice behind the others, and keeps the rows of the first
    /// such slice. Where nothing was asked before, the slice asks alone, and they are kept in 16
    /// bits.
    pub fn add_slice(&mut self, alloc: Global, slice: &Slice) -> Result<(), NoMemory>
        ensures order { self.new.order ≡ self.old.order }
        ensures pulls { OnOk result (self.new.pulls ≡ self.old.pulls ++ pulls_of_slice slice.now) }
        ensures alone { OnOk result
            (self.new.alone ≡ true → self.new.pulls ≡ pulls_of_slice slice.now) }
        ensures floor { (o : Clocks) → FitsOrder o slice.now → GatheredFits o self.old
            → OnOk result (GatheredFits o self.new) }
        ensures rows { HasAllRows slice.now }
    {
        // By its clause the slice has all its rows.
        let _shape = slice.shape();
        let alone = self.asks_nothing();
        self.add_fans(slice.fans(alloc)?)?;
        self.alone = alone;
        if alone {
            self.own = Some(slice.narrow_rows(alloc)?);
            return Ok(());
        }
        if !self.has_rows() {
            self.floor = Some(slice.rows(alloc)?);
        }
        Ok(())
    }

    /// Keeps the slice that was added last, where it asks alone.
    pub fn keep(&mut self, slice: Slice)
        ensures order { self.new.order ≡ self.old.order }
        ensures pulls { self.new.pulls ≡ self.old.pulls }
        ensures floor { self.new.floor ≡ self.old.floor }
        ensures same { self.new.alone ≡ self.old.alone }
        ensures alone { self.old.alone ≡ true → self.new.slice ≡ Some slice }
        ensures others { self.old.alone ≡ false → self.new.slice ≡ self.old.slice }
    {
        if self.alone {
            self.slice = Some(slice);
        }
    }

    /// Puts fans behind the others.
    pub fn add_fans(&mut self, added: List<Fan>) -> Result<(), NoMemory>
        ensures pulls { OnOk result (self.new.pulls ≡ self.old.pulls ++ pulls_of_fans added) }
        ensures order { self.new.order ≡ self.old.order }
        ensures floor { self.new.floor ≡ self.old.floor }
        ensures alone { self.new.alone ≡ false }
        ensures slice { self.new.slice ≡ None }
    {
        self.asks_with_others();
        for fan in added.into_vec() {
            self.fans.push(fan)?;
        }
        Ok(())
    }

    /// No slice asks alone from now on.
    fn asks_with_others(&mut self)
        ensures pulls { self.new.pulls ≡ self.old.pulls }
        ensures order { self.new.order ≡ self.old.order }
        ensures floor { self.new.floor ≡ self.old.floor }
        ensures alone { self.new.alone ≡ false }
        ensures slice { self.new.slice ≡ None }
    {
        self.alone = false;
        self.slice = None;
    }

    /// Whether no part has asked yet.
    fn asks_nothing(&self) -> bool
        ensures pulls { result ≡ true → self.now.pulls ≡ [] }
        ensures floor { result ≡ true → self.now.floor ≡ None }
    {
        self.has_order && !self.has_rows() && self.fans.is_empty()
    }

    /// Whether there are rows to begin from.
    fn has_rows(&self) -> bool
        ensures { result ≡ false → self.now.floor ≡ None }
    {
        self.own.is_some() || self.floor.is_some()
    }

    /// What is asked, the rows to begin from, and the slice that asks alone.
    pub fn into_asked(self) -> (Asked, FirstRows, Option<Slice>)
        ensures pulls { self.pulls ≡ asked_pulls self.order result.0 }
        ensures rows { option_or result.1.own result.1.floor ≡ self.floor }
        ensures alone { result.1.alone ≡ self.alone }
        ensures slice { result.2 ≡ self.slice }
    {
        let Gathered {
            order,
            has_order,
            fans,
            floor,
            own,
            alone,
            slice,
        } = self;
        drop(order);
        let first = FirstRows { own, floor, alone };
        (Asked { has_order, fans }, first, slice)
    }
}
