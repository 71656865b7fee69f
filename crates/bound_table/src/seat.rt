//! What a caller of the table holds, and the rule that each of its steps keeps.
ghost use Rattle.bound_table.specs.inside.Rule.{BoundsHold, opened, nobody, together, Looked};
ghost use Rattle.bound_table.specs.inside.Rule.{Lifted, begun_words};

use crate::firm::Firm;
use atomic_table::{Join, Play, Split, TableRule};
use process_claims::Claimer;
use pull_fans::System;
use pull_system::{Floor, Rows};
use std::collections::LinkedList;
use std::marker::Model;
use std::snapshot::Snapshot;

/// What a table begins with: words that callers share, or rows that are its system's own.
#[derive(Drop)]
pub(crate) enum Begins {
    Shared(Snapshot<Floor>),
    Own(Snapshot<Rows>),
}

/// What the table is told once.
#[derive(Drop)]
pub(crate) struct Key {
    pub(crate) system: Snapshot<System>,
    pub(crate) firm: Snapshot<Firm>,
    pub(crate) begins: Begins,
}

/// What a seat knows: the system, the words that the table began with, which of its rows are firm,
/// and a floor for each word. No value of it is made.
pub(crate) struct SeenBounds {
    live: bool,
    system: System,
    begun: LinkedList<u64>,
    firm: Firm,
    floor: LinkedList<u64>,
}

/// A caller's hold on a table. Contracts see its table and, row by row, a floor for each word,
/// which the word has reached; and the processes that it claims, and those that it saw taken.
///
/// The floors lie between the starts of the rows and their least closed vectors. They take no
/// bytes: a running program learns the floors of a row by `BoundTable::look` or
/// `BoundTable::settle`.
#[derive(Drop)]
pub struct Seat {
    pub(crate) token: atomic_table::Seat<(), SeenBounds>,
    pub(crate) claimer: Claimer,
}

impl Model for Seat {
    ghost use Rattle.std.specs.Prelude.{◌≡◌, []};
    ghost use Rattle.bound_table.specs.Views.{SeatView};
    ghost use Rattle.bound_table.specs.inside.Rule.{IsSound};

    ghost Value = { SeatView };

    ghost view = { λ seat. record {
      table = record {
        id = seat.token.table_id;
        claims = seat.claimer.table;
        system = seat.token.me.0.system;
        begun = seat.token.me.0.begun;
        firm = seat.token.me.0.firm;
      };
      floor = seat.token.me.0.floor;
      claims = seat.claimer.claims;
      marks = seat.claimer.marks;
    } };

    ghost invariant = { λ seat. IsSound seat.token.me.0 × (seat.token.me.1 ≡ []) };
}

impl Seat {
    ghost use Rattle.raise_machine.specs.Bounds.{AreBounds};

    /// Does nothing. It tells contracts that the floors lie between the starts of the rows and
    /// their least closed vectors.
    pub fn bounds(&self)
        ensures { AreBounds self.now.table.system self.now.floor }
    {
        // The look opens the seat, whose bounds the clause tells.
        let _ = &self.token;
    }
}

pub(crate) struct Bounded;

impl TableRule<(), SeenBounds, Key> for Bounded {
    ghost holds = { λ key. BoundsHold key.begins key.system.value };

    ghost first = { λ key. opened key.system.value key.firm.value (begun_words key.begins) };
}

/// A load.
pub(crate) struct Looks;

impl Play<(), SeenBounds> for Looks {
    ghost then = { Looked };
}

/// A raise.
pub(crate) struct Lifts;

impl Play<(), SeenBounds> for Lifts {
    ghost then = { Lifted };
}

/// A second seat that knows the same.
pub(crate) struct Twins;

impl Split<SeenBounds> for Twins {
    ghost left = { λ v. v };

    ghost right = { λ v. v };
}

/// One seat that knows what both knew.
pub(crate) struct Meets;

impl Join<SeenBounds> for Meets {
    ghost both = { together };

    ghost spent = { nobody };
}
