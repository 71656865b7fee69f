//! Where the events of one process stand, and its state after each of them.
ghost use Rattle.std.specs.Prelude.{◌≡◌, pos, ◌+◌, ◌-◌, ◌*◌, ◌<◌, ◌≤◌, [], ◌++◌, length, map, take};
ghost use Rattle.std.specs.Prelude.{drop, get_or, slice_index, IfOk, OnOk, OnErr};
ghost use Rattle.std.specs.List.{AllByRecursion};
ghost use Rattle.run_model.specs.Run.{assigned};
ghost use Rattle.event_log.specs.declared.log.Assign.{Assign};
ghost use Rattle.event_log.specs.declared.log.Binding.{Binding};
ghost use Rattle.event_log.specs.States.{assignment_of};
ghost use Rattle.event_log.specs.inside.Places.{PlacedHistory, with_place, first_of};

use crate::log::{Assign, Binding};
use pota_base::NoMemory;
use std::alloc::Global;
use std::marker::Model;

/// The events of one process in their order, by their places among the events of all processes,
/// and the values of its variables after each of them.
#[derive(Debug, Drop)]
pub struct History {
    /// How many variables the process has.
    width: usize,
    /// The place of each event in the list of all events, counted from 0.
    places: Vec<u32>,
    /// One row of `width` values for each state, the opening state first.
    values: Vec<i64>,
}

impl Model for History {
    ghost use Rattle.event_log.specs.inside.Places.{PlacedHistory, HasRows};

    ghost Value = { PlacedHistory };

    ghost view = { λ h. record {
      width = h.width;
      places = h.places.items;
      values = h.values.items;
    } };

    ghost invariant = { λ h. HasRows h.width h.places.items h.values.items };
}

// The state after the last one in the rows of `width` values, under these assignments, as one more
// row.
fn push_state(values: &mut Vec<i64>, width: usize, assigns: &[Assign]) -> Result<(), NoMemory>
    requires last { width ≤ length values.old.items }
    requires within { AllByRecursion (λ (a : Assign). a.variable < width) assigns.now }
    ensures ok { OnOk result (values.new.items ≡ values.old.items ++ assigned
        (drop (length values.old.items - width) values.old.items) (map assignment_of assigns.now)) }
    ensures err { OnErr result (take (length values.old.items) values.new.items
        ≡ values.old.items) }
{
    let next = values.len();
    for i in next - width..next {
        let value = values[i];
        values.push(value)?;
    }
    for assign in assigns {
        values[next + assign.variable as usize] = assign.value;
    }
    Ok(())
}

impl History {
    /// The history of a process with these variables, without events.
    pub fn new(alloc: Global, variables: &[Binding]) -> Result<History, NoMemory>
        ensures { IfOk result (λ h. h ≡ record {
          width = length variables.now;
          places = [];
          values = map (λ (b : Binding). b.value) variables.now;
        }) }
    {
        let mut values = Vec::new(alloc);
        for variable in variables {
            values.push(variable.value)?;
        }
        Ok(History {
            width: variables.len(),
            places: Vec::new(alloc),
            values,
        })
    }

    /// How many events it has.
    pub fn len(&self) -> usize
        ensures { result ≡ length self.now.places }
    {
        self.places.len()
    }

    /// The value of a variable after so many events.
    pub fn value(&self, position: usize, variable: usize) -> i64
        requires state { position ≤ length self.now.places }
        requires there { variable < self.now.width }
        ensures { result ≡ get_or self.now.values (position * self.now.width + variable) (pos 0) }
    {
        self.values[position * self.width + variable]
    }

    /// The values of all variables after so many events, in the order of the variables.
    pub fn state(&self, position: usize) -> &[i64]
        requires { position ≤ length self.now.places }
        ensures { result.now
            ≡ take self.now.width (drop (position * self.now.width) self.now.values) }
    {
        let start = position * self.width;
        &self.values[start..start + self.width]
    }

    /// Where the event at a position stands, the position counted from 1.
    pub fn place(&self, position: usize) -> usize
        requires first { 1 ≤ position }
        requires last { position ≤ length self.now.places }
        ensures { result ≡ slice_index self.now.places (position - 1) }
    {
        self.places[position - 1] as usize
    }

    /// Takes room for so many more events at once.
    pub fn reserve(&mut self, more: usize) -> Result<(), NoMemory>
        ensures { self.new ≡ self.old }
    {
        self.places.reserve(more)?;
        self.values.reserve(more.saturating_mul(self.width))?;
        Ok(())
    }

    /// Adds the event that stands at a place and assigns this. Without memory for it the history
    /// is as before.
    pub fn push(&mut self, place: u32, assigns: &[Assign]) -> Result<(), NoMemory>
        requires { AllByRecursion (λ (a : Assign). a.variable < self.old.width) assigns.now }
        ensures ok { OnOk result (self.new ≡ with_place self.old place assigns.now) }
        ensures err { OnErr result (self.new ≡ self.old) }
    {
        let rows = self.values.len();
        if push_state(&mut self.values, self.width, assigns).is_err() {
            self.values.truncate(rows);
            return Err(NoMemory);
        }
        if self.places.push(place).is_err() {
            self.values.truncate(rows);
            return Err(NoMemory);
        }
        Ok(())
    }

    /// Keeps the first `len` events.
    pub fn truncate(&mut self, len: usize)
        requires { len ≤ length self.old.places }
        ensures { self.new ≡ first_of self.old len }
    {
        self.places.truncate(len);
        self.values.truncate((len + 1) * self.width);
    }
}
