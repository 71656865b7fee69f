//! Events whose row is not their past, and events with one row.

ghost use Rattle.std.specs.Prelude.{◌≡◌, ◌<◌, ◌↔◌, length, IsTrue};
ghost use Rattle.pota_base.specs.Shape.{HasEvent};
ghost use Rattle.run_model.specs.Cut.{IsWithin, lengths};
ghost use Rattle.run_model.specs.Witness.{Departs, Shares};
ghost use Rattle.slice_graph.specs.Views.{slice_of};
ghost use Rattle.witness.specs.Views.{place_of};
ghost use Rattle.witness.specs.inside.Twins.{HasLaterTwin, LastHas, IsOperand, HasFinal};

use crate::search::EventTest;
use causal_order::Order;
use pota_base::EventId;
use slice_graph::Slice;

/// Whether an event's row is absent or is not its past.
#[derive(Clone, Copy)]
pub struct Departing<'a> {
    pub order: &'a Order,
    pub slice: &'a Slice,
}

impl EventTest for Departing<'_> {
    ghost holds = { λ t e. Departs t.order.now (slice_of t.slice.now) e };

    ghost ready = { λ t e. IsOperand t.order.now t.slice.now × HasEvent (lengths t.order.now) e };

    fn test(&self, event: EventId) -> bool {
        if self.slice.words(event.process, event.position) == self.order.clock(event) {
            return false;
        }
        true
    }
}

/// Whether a later event has an event's row.
#[derive(Clone, Copy)]
pub struct HasLater<'a> {
    pub order: &'a Order,
    pub slice: &'a Slice,
}

// Whether a row has an event of the process, and the row of the last such one has the event.
fn last_has(slice: &Slice, row: &[u32], process: u32, event: EventId) -> bool
    requires process { process < length slice.now.lens }
    requires width { length row.now ≡ length slice.now.lens }
    requires within { IsWithin row.now slice.now.lens }
    requires event { event.process < length slice.now.lens }
    ensures { IsTrue result ↔ LastHas slice.now row.now process (place_of event) }
{
    let position = row[process as usize];
    if position == 0 {
        return false;
    }
    slice.words(process, position)[event.process as usize] >= event.position
}

impl EventTest for HasLater<'_> {
    ghost holds = { λ t e. HasLaterTwin t.order.now (slice_of t.slice.now) e };

    ghost ready = { λ t e. HasFinal t.order.now t.slice.now × HasEvent (lengths t.order.now) e };

    // A row has the last event of each process that shares it.
    fn test(&self, event: EventId) -> bool {
        let row = self.slice.words(event.process, event.position);
        if row[event.process as usize] > event.position {
            return true;
        }
        'later: for process in event.process + 1..row.len() as u32 {
            if last_has(self.slice, row, process, event) {
                return true;
            }
        }
        false
    }
}

/// Whether another event has the row of this one.
#[derive(Clone, Copy)]
pub struct Twin<'a> {
    pub order: &'a Order,
    pub slice: &'a Slice,
    pub event: EventId,
}

impl EventTest for Twin<'_> {
    ghost holds = { λ t e. Shares (slice_of t.slice.now) (place_of t.event) e };

    ghost ready = { λ t e. IsOperand t.order.now t.slice.now
        × HasEvent (lengths t.order.now) t.event × HasEvent (lengths t.order.now) e };

    fn test(&self, event: EventId) -> bool {
        if event == self.event {
            return false;
        }
        let row = self.slice.words(self.event.process, self.event.position);
        self.slice.words(event.process, event.position) == row
    }
}
