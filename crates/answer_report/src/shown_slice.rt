//! The text of the slice that a report shows.
ghost use Rattle.std.specs.Prelude.{◌≡◌, IfOk, IfSome, option_map};
ghost use Rattle.run_model.specs.Cut.{lengths};
ghost use Rattle.run_model.specs.Slice.{Cuts, IsTextOf};
ghost use Rattle.slice_graph.specs.Views.{slice_of, joined_rows};
ghost use Rattle.slice_graph.specs.Fitting.{FitsOrder};
ghost use Rattle.report.specs.Spelling.{SliceFits};
ghost use Rattle.run_report.specs.Reports.{text_seen};
ghost use Rattle.answer_report.specs.inside.Showing.{IsSliceTold};

use crate::copies::cut_of;
use causal_order::Order;
use cut_lattice::Cut;
use pota_base::NoMemory;
use report::SliceText;
use slice_graph::Slice;
use std::alloc::Global;

/// The least and the greatest cut of a slice, and none of an empty one.
fn bounds_of(alloc: Global, order: &Order, slice: &Slice) -> Result<Option<(Cut, Cut)>, NoMemory>
    requires { FitsOrder order.now slice.now }
    ensures { IfOk result (λ bounds. bounds
        ≡ option_map (λ low. (low, joined_rows slice.now)) (slice_of slice.now).bottom) }
{
    // By its clause the clocks are those of an order.
    let _shape = order.shape();
    let (Some(low), Some(high)) = (slice.bottom(), slice.top()) else {
        return Ok(None);
    };
    Ok(Some((cut_of(alloc, low)?, cut_of(alloc, high)?)))
}

/// The text of a slice.
fn slice_text(alloc: Global, order: &Order, slice: &Slice) -> Result<SliceText, NoMemory>
    requires { FitsOrder order.now slice.now }
    ensures text { IfOk result (λ text.
        IsTextOf order.now (Cuts order.now (slice_of slice.now)) (text_seen text)) }
    ensures fits { IfOk result (SliceFits (lengths order.now)) }
{
    let bounds = bounds_of(alloc, order, slice)?;
    let edges = slice.edges(alloc, order)?;
    Ok(SliceText { bounds, edges })
}

/// The text of a slice where it is wanted.
pub fn slice_told(
    alloc: Global,
    order: &Order,
    slice: &Slice,
    wanted: bool,
) -> Result<Option<SliceText>, NoMemory>
    requires { FitsOrder order.now slice.now }
    ensures told { IfOk result (IsSliceTold wanted order.now slice.now) }
    ensures fits { IfOk result (λ told. IfSome told (SliceFits (lengths order.now))) }
{
    if !wanted {
        return Ok(None);
    }
    Ok(Some(slice_text(alloc, order, slice)?))
}
