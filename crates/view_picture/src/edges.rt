//! The edges of a slice.
ghost use Rattle.std.specs.Prelude.{◌≡◌, ◌+◌, ◌<◌, ◌^◌, ◌++◌, take, OnOk};
ghost use Rattle.std.specs.List.{flat_map};
ghost use Rattle.view_picture.specs.Drawing.{spot, bow, edge_drawn};
ghost use Rattle.view_picture.specs.Told.{most_edges};

use crate::columns::Columns;
use crate::frame::Frame;
use crate::svg::Point;
use crate::told::MOST_EDGES;
use pota_base::{Bytes, NoMemory, put_u64};
use slice_graph::Edge;

// Appends ` X Y`.
fn put_spot(out: &mut Bytes, point: Point) -> Result<(), NoMemory>
    ensures { OnOk result (out.new ≡ out.old ++ spot point) }
{
    out.push(b' ')?;
    put_u64(out, point.x)?;
    out.push(b' ')?;
    put_u64(out, point.y)
}

// The point that draws a bow between two points upwards.
fn bow(from: Point, to: Point) -> Point
    ensures { result ≡ bow from to }
{
    Point {
        x: from.x / 2 + to.x / 2,
        y: (from.y / 2 + to.y / 2).saturating_sub(36),
    }
}

// Appends an edge, from its cause to its effect.
fn put_edge(out: &mut Bytes, columns: &Columns, frame: &Frame, edge: Edge) -> Result<(), NoMemory>
    ensures { OnOk result (out.new ≡ out.old ++ edge_drawn frame.now columns.now edge) }
{
    let from = frame.at(columns, edge.cause);
    let to = frame.at(columns, edge.effect);
    out.extend_from_slice(b"<path d='M")?;
    put_spot(out, from)?;
    out.extend_from_slice(b" Q")?;
    put_spot(out, bow(from, to))?;
    put_spot(out, to)?;
    out.extend_from_slice(
        b"' fill='none' stroke='#7a3db8' stroke-dasharray='5 4' marker-end='url(#edge)'/>\n",
    )
}

/// Appends the first edges of a slice.
pub fn put_edges(
    out: &mut Bytes,
    columns: &Columns,
    frame: &Frame,
    edges: &[Edge],
) -> Result<(), NoMemory>
    ensures { OnOk result (out.new ≡ out.old
        ++ flat_map (edge_drawn frame.now columns.now) (take most_edges edges.now)) }
{
    let shown = &edges[..MOST_EDGES.min(edges.len())];
    for edge in shown {
        put_edge(out, columns, frame, *edge)?;
    }
    Ok(())
}
