//! Where everything stands in the picture.
ghost use Rattle.std.specs.Prelude.{◌≡◌, ◌<◌, ◌≤◌, ◌^◌};
ghost use Rattle.pota_base.specs.Limits.{longest_name};

use crate::columns::Columns;
use crate::svg::Point;
use event_log::States;
use pota_base::{EventId, LONGEST_CANONICAL, LONGEST_NAME};
use pota_names::Name;
use report::Report;

/// The first lane is so far from the top.
const TOP: u64 = 150;
/// Lanes are so far from each other.
const LANE: u64 = 96;
/// What is told below the lanes is so high.
const LEGEND: u64 = 120;
/// The least width, in which there is room for what is told below the lanes.
const LEAST_WIDTH: u64 = 560;
/// Up to so many columns each is wide, with room for long assignments of its events.
const MANY_COLUMNS: u32 = 60;

const WIDE: u64 = 78;

const NARROW: u64 = 48;

/// The measures of a picture.
#[derive(Clone, Copy, Debug, PartialEq, Eq)]
pub struct Frame {
    /// Where the lanes begin.
    pub left: u32,
    /// Whether columns are wide, so that there is room for long assignments of their events.
    pub wide: bool,
    pub width: u64,
    pub height: u64,
}

impl Frame {
    ghost use Rattle.view_picture.specs.Frame.{longest, column_at, frame_of, lane, behind, at};

    // How many bytes the longest of the names has, at most what a name may have.
    fn longest(names: &[Name]) -> usize
        ensures longest { result ≡ longest names.now }
        ensures most { result ≤ longest_name }
    {
        let mut most = 0usize;
        for name in names {
            most = most.max(name.as_bytes().len());
        }
        most.min(LONGEST_NAME)
    }

    /// The line of a process. Processes that have a shown event have theirs one below the other.
    pub fn lane(columns: &Columns, process: u32) -> u64
        ensures lane { result ≡ lane columns.now process }
        ensures high { result < 2 ^ 40 }
    {
        TOP + LANE * u64::from(columns.rank(process))
    }

    // Where a column is.
    fn column_at(left: u32, wide: bool, column: u32) -> u64
        ensures at { result ≡ column_at left wide column }
        ensures near { result < 2 ^ 40 }
    {
        if wide {
            return u64::from(left) + WIDE * u64::from(column);
        }
        u64::from(left) + NARROW * u64::from(column)
    }

    /// The measures of the picture of a run.
    pub fn new(states: &States, columns: &Columns, report: &Report) -> Frame
        ensures { result ≡ frame_of states.now columns.now report.now }
    {
        let procs = states.header().procs.as_slice();
        let most = columns.most();
        let left = 40 + 9 * Frame::longest(procs) as u32;
        let wide = most <= MANY_COLUMNS;
        let heading = 40 + 9 * report.formula.len().min(LONGEST_CANONICAL) as u64;
        Frame {
            left,
            wide,
            width: (Frame::column_at(left, wide, most) + 60)
                .max(heading)
                .max(LEAST_WIDTH),
            height: TOP + LANE * columns.count() + LEGEND,
        }
    }

    /// Where the last of so many events of a process stands, and where its lane begins before the
    /// first.
    pub fn behind(&self, columns: &Columns, process: u32, events: u32) -> Point
        ensures point { result ≡ behind self.now columns.now process events }
        ensures near { result.x < 2 ^ 40 }
        ensures high { result.y < 2 ^ 40 }
    {
        Point {
            x: Frame::column_at(self.left, self.wide, columns.at(process, events)),
            y: Frame::lane(columns, process),
        }
    }

    /// Where an event stands.
    pub fn at(&self, columns: &Columns, event: EventId) -> Point
        ensures point { result ≡ at self.now columns.now event }
        ensures near { result.x < 2 ^ 40 }
        ensures high { result.y < 2 ^ 40 }
    {
        self.behind(columns, event.process, event.position)
    }
}
