//! Of which processes a source has lines.

ghost use Rattle.std.specs.Prelude.{◌≡◌, ◌≤◌, length};
ghost use Rattle.pota_base.specs.Limits.{most_processes};
ghost use Rattle.log_merge.specs.declared.seen.Seen.TheVariants.{Nothing};
ghost use Rattle.log_merge.specs.Sources.{IsSource, seen_of, own_lines};
ghost use Rattle.log_merge.specs.inside.Sources.{seen_after};
ghost use Rattle.log_merge.specs.Sources.{own_vars_lines, own_event_lines, line_at, all_events};

use event_log::{Event, Log};
use pota_base::List;

/// The processes of the lines so far.
#[derive(Clone, Copy, Debug, PartialEq, Eq)]
pub enum Seen {
    Nothing,
    /// All lines are of this process. The first one is on this line.
    One { process: u32, line: u32 },
    /// This line is the first of another process than that of the first line.
    Two { line: u32 },
}

impl Seen {
    ghost use Rattle.log_merge.specs.inside.Sources.{seen_one};

    // One line more.
    fn and(self, process: u32, line: u32) -> Seen
        ensures { result ≡ seen_one self (record { process = process; line = line }) }
    {
        match self {
            Seen::Nothing => Seen::One { process, line },
            Seen::One { process: first, .. } => {
                if first == process {
                    self
                } else {
                    Seen::Two { line }
                }
            }
            Seen::Two { .. } => self,
        }
    }
}

// The processes of the `vars` lines, which the header notes.
fn seen_in_header(lines: &[u32]) -> Seen
    requires { length lines.now ≤ most_processes }
    ensures { result ≡ seen_after Nothing (own_vars_lines 0 lines.now) }
{
    let mut seen = Seen::Nothing;
    for i in 0..lines.len() {
        let line = lines[i];
        if line != 0 {
            seen = seen.and(i as u32, line);
        }
    }
    seen
}

// The processes of the lines so far, with those of these events.
fn seen_in_events(mut seen: Seen, events: &[Event]) -> Seen
    ensures { result ≡ seen_after seen (own_event_lines events.now) }
{
    for event in events {
        seen = seen.and(event.process, event.line);
    }
    seen
}

/// Of which processes the source has lines, be they `vars` or `ev` lines.
pub fn seen_in(source: &Log) -> Seen
    requires { length source.now.header.var_lines ≤ most_processes }
    ensures { result ≡ seen_of (own_lines source.now) }
{
    let mut seen = seen_in_header(source.header.var_lines.as_slice());
    for batch in source.batches.as_slice() {
        seen = seen_in_events(seen, batch.as_slice());
    }
    seen
}

/// The line of the event of this index among all events, counted from 0, if there is one.
pub fn line_at(batches: &[List<Event>], index: usize) -> Option<u32>
    ensures { result ≡ line_at index (all_events batches.now) }
{
    let mut left = index;
    for batch in batches {
        if left < batch.len() {
            return Some(batch.get(left).line);
        }
        left -= batch.len();
    }
    None
}
