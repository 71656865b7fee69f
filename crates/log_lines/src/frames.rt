//! Clocks read by comparison with the last one of their process.
//!
//! Most clocks differ from the last one of their process in the process's own count alone. Such a
//! clock is the text of that one with another number in its place, so that its text is compared
//! and not read.

ghost use Rattle.std.specs.Prelude.{◌≡◌, ◌+◌, ◌^◌, ◌<◌, [], length, take, drop, set, IfOk, IfSome};
ghost use Rattle.std.specs.List.{AllByRecursion};
ghost use Rattle.std.specs.Fmt.{decimal};
ghost use Rattle.log_lines.specs.Spelling.{clock_rest, clock_text, event_clock_text};
ghost use Rattle.log_lines.specs.Reading.{clock_at, event_clock_at};
ghost use Rattle.log_lines.specs.Drafts.{Gives};
ghost use Rattle.log_lines.specs.inside.Frames.{FrameFits, clock_front};

use crate::counts::count_at;
use crate::draft::LineError;
use crate::values::event_clock_at;
use crate::words::text_at;
use pota_base::NoMemory;
use std::alloc::Global;

/// A clock that was read, and its text before and behind one of its counts.
#[derive(Debug, Drop)]
pub struct Frame {
    place: usize,
    counts: Vec<u32>,
    before: Vec<u8>,
    behind: Vec<u8>,
    ghost fits: { FrameFits place counts.items before.items behind.items },
}

/// For each process the frame of a clock of its events, where one was read.
#[derive(Debug, Drop)]
pub struct Frames {
    frames: Vec<Option<Frame>>,
}

// How many digits the number has.
fn width_of(number: u32) -> usize
    ensures { result ≡ length (decimal number) }
{
    let mut width = 1;
    let mut rest = number;
    while rest >= 10 {
        rest /= 10;
        width += 1;
    }
    width
}

// The text of a clock before and behind the count at this place.
fn split_text<'a>(place: usize, counts: &[u32], text: &'a [u8]) -> (&'a [u8], &'a [u8])
    requires there { place < length counts.now }
    requires small { AllByRecursion (λ n. n < 2 ^ 32) counts.now }
    requires spelled { text.now ≡ clock_text counts.now }
    ensures before { result.0.now ≡ clock_front (take place counts.now) }
    ensures behind { result.1.now ≡ clock_rest (drop (place + 1) counts.now) }
{
    let mut start = 0;
    for k in 0..place {
        start += width_of(counts[k]) + 1;
    }
    let (before, rest) = text.split_at(start);
    let (_own, behind) = rest.split_at(width_of(counts[place]));
    (before, behind)
}

// The memory of a frame that is not needed any more.
fn buffers(alloc: Global, frame: Option<Frame>) -> (Vec<u32>, Vec<u8>, Vec<u8>)
    ensures counts { result.0.items ≡ [] }
    ensures before { result.1.items ≡ [] }
    ensures behind { result.2.items ≡ [] }
{
    match frame {
        Some(frame) => {
            let Frame {
                mut counts,
                mut before,
                mut behind,
                ..
            } = frame;
            counts.clear();
            before.clear();
            behind.clear();
            (counts, before, behind)
        }
        None => (Vec::new(alloc), Vec::new(alloc), Vec::new(alloc)),
    }
}

impl Frame {
    // The frame of a clock and its text, in the memory of an old one.
    fn renewed(
        alloc: Global,
        old: Option<Frame>,
        place: usize,
        clock: &[u32],
        text: &[u8],
    ) -> Result<Frame, NoMemory>
        requires there { place < length clock.now }
        requires small { AllByRecursion (λ n. n < 2 ^ 32) clock.now }
        requires spelled { text.now ≡ clock_text clock.now }
    {
        let (front, end) = split_text(place, clock, text);
        let (mut counts, mut before, mut behind) = buffers(alloc, old);
        counts.extend_from_slice(clock)?;
        before.extend_from_slice(front)?;
        behind.extend_from_slice(end)?;
        Ok(Frame {
            place,
            counts,
            before,
            behind,
        })
    }

    // The own count of the clock at the front and the bytes behind the clock, where it differs in
    // that count alone.
    fn own_at<'a>(&self, bytes: &'a [u8]) -> Option<(u32, &'a [u8])>
        ensures { IfSome result (λ x. clock_at bytes.now
            ≡ Some (set self.now.counts.items self.now.place x.0, x.1.now)) }
    {
        let own = bytes.strip_prefix(self.before.as_slice())?;
        let (count, after) = count_at(own)?;
        let rest = after.strip_prefix(self.behind.as_slice())?;
        let action = text_at(b" ", rest)?;
        Some((count, rest))
    }

    // The clock at the front and the bytes behind it, where it differs in its own count alone.
    fn clock_at<'a>(
        &self,
        alloc: Global,
        bytes: &'a [u8],
    ) -> Result<Option<(Vec<u32>, &'a [u8])>, NoMemory>
        ensures { IfOk result (λ found. IfSome found (λ x. clock_at bytes.now
            ≡ Some (x.0.items, x.1.now))) }
    {
        let Some((count, rest)) = self.own_at(bytes) else {
            return Ok(None);
        };
        let mut clock = Vec::from_slice(alloc, &self.counts)?;
        clock[self.place] = count;
        Ok(Some((clock, rest)))
    }
}

impl Frames {
    /// The frames of no process. It takes no memory.
    pub fn new(alloc: Global) -> Frames {
        Frames {
            frames: Vec::new(alloc),
        }
    }

    /// The frames of so many processes, of whose clocks none was read.
    pub fn of(alloc: Global, count: usize) -> Result<Frames, NoMemory> {
        let mut frames = Vec::with_capacity(alloc, count)?;
        for _ in 0..count {
            frames.push(None)?;
        }
        Ok(Frames { frames })
    }

    // The clock at the front, where the process's last one shows it.
    fn known<'a>(
        &self,
        alloc: Global,
        process: usize,
        bytes: &'a [u8],
    ) -> Result<Option<(Vec<u32>, &'a [u8])>, NoMemory>
        ensures { IfOk result (λ found. IfSome found (λ x. clock_at bytes.now
            ≡ Some (x.0.items, x.1.now))) }
    {
        match self.frames.get(process) {
            Some(Some(frame)) => frame.clock_at(alloc, bytes),
            _ => Ok(None),
        }
    }

    // Keeps a clock that was read as its process's last one. One that was left out is passed over.
    fn keep(
        &mut self,
        alloc: Global,
        process: usize,
        clock: &[u32],
        text: &[u8],
    ) -> Result<(), NoMemory>
        requires small { AllByRecursion (λ n. n < 2 ^ 32) clock.now }
        requires spelled { text.now ≡ event_clock_text clock.now }
    {
        if process >= clock.len() || process >= self.frames.len() {
            return Ok(());
        }
        let old = self.frames[process].take();
        let frame = Frame::renewed(alloc, old, process, clock, text)?;
        self.frames[process] = Some(frame);
        Ok(())
    }

    /// The clock of an event of this process at the front, and the bytes behind it.
    pub fn clock_at<'a>(
        &mut self,
        alloc: Global,
        process: usize,
        bytes: &'a [u8],
    ) -> Result<(Vec<u32>, &'a [u8]), LineError>
        ensures { Gives (λ x. (x.0.items, x.1.now)) result (event_clock_at bytes.now) }
    {
        if let Some(found) = self.known(alloc, process, bytes)? {
            return Ok(found);
        }
        let (clock, rest) = event_clock_at(alloc, self.frames.len(), bytes)?;
        let text = &bytes[..bytes.len() - rest.len()];
        self.keep(alloc, process, &clock, text)?;
        Ok((clock, rest))
    }
}
