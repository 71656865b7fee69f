//! The host lines of a text, one after the other.

ghost use Rattle.std.specs.Prelude.{◌≡◌, ◌+◌, ◌≤◌, true, length, option_map, IfSome, IfNone, not};
ghost use Rattle.pota_base.specs.Limits.{longest_kept};
ghost use Rattle.vclog_import.specs.Lines.{is_passed, parted, record_in};
ghost use Rattle.vclog_import.specs.Faults.{is_too_long, judged, judged_lines, last_line};
ghost use Rattle.vclog_import.specs.Lines.{is_due_behind};

use event_log::split_line;
use memchr::memchr;
use pota_base::LONGEST_LOG;

/// The parts of the first line of a record, and its number, counted from 1.
#[derive(Clone, Copy, Debug)]
pub struct HostLine<'a> {
    pub line: u32,
    /// The bytes before the first space. There are none where there is no space.
    pub host: &'a [u8],
    /// The bytes behind that space.
    pub clock: &'a [u8],
}

/// What is left of a text.
#[derive(Debug, Drop)]
pub struct HostLines<'a> {
    pub rest: &'a [u8],
    /// The number of the line that begins there.
    pub line: u32,
    /// Whether a last line without a line feed counts.
    pub unfinished: bool,
    /// Whether a host line is due, or else a description.
    pub is_due: bool,
    ghost room: { line + length rest.now ≤ longest_kept },
}

// Whether the line is none where a host line is due.
fn is_passed(line: &[u8]) -> bool
    ensures { result ≡ is_passed line.now }
{
    match line {
        [] => true,
        [b'\r'] => true,
        [first, ..] => *first == b'(',
    }
}

// The bytes before the first space, and those behind it.
fn parted(line: &[u8]) -> Option<(&[u8], &[u8])>
    ensures { option_map (λ x. (x.0.now, x.1.now)) result ≡ parted line.now }
{
    let end = memchr(b' ', line)?;
    Some((&line[..end], &line[end + 1..]))
}

impl<'a> HostLine<'a> {
    ghost use Rattle.vclog_import.specs.inside.Reading.{record_of};

    // The host line of this number.
    fn of(line: u32, bytes: &'a [u8]) -> HostLine<'a>
        ensures { record_of result ≡ record_in line bytes.now }
    {
        match parted(bytes) {
            Some((host, clock)) => HostLine { line, host, clock },
            None => HostLine {
                line,
                host: &[],
                clock: &[],
            },
        }
    }
}

impl<'a> HostLines<'a> {
    ghost use Rattle.vclog_import.specs.inside.Reading.{record_of, left, lines_left, line_at_end};
    ghost use Rattle.vclog_import.specs.inside.Reading.{TakesLine, EndsLines, Gives, Ends};

    /// Those of the text; of a text that is too long, those before the byte that is too much.
    pub fn new(text: &'a [u8]) -> HostLines<'a>
        ensures left { left result ≡ judged text.now }
        ensures lines { lines_left result ≡ judged_lines text.now }
        ensures due { result.is_due ≡ true }
        ensures line { line_at_end result ≡ last_line text.now }
        ensures unfinished { result.unfinished ≡ not (is_too_long text.now) }
    {
        HostLines {
            rest: &text[..text.len().min(LONGEST_LOG)],
            line: 1,
            unfinished: text.len() <= LONGEST_LOG,
            is_due: true,
        }
    }

    // The next line.
    fn next_line(&mut self) -> Option<&'a [u8]>
        ensures some { IfSome result (λ line. TakesLine self.old self.new line.now) }
        ensures none { IfNone result (EndsLines self.old self.new) }
    {
        match split_line(self.rest) {
            Some((line, rest)) => {
                self.rest = rest;
                self.line += 1;
                Some(line)
            }
            None => {
                let line = self.rest;
                self.rest = &[];
                if self.unfinished && !line.is_empty() {
                    Some(line)
                } else {
                    None
                }
            }
        }
    }

    /// The next host line.
    pub fn next(&mut self) -> Option<HostLine<'a>>
        ensures some { IfSome result (λ line. Gives self.old self.new (record_of line)) }
        ensures none { IfNone result (Ends self.old self.new) }
    {
        'lines: loop {
            let number = self.line;
            let line = self.next_line()?;
            if !self.is_due {
                self.is_due = true;
            } else if !is_passed(line) {
                self.is_due = false;
                return Some(HostLine::of(number, line));
            }
        }
    }
}
