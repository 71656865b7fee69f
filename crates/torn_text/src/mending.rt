//! Torn logs, each closed behind its last whole line.

ghost use Rattle.std.specs.Prelude.{◌≡◌, ◌++◌, ◌∷◌, [], IfOk, OnOk};
ghost use Rattle.event_log.specs.LogText.{text_of};
ghost use Rattle.torn_text.specs.Mending.{ending, begins_log, closing, mended, line_mended};
ghost use Rattle.torn_text.specs.Mending.{is_open_behind};

use event_log::split_line;
use pota_base::{Bytes, List, NoMemory};
use std::alloc::Global;

/// The bytes of `pota-log 1`.
const HEADING: usize = 10;

// The last bytes of a line, as many as the first line of a log has.
fn ending(line: &[u8]) -> &[u8]
    ensures { result.now ≡ ending line.now }
{
    &line[line.len().saturating_sub(HEADING)..]
}

// Whether a log begins in the line.
fn begins_log(line: &[u8]) -> bool
    ensures { result ≡ begins_log line.now }
{
    let last = ending(line);
    last == b"pota-log 1".as_slice() || last == b"pota-log 2".as_slice()
}

fn put_line(text: &mut Bytes, line: &[u8]) -> Result<(), NoMemory>
    ensures { OnOk result (text.new ≡ text.old ++ text_of (line.now ∷ [])) }
{
    text.extend_from_slice(line)?;
    text.push(b'\n')
}

// Closes a log, where one is open.
fn close(text: &mut Bytes, is_open: bool) -> Result<(), NoMemory>
    ensures { OnOk result (text.new ≡ text.old ++ text_of (closing is_open)) }
{
    if is_open {
        put_line(text, b"end")
    } else {
        Ok(())
    }
}

// Writes one line more, and tells whether a log is open behind it.
fn mend(text: &mut Bytes, is_open: bool, line: &[u8]) -> Result<bool, NoMemory>
    ensures text { OnOk result (text.new ≡ text.old ++ text_of (line_mended is_open line.now)) }
    ensures state { IfOk result (λ b. b ≡ is_open_behind is_open line.now) }
{
    if begins_log(line) {
        close(text, is_open)?;
        put_line(text, ending(line))?;
        Ok(true)
    } else {
        put_line(text, line)?;
        Ok(is_open && line != b"end".as_slice())
    }
}

/// The texts of logs one behind another, each torn one closed behind its last whole line.
pub fn mended(alloc: Global, bytes: &[u8]) -> Result<Bytes, NoMemory>
    ensures { IfOk result (λ text. text ≡ mended bytes.now) }
{
    let mut text = List::new(alloc);
    let mut is_open = false;
    let mut rest = bytes;
    'lines: while let Some((line, behind)) = split_line(rest) {
        is_open = mend(&mut text, is_open, line)?;
        rest = behind;
    }
    close(&mut text, is_open)?;
    Ok(text)
}
