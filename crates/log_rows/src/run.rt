//! The runs of a row, and what came out of them.
ghost use Rattle.std.specs.Prelude.{◌≡◌, ◌∷◌, ◌++◌, [], true, OnOk};
ghost use Rattle.pota_names.specs.Names.{is_name};
ghost use Rattle.log_check.specs.Aims.{names_of};

use crate::row::Row;
use ask_top::ask;
use one_log::write_one_log;
use pota_base::{MemSink, MemSource, NoMemory};
use pota_names::Name;
use std::alloc::{AllocError, Global};
use std::thread::Threads;
use watch::{Calm, Handed, Owing, Stable, Watch};

/// More than any row writes.
const ROOM: usize = 65_536;

/// What comes out of one run.
#[derive(Drop)]
struct Came {
    status: u8,
    out: Vec<u8>,
    diag: Vec<u8>,
}

// Want of memory, as the text of a verdict has it.
fn made<T>(answer: Result<T, NoMemory>) -> Result<T, AllocError> {
    match answer {
        Ok(value) => Ok(value),
        Err(_) => Err(AllocError),
    }
}

// Adds a watch under its name.
fn hand_in(
    alloc: Global,
    name: &[u8],
    watch: Box<dyn Watch + Send>,
    watches: &mut Vec<Handed>,
) -> Result<(), NoMemory>
    requires { is_name name.now ≡ true }
    ensures { OnOk result
        (names_of watches.new.items ≡ names_of watches.old.items ++ name.now ∷ []) }
{
    let Some(name) = Name::new(alloc, name)? else {
        unreachable!()
    };
    watches.push(Handed { name, watch })?;
    Ok(())
}

// The status of `pota_ask` with its watches.
fn status_asked<R: Threads + Sync>(
    rt: &R,
    alloc: Global,
    words: &[String],
    input: &mut MemSource,
    out: &mut MemSink,
    diag: &mut MemSink,
) -> Result<u8, NoMemory> {
    let mut watches = Vec::new(alloc);
    hand_in(
        alloc,
        b"stable",
        Box::new(alloc, Stable::new())?,
        &mut watches,
    )?;
    hand_in(
        alloc,
        b"owing",
        Box::new(alloc, Owing::new())?,
        &mut watches,
    )?;
    hand_in(alloc, b"calm", Box::new(alloc, Calm::new())?, &mut watches)?;
    let answer = ask(rt, alloc, words, watches, input, out, diag);
    Ok(answer.status())
}

// The status of the program of the row.
fn status<R: Threads + Sync>(
    rt: &R,
    alloc: Global,
    row: &Row,
    input: &mut MemSource,
    out: &mut MemSink,
    diag: &mut MemSink,
) -> Result<u8, NoMemory> {
    let words = row.words.as_slice();
    if row.asked {
        status_asked(rt, alloc, words, input, out, diag)
    } else {
        Ok(write_one_log(alloc, words, input, out, diag).status())
    }
}

// The calls that fail: each of the first, or none.
fn failing(fails: bool) -> &'static [u64] {
    if fails { &[1] } else { &[] }
}

// What comes out of the call of the row on the text, over such pieces.
fn run<R: Threads + Sync>(
    rt: &R,
    alloc: Global,
    row: &Row,
    text: &[u8],
    piece: usize,
) -> Result<Came, AllocError> {
    let (read, write) = row.fails;
    let most = piece.max(1);
    let mut input = made(MemSource::new(alloc, text, most, failing(read)))?;
    let mut out = made(MemSink::new(alloc, ROOM, most, failing(write)))?;
    let mut diag = made(MemSink::new(alloc, ROOM, usize::MAX, &[]))?;
    let status = made(status(rt, alloc, row, &mut input, &mut out, &mut diag))?;
    Ok(Came {
        status,
        out: out.held().to_vec(alloc)?,
        diag: diag.held().to_vec(alloc)?,
    })
}

// What comes out of a log that is written once more.
fn run_again(alloc: Global, text: &[u8], piece: usize) -> Result<Came, AllocError> {
    let most = piece.max(1);
    let mut input = made(MemSource::new(alloc, text, most, &[]))?;
    let mut out = made(MemSink::new(alloc, ROOM, most, &[]))?;
    let mut diag = made(MemSink::new(alloc, ROOM, usize::MAX, &[]))?;
    let logged = write_one_log(alloc, &[], &mut input, &mut out, &mut diag);
    Ok(Came {
        status: logged.status(),
        out: out.held().to_vec(alloc)?,
        diag: diag.held().to_vec(alloc)?,
    })
}

// What came out otherwise than it must, and this was to be told.
fn other(alloc: Global, row: &Row, diag: &[u8], came: &Came) -> Result<Option<String>, AllocError> {
    let said = if came.status != row.status {
        format!(in alloc; "status {}, not {}", came.status, row.status)?
    } else if came.out.as_slice() != row.out.as_slice() {
        let out = String::from_utf8_lossy(alloc, came.out.as_slice())?;
        format!(in alloc; "written {out:?}")?
    } else if came.diag.as_slice() != diag {
        let diag = String::from_utf8_lossy(alloc, came.diag.as_slice())?;
        format!(in alloc; "diag {diag:?}")?
    } else {
        return Ok(None);
    };
    Ok(Some(said))
}

// What comes out otherwise than it must of the text, over pieces of this size.
fn judge_over<R: Threads + Sync>(
    rt: &R,
    alloc: Global,
    row: &Row,
    text: &[u8],
    piece: usize,
) -> Result<Option<String>, AllocError> {
    let came = run(rt, alloc, row, text, piece)?;
    let said = other(alloc, row, row.diag.as_slice(), &came)?;
    if said.is_some() || row.status != 0 || row.asked {
        return Ok(said);
    }
    let again = run_again(alloc, came.out.as_slice(), piece)?;
    match other(alloc, row, &[], &again)? {
        Some(said) => Ok(Some(format!(in alloc; "written again: {said}")?)),
        None => Ok(None),
    }
}

// Over pieces of each size.
fn judge_whole<R: Threads + Sync>(
    rt: &R,
    alloc: Global,
    row: &Row,
) -> Result<Option<String>, AllocError> {
    for piece in [1, 7, 65_536] {
        if let Some(said) = judge_over(rt, alloc, row, row.input.as_slice(), piece)? {
            return Ok(Some(format!(in alloc; "over pieces of {piece}: {said}")?));
        }
    }
    Ok(None)
}

// Cut behind so many bytes.
fn judge_cut<R: Threads + Sync>(
    rt: &R,
    alloc: Global,
    row: &Row,
    length: usize,
) -> Result<Option<String>, AllocError> {
    let mut text = row.input[..length.min(row.input.len())].to_vec(alloc)?;
    text.extend_from_slice(row.rest.as_slice())?;
    judge_over(rt, alloc, row, text.as_slice(), 7)
}

// Cut at each place.
fn judge_cuts<R: Threads + Sync>(
    rt: &R,
    alloc: Global,
    row: &Row,
    from: usize,
    to: usize,
) -> Result<Option<String>, AllocError> {
    for length in from..to {
        if let Some(said) = judge_cut(rt, alloc, row, length)? {
            return Ok(Some(format!(in alloc; "cut behind {length} bytes: {said}")?));
        }
    }
    Ok(None)
}

/// Runs the row over pieces of each size, or where its input is cut at each of the places, and says
/// what came out otherwise than it must.
///
/// # Errors
///
/// Where there is no memory.
pub fn judge<R: Threads + Sync>(
    rt: &R,
    alloc: Global,
    row: &Row,
) -> Result<Option<String>, AllocError> {
    if let Some(line) = &row.unread {
        return Ok(Some(format!(in alloc; "no such line: {line}")?));
    }
    match row.cut {
        Some((from, to)) => judge_cuts(rt, alloc, row, from, to),
        None => judge_whole(rt, alloc, row),
    }
}
