//! The analyser as a program: the log comes on standard input, the report goes to standard output,
//! and the line that tells why there is no verdict to standard error. Formulas may name the watches
//! `stable`, `owing` and `calm`.
#![tactic(auto)]

ghost use Rattle.std.specs.Prelude.{◌≡◌, ◌∷◌, ◌++◌, [], true, OnOk};
ghost use Rattle.pota_names.specs.Names.{is_name};
ghost use Rattle.log_check.specs.Aims.{names_of};

use pota_base::{FreeGate, NoMemory, Sink, Source, Status, write_all};
use pota_names::Name;
use pota_top::pota;
use std::alloc::Global;
use std::process::ExitCode;
use std::thread::Threads;
use std::{env, io};
use std_streams::{Reading, Writing};
use watch::{Calm, Handed, Owing, Stable, Watch};

/// The status where the system refuses the words.
const NO_WORDS: u8 = 9;

/// Above the blocks that most runs take, and below 32 MiB, up to which the threshold is raised.
const KEPT_BYTES: usize = 33_000_000;

// The words of the command line without the program's name.
fn words(rt: &HostRuntime) -> io::Result<Vec<String>> {
    let mut words = Vec::new(rt.alloc());
    for word in env::args(rt)?.skip(1) {
        words.push(word)?;
    }
    Ok(words)
}

// Drops the block by a call, since compilers leave out a block that is dropped where it is taken.
#[inline(never)]
fn let_go(block: Vec<u8>) {
    drop(block);
}

// Has the C library use the memory of dropped blocks again. It takes each block above a threshold,
// of 128 KiB at first, from the kernel, page by page, and gives it back when the block is dropped;
// the first such block that is dropped raises the threshold to its size (mallopt(3),
// M_MMAP_THRESHOLD). As measured, runs take some 6 in a hundred less time so, at the same peak of
// memory. This block is never written, so it takes no memory, and where it is refused the run goes
// on.
fn keep_dropped_memory(alloc: Global) {
    if let Ok(block) = Vec::with_capacity(alloc, KEPT_BYTES) {
        let_go(block);
    }
}

// Adds a watch under its name.
fn hand_in(
    alloc: Global,
    name: &[u8],
    watch: Box<dyn Watch + Send>,
    watches: &mut Vec<Handed>,
) -> Result<(), NoMemory>
    requires { is_name name.now ≡ true }
    ensures { OnOk result
        (names_of watches.new.items ≡ names_of watches.old.items ++ name.now ∷ []) }
{
    let Some(name) = Name::new(alloc, name)? else {
        unreachable!()
    };
    watches.push(Handed { name, watch })?;
    Ok(())
}

// Answers the words, and gives the status of it.
fn answer<R: Threads + Sync, S: Source, O: Sink, D: Sink>(
    rt: &R,
    alloc: Global,
    words: &[String],
    log: &mut S,
    out: &mut O,
    diag: &mut D,
) -> Result<Status, NoMemory> {
    let mut watches = Vec::new(alloc);
    hand_in(
        alloc,
        b"stable",
        Box::new(alloc, Stable::new())?,
        &mut watches,
    )?;
    hand_in(
        alloc,
        b"owing",
        Box::new(alloc, Owing::new())?,
        &mut watches,
    )?;
    hand_in(alloc, b"calm", Box::new(alloc, Calm::new())?, &mut watches)?;
    let outcome = pota(rt, alloc, words, log, out, diag, watches, &FreeGate);
    Ok(outcome.status)
}

// Says why there are no words, and gives the status of it.
fn without_words<D: Sink>(diag: &mut D, error: &io::Error) -> ExitCode {
    match error.kind() {
        io::ErrorKind::OutOfMemory => without_memory(diag),
        _ => {
            let _ = write_all(diag, b"pota: no words\n");
            ExitCode::from(NO_WORDS)
        }
    }
}

// Says that there was no memory, and gives the status of it.
fn without_memory<D: Sink>(diag: &mut D) -> ExitCode {
    let _ = write_all(diag, b"pota: out of memory\n");
    ExitCode::from(Status::OutOfMemory.code())
}

fn main(rt: HostRuntime) -> ExitCode {
    keep_dropped_memory(rt.alloc());
    let mut diag = Writing::new(rt.stderr());
    let words = match words(&rt) {
        Ok(words) => words,
        Err(error) => return without_words(&mut diag, &error),
    };
    let alloc = rt.alloc();
    let mut log = Reading::new(rt.stdin());
    let mut out = Writing::new(rt.stdout());
    match answer(&rt, alloc, words.as_slice(), &mut log, &mut out, &mut diag) {
        Ok(status) => ExitCode::from(status.code()),
        Err(_) => without_memory(&mut diag),
    }
}
