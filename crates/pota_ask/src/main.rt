//! Questions asked of a log as a program: the log comes on standard input, the document of what
//! each question comes to goes to standard output, and the lines that tell why there is none to
//! standard error. Questions may name the watches `stable`, `owing` and `calm`.
#![tactic(auto)]

ghost use Rattle.std.specs.Prelude.{◌≡◌, ◌∷◌, ◌++◌, [], true, OnOk};
ghost use Rattle.pota_names.specs.Names.{is_name};
ghost use Rattle.log_check.specs.Aims.{names_of};

use ask_top::{Answer, Fault, ask};
use pota_base::{NoMemory, Sink, Source, write_all};
use pota_names::Name;
use std::alloc::Global;
use std::process::ExitCode;
use std::thread::Threads;
use std::{env, io};
use std_streams::{Reading, Writing};
use watch::{Calm, Handed, Owing, Stable, Watch};

/// The status where the system refuses the words.
const NO_WORDS: u8 = 9;

// The words of the command line without the program's name.
fn words(rt: &HostRuntime) -> io::Result<Vec<String>> {
    let mut words = Vec::new(rt.alloc());
    for word in env::args(rt)?.skip(1) {
        words.push(word)?;
    }
    Ok(words)
}

// Adds a watch under its name.
fn hand_in(
    alloc: Global,
    name: &[u8],
    watch: Box<dyn Watch + Send>,
    watches: &mut Vec<Handed>,
) -> Result<(), NoMemory>
    requires { is_name name.now ≡ true }
    ensures { OnOk result
        (names_of watches.new.items ≡ names_of watches.old.items ++ name.now ∷ []) }
{
    let Some(name) = Name::new(alloc, name)? else {
        unreachable!()
    };
    watches.push(Handed { name, watch })?;
    Ok(())
}

// Answers the words, and gives the status of it.
fn answer<R: Threads + Sync, S: Source, O: Sink, D: Sink>(
    rt: &R,
    alloc: Global,
    words: &[String],
    log: &mut S,
    out: &mut O,
    diag: &mut D,
) -> Result<Answer, NoMemory> {
    let mut watches = Vec::new(alloc);
    hand_in(
        alloc,
        b"stable",
        Box::new(alloc, Stable::new())?,
        &mut watches,
    )?;
    hand_in(
        alloc,
        b"owing",
        Box::new(alloc, Owing::new())?,
        &mut watches,
    )?;
    hand_in(alloc, b"calm", Box::new(alloc, Calm::new())?, &mut watches)?;
    Ok(ask(rt, alloc, words, watches, log, out, diag))
}

// Says why there are no words, and gives the status of it.
fn without_words<D: Sink>(diag: &mut D, error: &io::Error) -> ExitCode {
    match error.kind() {
        io::ErrorKind::OutOfMemory => without_memory(diag),
        _ => {
            let _ = write_all(diag, b"pota_ask: no words\n");
            ExitCode::from(NO_WORDS)
        }
    }
}

// Says that there was no memory, and gives the status of it.
fn without_memory<D: Sink>(diag: &mut D) -> ExitCode {
    let _ = write_all(diag, b"pota_ask: out of memory\n");
    ExitCode::from(Fault::Memory.status())
}

fn main(rt: HostRuntime) -> ExitCode {
    let mut diag = Writing::new(rt.stderr());
    let words = match words(&rt) {
        Ok(words) => words,
        Err(error) => return without_words(&mut diag, &error),
    };
    let alloc = rt.alloc();
    let mut log = Reading::new(rt.stdin());
    let mut out = Writing::new(rt.stdout());
    match answer(&rt, alloc, words.as_slice(), &mut log, &mut out, &mut diag) {
        Ok(answer) => ExitCode::from(answer.status()),
        Err(_) => without_memory(&mut diag),
    }
}
