//! The views of a run as a program: a log and one report of it or more come on standard input, one
//! behind the other, the view goes to standard output, and the line that tells why there is none to
//! standard error.
#![tactic(auto)]

use pota_base::{Sink, write_all};
use std::process::ExitCode;
use std::{env, io};
use std_streams::{Reading, Writing};
use view_top::{Fault, view};

/// The status where the system refuses the words.
const NO_WORDS: u8 = 9;

// The words of the command line without the program's name.
fn words(rt: &HostRuntime) -> io::Result<Vec<String>> {
    let mut words = Vec::new(rt.alloc());
    for word in env::args(rt)?.skip(1) {
        words.push(word)?;
    }
    Ok(words)
}

// Says why there are no words, and gives the status of it.
fn without_words<D: Sink>(diag: &mut D, error: &io::Error) -> ExitCode {
    match error.kind() {
        io::ErrorKind::OutOfMemory => {
            let _ = write_all(diag, b"pota_view: out of memory\n");
            ExitCode::from(Fault::Memory.status())
        }
        _ => {
            let _ = write_all(diag, b"pota_view: no words\n");
            ExitCode::from(NO_WORDS)
        }
    }
}

fn main(rt: HostRuntime) -> ExitCode {
    let mut diag = Writing::new(rt.stderr());
    let words = match words(&rt) {
        Ok(words) => words,
        Err(error) => return without_words(&mut diag, &error),
    };
    let alloc = rt.alloc();
    let mut input = Reading::new(rt.stdin());
    let mut out = Writing::new(rt.stdout());
    let viewed = view(alloc, words.as_slice(), &mut input, &mut out, &mut diag);
    ExitCode::from(viewed.status())
}
