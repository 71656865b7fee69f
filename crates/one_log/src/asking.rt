//! What is asked for.
ghost use Rattle.std.specs.Prelude.{◌≡◌, map, string_bytes, IfOk};
ghost use Rattle.one_log.specs.Asking.{with_form, with_one_batch, with_torn, with_word};
ghost use Rattle.one_log.specs.Asking.{with_next, is_clocks, if_taken, flags_by, asked_by};

use kept_names::{Names, is_keep, names_kept, waits_behind};
use log_input::Form;
use pota_base::NoMemory;
use std::alloc::Global;

/// What the words without a value ask for.
#[derive(Clone, Copy, Debug, PartialEq, Eq)]
pub struct Flags {
    pub form: Form,
    /// Whether all events come in one batch.
    pub one_batch: bool,
    /// Whether the logs are those of processes that may have been killed.
    pub torn: bool,
}

/// What the words ask for.
#[derive(Debug, Drop)]
pub struct Asked {
    pub flags: Flags,
    /// What alone is kept of the log. Where nothing is named, all of it is.
    pub names: Names,
}

// Another form is asked for once at most.
fn with_form(flags: Flags, form: Form) -> Option<Flags>
    ensures { result ≡ with_form flags form }
{
    match flags.form {
        Form::OneLog => Some(Flags { form, ..flags }),
        Form::Merged | Form::Clocks => None,
    }
}

// And so is one batch.
fn with_one_batch(flags: Flags) -> Option<Flags>
    ensures { result ≡ with_one_batch flags }
{
    if flags.one_batch {
        return None;
    }
    Some(Flags {
        one_batch: true,
        ..flags
    })
}

// And so are torn logs.
fn with_torn(flags: Flags) -> Option<Flags>
    ensures { result ≡ with_torn flags }
{
    if flags.torn {
        return None;
    }
    Some(Flags {
        torn: true,
        ..flags
    })
}

// By one word more.
fn with_word(flags: Flags, word: &[u8]) -> Option<Flags>
    ensures { result ≡ with_word flags word.now }
{
    if word == b"--merged".as_slice() {
        with_form(flags, Form::Merged)
    } else if word == b"--vclog".as_slice() {
        with_form(flags, Form::Clocks)
    } else if word == b"--one-batch".as_slice() {
        with_one_batch(flags)
    } else if word == b"--torn".as_slice() {
        with_torn(flags)
    } else {
        None
    }
}

fn is_clocks(form: Form) -> bool
    ensures { result ≡ is_clocks form }
{
    match form {
        Form::Clocks => true,
        Form::OneLog | Form::Merged => false,
    }
}

// Records of two lines are never torn.
fn if_taken(flags: Flags) -> Option<Flags>
    ensures { result ≡ if_taken flags }
{
    if flags.torn && is_clocks(flags.form) {
        return None;
    }
    Some(flags)
}

// By one word more, which asks for nothing where it is `--keep` or stands behind one.
fn with_next(flags: Flags, waits: bool, word: &[u8]) -> Option<Flags>
    ensures { result ≡ with_next flags waits word.now }
{
    if waits || is_keep(word) {
        Some(flags)
    } else {
        with_word(flags, word)
    }
}

// What the words ask for without each `--keep` and the word behind it, in any order.
fn flags_by(words: &[String]) -> Option<Flags>
    ensures { result ≡ flags_by (map string_bytes words.now) }
{
    let mut flags = Flags {
        form: Form::OneLog,
        one_batch: false,
        torn: false,
    };
    let mut waits = false;
    for word in words {
        let bytes = word.as_bytes();
        match with_next(flags, waits, bytes) {
            Some(next) => flags = next,
            None => return None,
        }
        waits = waits_behind(waits, bytes);
    }
    if_taken(flags)
}

/// What the words ask for: what behind each `--keep` is named, and the others in any order.
pub fn asked_by(alloc: Global, words: &[String]) -> Result<Option<Asked>, NoMemory>
    ensures { IfOk result (λ asked. asked ≡ asked_by (map string_bytes words.now)) }
{
    let Some(flags) = flags_by(words) else {
        return Ok(None);
    };
    match names_kept(alloc, words)? {
        Some(names) => Ok(Some(Asked { flags, names })),
        None => Ok(None),
    }
}
