//! The text of a question with names of processes in the place of those that stand for them.
ghost use Rattle.question_instances.specs.Instances.{instance_text, is_access, next_after};
ghost use Rattle.question_instances.specs.Instances.{put_word, renamed, renaming_of, scanned};
ghost use Rattle.std.specs.Prelude.{◌≡◌, ◌++◌, ◌≤◌, [], false, length, map, IfOk, OnOk};

use crate::over::Over;
use pota_base::{Bytes, NoMemory};
use pota_names::is_byte_of_name;
use question_text::Class;
use std::alloc::Global;

/// A name that stands for a process, and the name of the process.
#[derive(Clone, Copy)]
pub struct Naming<'a> {
    pub word: &'a [u8],
    pub process: &'a [u8],
}

// The process's name for which the word stands, or the word itself.
fn renamed<'a>(names: &[Naming<'a>], word: &'a [u8]) -> &'a [u8]
    ensures { result.now ≡ renamed (map renaming_of names.now) word.now }
{
    for naming in names {
        if word == naming.word {
            return naming.process;
        }
    }
    word
}

// Appends a word, behind a `.` or an `@` as it is.
fn put_word(out: &mut Bytes, after: bool, names: &[Naming<'_>], word: &[u8]) -> Result<(), NoMemory>
    ensures { OnOk result (out.new ≡ out.old ++ put_word after (map renaming_of names.now)
        word.now) }
{
    if word.is_empty() {
        return Ok(());
    }
    if after {
        out.extend_from_slice(word)
    } else {
        out.extend_from_slice(renamed(names, word))
    }
}

fn is_access(byte: u8) -> bool
    ensures { result ≡ is_access byte }
{
    byte == b'.' || byte == b'@'
}

// Whether the next word is behind a `.` or an `@`, by the byte behind this one.
fn next_after(after: bool, empty: bool, byte: u8) -> bool
    ensures { result ≡ next_after after empty byte }
{
    if empty && Class::Blank.has(byte) {
        after
    } else {
        is_access(byte)
    }
}

// Appends a text with names of processes for those that stand for them.
#[tactic(auto, using(crate::proofs::Scans::on_word, crate::proofs::Scans::on_other))]
fn put_scanned(out: &mut Bytes, names: &[Naming<'_>], text: &[u8]) -> Result<(), NoMemory>
    ensures { OnOk result (out.new ≡ out.old ++ scanned (map renaming_of names.now) false []
        text.now) }
{
    let mut after = false;
    let mut from = 0;
    for i in 0..text.len() {
        if !is_byte_of_name(text[i]) {
            put_word(out, after, names, &text[from..i])?;
            out.push(text[i])?;
            after = next_after(after, from == i, text[i]);
            from = i + 1;
        }
    }
    put_word(out, after, names, &text[from..])
}

/// The question with names of processes for those that stand for them, and without the words that
/// say so. A word behind a `.` or an `@` is a variable's or a watch's, and stays.
pub fn instance_of(
    alloc: Global,
    text: &[u8],
    over: Over,
    names: &[Naming<'_>],
) -> Result<Bytes, NoMemory>
    requires from { over.from ≤ length text.now }
    requires to { over.to ≤ length text.now }
    ensures { IfOk result (λ made. made ≡ instance_text text.now over (map renaming_of names.now)) }
{
    let mut out = Bytes::new(alloc);
    out.extend_from_slice(&text[..over.from as usize])?;
    put_scanned(&mut out, names, &text[over.to as usize..])?;
    Ok(out)
}
