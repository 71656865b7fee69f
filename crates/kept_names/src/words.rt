//! What the words behind `--keep` name.
ghost use Rattle.std.specs.Prelude.{◌≡◌, map, string_bytes, IfOk};
ghost use Rattle.std.specs.Option.{option_map};
ghost use Rattle.std.specs.Prelude.{◌&&◌, not};
ghost use Rattle.kept_names.specs.Words.{parted, pair_of, pair_in, named};
ghost use Rattle.kept_names.specs.Words.{with_word, is_keep, names_kept};

use crate::names::{Named, Names, Pair};
use memchr::memchr;
use pota_base::NoMemory;
use pota_names::Name;
use std::alloc::Global;

// The pair of two names, if both are names.
#[tactic(auto, using(crate::proofs::Naming::no_first, crate::proofs::Naming::no_second, crate::proofs::Naming::are_both))]
fn pair_of(alloc: Global, first: &[u8], second: &[u8]) -> Result<Option<Pair>, NoMemory>
    ensures { IfOk result (λ found. found ≡ pair_of first.now second.now) }
{
    let Some(first) = Name::new(alloc, first)? else {
        return Ok(None);
    };
    let Some(second) = Name::new(alloc, second)? else {
        return Ok(None);
    };
    Ok(Some(Pair { first, second }))
}

// The bytes before the first of these marks, and those behind it.
fn parted(mark: u8, word: &[u8]) -> Option<(&[u8], &[u8])>
    ensures { option_map (λ x. (x.0.now, x.1.now)) result ≡ parted mark word.now }
{
    let end = memchr(mark, word)?;
    Some((&word[..end], &word[end + 1..]))
}

// The bytes before the first of these marks and those behind it, where both are names.
fn pair_in(alloc: Global, mark: u8, word: &[u8]) -> Result<Option<Pair>, NoMemory>
    ensures { IfOk result (λ found. found ≡ pair_in mark word.now) }
{
    match parted(mark, word) {
        Some((first, second)) => pair_of(alloc, first, second),
        None => Ok(None),
    }
}

/// What the word names, if it names something.
pub fn named(alloc: Global, word: &[u8]) -> Result<Option<Named>, NoMemory>
    ensures { IfOk result (λ found. found ≡ named word.now) }
{
    if let Some(variable) = pair_in(alloc, b'.', word)? {
        return Ok(Some(Named::Variable(variable)));
    }
    if let Some(channel) = pair_in(alloc, b'>', word)? {
        return Ok(Some(Named::Channel(channel)));
    }
    match Name::new(alloc, word)? {
        Some(process) => Ok(Some(Named::Process(process))),
        None => Ok(None),
    }
}

// The names with what the word names, where the word before it is `--keep`.
fn with_word(
    alloc: Global,
    waits: bool,
    mut names: Names,
    word: &[u8],
) -> Result<Option<Names>, NoMemory>
    ensures { IfOk result (λ found. found ≡ with_word waits names word.now) }
{
    if !waits {
        return Ok(Some(names));
    }
    match named(alloc, word)? {
        Some(one) => {
            names.add(one)?;
            Ok(Some(names))
        }
        None => Ok(None),
    }
}

/// Whether a word says that the next one names something.
pub fn is_keep(word: &[u8]) -> bool
    ensures { result ≡ is_keep word.now }
{
    word == b"--keep".as_slice()
}

/// Whether the word behind this one names something, where this one does or does not.
pub fn waits_behind(waits: bool, word: &[u8]) -> bool
    ensures { result ≡ (not waits && is_keep word.now) }
{
    !waits && is_keep(word)
}

/// What the words behind each `--keep` name, in their order, and `None` exactly where one of them
/// names nothing or is missing.
pub fn names_kept(alloc: Global, words: &[String]) -> Result<Option<Names>, NoMemory>
    ensures { IfOk result (λ found. found ≡ names_kept (map string_bytes words.now)) }
{
    let mut names = Names::new(alloc);
    let mut waits = false;
    for word in words {
        let bytes = word.as_bytes();
        let found = with_word(alloc, waits, names, bytes)?;
        match found {
            Some(more) => names = more,
            None => return Ok(None),
        }
        waits = waits_behind(waits, bytes);
    }
    if waits {
        return Ok(None);
    }
    Ok(Some(names))
}
