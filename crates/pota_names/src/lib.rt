//! The names of processes, variables and watches, which the text of a log and that of a formula
//! spell alike.
//!
//! `Name::new` gives a name exactly where the bytes are one: a letter or `_`, then letters, digits
//! or `_`, 1 to 64 bytes in all.
#![tactic(auto)]

ghost use Rattle.pota_names.specs.Names.{is_name, is_name_byte, is_name_start};
ghost use Rattle.pota_names.specs.Keys.{key_of};
ghost use Rattle.std.specs.Prelude.{◌≡◌, false, IfOk, IsTrue, MatchOption};
ghost use Rattle.std.specs.List.{list_all};
ghost use Rattle.std.specs.Str.{bytes_eq};

pub use pota_base::LONGEST_NAME;
use std::alloc::Global;
use std::marker::Model;

/// How many bytes of a name its key has.
const KEY_BYTES: usize = 8;

/// Whether a name may begin with the byte: a letter or `_`.
pub fn is_start_of_name(byte: u8) -> bool
    ensures { result ≡ is_name_start byte }
{
    byte.is_ascii_alphabetic() || byte == b'_'
}

/// Whether a name may go on with the byte: a letter, a digit or `_`.
pub fn is_byte_of_name(byte: u8) -> bool
    ensures { result ≡ is_name_byte byte }
{
    is_start_of_name(byte) || byte.is_ascii_digit()
}

/// Whether a name may go on with each of the bytes.
fn may_follow(rest: &[u8]) -> bool
    ensures { result ≡ list_all is_name_byte rest.now }
{
    rest.iter().all(|byte| is_byte_of_name(*byte))
}

/// Whether the bytes are a name.
fn are_name(bytes: &[u8]) -> bool
    ensures { result ≡ is_name bytes.now }
{
    match bytes.split_first() {
        None => false,
        Some((first, rest)) => is_start_of_name(*first)
            && rest.len() < LONGEST_NAME
            && may_follow(rest),
    }
}

/// The first eight bytes as one number, by which most names are told apart.
pub fn key_of(bytes: &[u8]) -> u64
    ensures { result ≡ key_of bytes.now }
{
    let mut key = 0_u64;
    for i in 0..bytes.len().min(KEY_BYTES) {
        key = key * 256 + u64::from(bytes[i]);
    }
    key
}

/// A name, seen as its bytes. Each value is a name: a letter or `_`, then letters, digits or `_`, 1
/// to 64 bytes in all.
#[derive(Debug, Drop)]
pub struct Name {
    bytes: List<u8>,
    key: u64,
    ghost keyed: { key ≡ key_of bytes },
}

impl Model for Name {
    ghost use Rattle.pota_names.specs.Names.{is_name};
    ghost use Rattle.std.specs.Coded.{coded_ℕ, coded_list};
    ghost use Rattle.std.specs.Prelude.{ℕ, List as ListOf, IsTrue};

    ghost Value = { ListOf ℕ };

    ghost coded = { coded_list coded_ℕ };

    ghost view = { λ name. name.bytes };

    ghost invariant = { λ name. IsTrue (is_name name.bytes) };
}

impl Name {
    /// The name that the bytes spell, and `None` exactly where they are no name.
    pub fn new(alloc: Global, bytes: &[u8]) -> Result<Option<Name>, NoMemory>
        ensures { IfOk result (λ found. MatchOption found (is_name bytes.now ≡ false)
            (λ name. IsTrue (is_name bytes.now) × (name ≡ bytes.now))) }
    {
        if !are_name(bytes) {
            return Ok(None);
        }
        let key = key_of(bytes);
        let bytes = List::from_vec(bytes.to_vec(alloc)?);
        Ok(Some(Name { bytes, key }))
    }

    /// The bytes of the name.
    pub fn as_bytes(&self) -> &[u8]
        ensures value { result.now ≡ self.now }
        ensures name { IsTrue (is_name self.now) }
    {
        self.bytes.as_slice()
    }

    /// An equal name, of its own.
    pub fn copy(&self, alloc: Global) -> Result<Name, NoMemory>
        ensures { IfOk result (λ name. name ≡ self.now) }
    {
        let bytes = List::from_vec(self.bytes.as_slice().to_vec(alloc)?);
        Ok(Name {
            bytes,
            key: self.key,
        })
    }

    /// Whether the bytes, whose key this is, are the name.
    pub fn is(&self, key: u64, bytes: &[u8]) -> bool
        requires { key ≡ key_of bytes.now }
        ensures { result ≡ bytes_eq self.now bytes.now }
    {
        self.key == key && self.bytes.as_slice() == bytes
    }
}

pub use pota_base::{List, NoMemory};
