//! Fixed words and names at the front of some bytes, and names in lists.

ghost use Rattle.std.specs.Prelude.{◌≡◌, ℕ, ◌<◌, ◌≤◌, length, map, IfSome};
ghost use Rattle.std.specs.Str.{bytes_eq};
ghost use Rattle.log_lines.specs.Names.{Name as NameOf, is_name_byte, place_of, are_distinct};
ghost use Rattle.log_lines.specs.Reading.{text_at, front, name_at, spaced_name_at};
ghost use Rattle.log_lines.specs.Drafts.{rest_seen, name_seen};

use pota_base::LONGEST_NAME;
use pota_names::{Name, is_byte_of_name, is_start_of_name, key_of};

/// What has a name by which it is looked up.
pub trait Named {
    ghost name: { Self → NameOf };

    fn name(&self) -> &[u8]
        ensures { result.now ≡ name self.now };
}

impl Named for &[u8] {
    ghost name = { λ s. s.now };

    fn name(&self) -> &[u8] {
        self
    }
}

impl Named for Name {
    ghost name = { λ n. n };

    fn name(&self) -> &[u8] {
        self.as_bytes()
    }
}

// Whether both are one name. Names of one list often begin alike, so that their ends tell most of
// them apart.
fn is_same_name(first: &[u8], second: &[u8]) -> bool
    ensures { result ≡ bytes_eq first.now second.now }
{
    if first.len() != second.len() {
        return false;
    }
    if let [.., last] = first {
        if *last != second[second.len() - 1] {
            return false;
        }
    }
    first == second
}

/// The place of the first of the items that has this name.
pub fn place_of<T: Named>(items: &[T], name: &[u8]) -> Option<usize>
    ensures place { result ≡ place_of (map T.name items.now) name.now }
    ensures within { IfSome result (λ place. place < length items.now) }
{
    for (i, item) in items.iter().enumerate() {
        if is_same_name(item.name(), name) {
            return Some(i);
        }
    }
    None
}

/// The place of the first of the names that is this one, found by its key.
pub fn place_among(names: &[Name], name: &[u8]) -> Option<usize>
    ensures place { result ≡ place_of names.now name.now }
    ensures within { IfSome result (λ place. place < length names.now) }
{
    let key = key_of(name);
    for (i, known) in names.iter().enumerate() {
        if known.is(key, name) {
            return Some(i);
        }
    }
    None
}

/// Whether no two of the items have one name.
pub fn are_distinct<T: Named>(items: &[T]) -> bool
    ensures { result ≡ are_distinct (map T.name items.now) }
{
    let mut rest = items;
    while let [item, after @ ..] = rest {
        if place_of(after, item.name()).is_some() {
            return false;
        }
        rest = after;
    }
    true
}

// How many bytes at the front may stand in a name.
fn name_len(bytes: &[u8]) -> usize
    ensures front { result ≡ front is_name_byte bytes.now }
    ensures within { result ≤ length bytes.now }
{
    for i in 0..bytes.len() {
        if !is_byte_of_name(bytes[i]) {
            return i;
        }
    }
    bytes.len()
}

/// What follows the text, where the bytes begin with it.
pub fn text_at<'a>(text: &[u8], bytes: &'a [u8]) -> Option<&'a [u8]>
    ensures { rest_seen result ≡ text_at text.now bytes.now }
{
    for i in 0..text.len() {
        if i >= bytes.len() {
            return None;
        }
        if bytes[i] != text[i] {
            return None;
        }
    }
    Some(&bytes[text.len()..])
}

/// The name at the front, as long as it goes on, and the bytes after it.
#[tactic(auto, unfolding(crate::specs::Reading::name_at))]
pub fn name_at(bytes: &[u8]) -> Option<(&[u8], &[u8])>
    ensures { name_seen result ≡ name_at bytes.now }
{
    let len = name_len(bytes);
    if len == 0 {
        return None;
    }
    if len > LONGEST_NAME {
        return None;
    }
    if !is_start_of_name(bytes[0]) {
        return None;
    }
    Some(bytes.split_at(len))
}

/// The name behind one space at the front.
#[tactic(auto, unfolding(crate::specs::Reading::spaced_name_at))]
pub fn spaced_name_at(bytes: &[u8]) -> Option<(&[u8], &[u8])>
    ensures { name_seen result ≡ spaced_name_at bytes.now }
{
    name_at(text_at(b" ", bytes)?)
}
