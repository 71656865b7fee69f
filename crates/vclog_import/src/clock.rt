//! The clock of a record, read as JSON.

ghost use Rattle.std.specs.Prelude.{◌≡◌, option_map, option_and_then, IfOk};
ghost use Rattle.serde_json.specs.Find.{as_object};
ghost use Rattle.serde_json.specs.View.{view, members_view};
ghost use Rattle.vclog_import.specs.Clock.{counter, are_counters, if_counters, clock_in};

use pota_base::NoMemory;
use serde_json::{Map, Value};
use std::alloc::Global;

/// A number from 0 to 4294967295.
pub fn counter(value: &Value) -> Option<u32>
    ensures { result ≡ counter (view value.now) }
{
    let number = value.as_u64()?;
    if number > u64::from(u32::MAX) {
        return None;
    }
    Some(number as u32)
}

// Whether each member is a counter.
#[tactic(auto, unfolding(crate::specs::Clock::are_counters))]
fn are_counters(members: &Map<String, Value>) -> bool
    ensures { result ≡ are_counters (members_view members.now.entries) }
{
    for (_key, value) in members.iter() {
        if counter(value).is_none() {
            return false;
        }
    }
    true
}

// The members of an object.
fn into_object(value: Value) -> Option<Map<String, Value>>
    ensures { option_map (λ m. members_view m.entries) result ≡ as_object (view value) }
{
    match value {
        Value::Object(members) => Some(members),
        Value::Null => None,
        Value::Bool(_truth) => None,
        Value::Number(_number) => None,
        Value::String(_text) => None,
        Value::Array(_items) => None,
    }
}

/// The clock that the text is, if it is one. What is read of it is let go with it, so the memory
/// for one clock is enough for all: about 15 bytes for each byte of its text.
pub fn clock_in(alloc: Global, text: &[u8]) -> Result<Option<Map<String, Value>>, NoMemory>
    ensures { IfOk result
        (λ found. option_map (λ m. members_view m.entries) found ≡ clock_in text.now) }
{
    match Value::from_slice(alloc, text) {
        Ok(value) => Ok(into_clock(value)),
        Err(error) => {
            if error.is_memory() {
                Err(NoMemory)
            } else {
                Ok(None)
            }
        }
    }
}

// The members of an object of counters.
fn into_clock(value: Value) -> Option<Map<String, Value>>
    ensures { option_map (λ m. members_view m.entries) result
        ≡ option_and_then if_counters (as_object (view value)) }
{
    let members = into_object(value)?;
    if are_counters(&members) {
        Some(members)
    } else {
        None
    }
}
