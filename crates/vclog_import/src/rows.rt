//! The counts of a clock, in the order of the hosts.

ghost use Rattle.std.specs.Prelude.{◌≡◌, ◌<◌, true, length, map, IfOk, IfSome};
ghost use Rattle.serde_json.specs.View.{members_view};
ghost use Rattle.log_lines.specs.Names.{place_of, are_distinct};
ghost use Rattle.vclog_import.specs.Clock.{all_known, count_of};
ghost use Rattle.vclog_import.specs.inside.Scans.{hosts_in};

use crate::clock::counter;
use log_lines::place_of;
use pota_base::NoMemory;
use serde_json::{Map, Value};
use std::alloc::Global;

/// What a clock says of the hosts.
#[derive(Debug, Drop)]
pub struct HostCounts {
    /// The counter of each host, and 0 where the clock has none.
    pub counts: Vec<u32>,
    /// Whether each key with a positive counter is one of the hosts.
    pub all_known: bool,
}

// The place of the key among the hosts. Keys and hosts are in one order, so the place behind that
// of the key before is looked at first.
fn place_near(hosts: &[&[u8]], near: usize, key: &[u8]) -> Option<usize>
    requires { are_distinct (hosts_in hosts.now) ≡ true }
    ensures place { result ≡ place_of (hosts_in hosts.now) key.now }
    ensures within { IfSome result (λ place. place < length hosts.now) }
{
    if near < hosts.len() {
        if hosts[near] == key {
            return Some(near);
        }
    }
    place_of(hosts, key)
}

/// What the members of a clock say of the hosts.
pub fn counts_of(
    alloc: Global,
    hosts: &[&[u8]],
    members: &Map<String, Value>,
) -> Result<HostCounts, NoMemory>
    requires { are_distinct (hosts_in hosts.now) ≡ true }
    ensures counts { IfOk result (λ r. r.counts.items
        ≡ map (count_of (members_view members.now.entries)) (hosts_in hosts.now)) }
    ensures known { IfOk result (λ r. r.all_known
        ≡ all_known (hosts_in hosts.now) (members_view members.now.entries)) }
{
    let mut counts = vec![in alloc; 0u32; hosts.len()]?;
    let mut all_known = true;
    let mut near = 0;
    for (key, value) in members.iter() {
        let count = counter(value).unwrap_or(0);
        match place_near(hosts, near, key.as_bytes()) {
            Some(place) => {
                counts[place] = count;
                near = place + 1;
            }
            None => {
                if count > 0 {
                    all_known = false;
                }
            }
        }
    }
    Ok(HostCounts { counts, all_known })
}
