//! The names of processes, by their hosts.

ghost use Rattle.std.specs.Prelude.{◌≡◌, length, IfOk};
ghost use Rattle.vclog_import.specs.Hosts.{name_byte, name_of, begins_with_digit, do_clash};
ghost use Rattle.std.specs.List.{list_any};
ghost use Rattle.vclog_import.specs.inside.Scans.{hosts_in};

use pota_base::NoMemory;
use pota_names::is_byte_of_name;
use std::alloc::Global;

// The byte where a name may have it, and else `_`.
fn name_byte(byte: u8) -> u8
    ensures { result ≡ name_byte byte }
{
    if is_byte_of_name(byte) { byte } else { b'_' }
}

// Whether the first byte is a digit.
fn begins_with_digit(host: &[u8]) -> bool
    ensures { result ≡ begins_with_digit host.now }
{
    match host {
        [first, ..] => first.is_ascii_digit(),
        [] => false,
    }
}

/// How many bytes the name of a host has.
pub fn name_len(host: &[u8]) -> usize
    ensures { result ≡ length (name_of host.now) }
{
    if begins_with_digit(host) {
        host.len() + 1
    } else {
        host.len()
    }
}

/// The name of the process of a host.
pub fn name_of(alloc: Global, host: &[u8]) -> Result<Vec<u8>, NoMemory>
    ensures { IfOk result (λ name. name.items ≡ name_of host.now) }
{
    let mut name = Vec::with_capacity(alloc, name_len(host))?;
    if begins_with_digit(host) {
        name.push(b'_')?;
    }
    for byte in host {
        name.push(name_byte(*byte))?;
    }
    Ok(name)
}

// Whether the two hosts have one name.
fn do_clash(alloc: Global, first: &[u8], second: &[u8]) -> Result<bool, NoMemory>
    ensures { IfOk result (λ clash. clash ≡ do_clash first.now second.now) }
{
    if first == second {
        return Ok(false);
    }
    let name = name_of(alloc, first)?;
    let other = name_of(alloc, second)?;
    Ok(name.as_slice() == other.as_slice())
}

/// Whether one of the hosts has the name of this one, and isn't this one.
pub fn clashes(alloc: Global, hosts: &[&[u8]], host: &[u8]) -> Result<bool, NoMemory>
    ensures { IfOk result (λ clash. clash
        ≡ list_any (λ h. do_clash h host.now) (hosts_in hosts.now)) }
{
    for other in hosts {
        if do_clash(alloc, other, host)? {
            return Ok(true);
        }
    }
    Ok(false)
}
