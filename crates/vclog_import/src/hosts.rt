//! The hosts of a text, in their order.

ghost use Rattle.std.specs.Prelude.{◌≡◌, false, IfOk, OnOk};
ghost use Rattle.vclog_import.specs.Hosts.{with_host};
ghost use Rattle.vclog_import.specs.inside.Scans.{hosts_in, Has};

use pota_base::NoMemory;
use std::cmp::Ordering;

/// Puts the host in its place, where it isn't there yet, and says whether it is new.
pub fn put_host<'a>(hosts: &mut Vec<&'a [u8]>, host: &'a [u8]) -> Result<bool, NoMemory>
    ensures hosts { OnOk result (hosts_in hosts.new.items
        ≡ with_host host.now (hosts_in hosts.old.items)) }
    ensures known { IfOk result (λ is_new. is_new ≡ false
        → Has host.now (hosts_in hosts.old.items)) }
{
    for i in 0..hosts.len() {
        match host.cmp(hosts[i]) {
            Ordering::Less => {
                hosts.insert(i, host)?;
                return Ok(true);
            }
            Ordering::Equal => return Ok(false),
            Ordering::Greater => {}
        }
    }
    hosts.push(host)?;
    Ok(true)
}
