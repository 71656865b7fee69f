//! The lines that tell how many events of each process torn logs leave out.
ghost use Rattle.std.specs.Prelude.{◌≡◌, ◌++◌, IfOk, OnOk};
ghost use Rattle.one_log.specs.LeftOut.{left_out_line, left_out_lines};

use event_log::Name;
use pota_base::{Bytes, List, NoMemory, put_u64};
use std::alloc::Global;

fn put_line(out: &mut Bytes, name: &Name, count: usize) -> Result<(), NoMemory>
    ensures { OnOk result (out.new ≡ out.old ++ left_out_line name.now count) }
{
    out.extend_from_slice(b"pota_log: events of ")?;
    out.extend_from_slice(name.as_bytes())?;
    out.extend_from_slice(b" left out: ")?;
    put_u64(out, count as u64)?;
    out.push(b'\n')?;
    Ok(())
}

/// One line for each process.
pub fn left_out_lines(alloc: Global, names: &[Name], counts: &[usize]) -> Result<Bytes, NoMemory>
    ensures { IfOk result (λ text. text ≡ left_out_lines names.now counts.now) }
{
    let mut out = List::new(alloc);
    'processes: for i in 0..names.len().min(counts.len()) {
        put_line(&mut out, &names[i], counts[i])?;
    }
    Ok(out)
}
