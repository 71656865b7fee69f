ghost use Rattle.std.specs.Prelude.{◌≤◌, length};
ghost use Rattle.pota_base.specs.Limits.{longest_lexed};

use pota_base::{Bytes, NoMemory, Refused};
use rctl_parse::{Formula, FormulaFault, parse, parse_long, print};
use std::alloc::Global;
use std::test::Fail;

fn shown(alloc: Global, formula: &Formula) -> Result<Option<Bytes>, NoMemory> {
    Ok(Some(print(alloc, formula)?))
}

/// What was read, printed.
fn printed(
    alloc: Global,
    read: Result<Formula, Refused<FormulaFault>>,
) -> Result<Option<Bytes>, NoMemory> {
    match read {
        Ok(formula) => {
            let text = shown(alloc, &formula);
            drop(formula);
            text
        }
        Err(Refused::Fault(_)) => Ok(None),
        Err(Refused::NoMemory) => Err(NoMemory),
    }
}

fn reprinted(alloc: Global, text: &[u8]) -> Result<Option<Bytes>, NoMemory>
    requires { length text.now ≤ longest_lexed }
{
    printed(alloc, parse(alloc, text))
}

fn long_reprinted(alloc: Global, text: &[u8]) -> Result<Option<Bytes>, NoMemory>
    requires { length text.now ≤ longest_lexed }
{
    printed(alloc, parse_long(alloc, text))
}

#[test]
fn a_formula_is_read(rt: HostRuntime) -> Result<(), Fail> {
    let text = reprinted(rt.alloc(), b"EF(P.x = 2 & \ttrue)")?.ok_or("a formula")?;
    assert!(rt; text.as_slice() == b"EF (P.x = 2 & true)".as_slice());
    Ok(())
}

#[test]
fn a_long_text_is_read(rt: HostRuntime) -> Result<(), Fail> {
    let text = b"A[P@calm U !EX.x = -9223372036854775808]".as_slice();
    let again = long_reprinted(rt.alloc(), text)?.ok_or("a formula")?;
    assert!(rt; again.as_slice() == text);
    Ok(())
}
