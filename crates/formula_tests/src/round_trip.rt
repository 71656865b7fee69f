ghost use Rattle.rctl_round_trip.specs.RoundTrip.{WasRead};
ghost use Rattle.std.specs.Prelude.{IfOk};

use pota_base::{NoMemory, Refused};
use rctl_parse::{Formula, FormulaFault, parse, print};
use rctl_round_trip::{read_back, read_back_short};
use std::alloc::Global;
use std::test::Fail;

const PRINTED: &[u8] = b"EF (P.x = 1 | E[!true U P@calm])";

fn read(alloc: Global) -> Result<Formula, Refused<FormulaFault>>
    ensures { IfOk result (λ formula. WasRead formula.tree) }
{
    parse(alloc, b"EF(P.x=1|E[!(true)U P@calm])")
}

fn prints_so(alloc: Global, formula: &Formula) -> Result<bool, NoMemory> {
    Ok(print(alloc, formula)?.as_slice() == PRINTED)
}

fn reads_back(alloc: Global, formula: &Formula) -> Result<bool, NoMemory>
    requires { WasRead formula.now.tree }
{
    let again = read_back(alloc, formula)?;
    let same = prints_so(alloc, &again);
    drop(again);
    same
}

fn reads_back_short(alloc: Global, formula: &Formula) -> Result<bool, NoMemory>
    requires { WasRead formula.now.tree }
{
    match read_back_short(alloc, formula)? {
        None => Ok(false),
        Some(again) => {
            let same = prints_so(alloc, &again);
            drop(again);
            same
        }
    }
}

#[test]
fn a_printed_formula_is_read_back(rt: HostRuntime) -> Result<(), Fail> {
    let formula = read(rt.alloc())?;
    let same = reads_back(rt.alloc(), &formula);
    drop(formula);
    assert!(rt; same?);
    Ok(())
}

#[test]
fn a_short_formula_is_read_back(rt: HostRuntime) -> Result<(), Fail> {
    let formula = read(rt.alloc())?;
    let same = reads_back_short(rt.alloc(), &formula);
    drop(formula);
    assert!(rt; same?);
    Ok(())
}
