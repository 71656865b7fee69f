ghost use Rattle.std.specs.Prelude.{◌≡◌, ◌+◌, ◌<◌, length, IfOk};
ghost use Rattle.rctl_parts.specs.Exprs.{expr_of};
ghost use Rattle.local_preds.specs.Rows.{IsReadableAt, truths_of, len_at};

use crate::holding::{StateAt, holds};
use event_log::States;
use pota_base::{List, NoMemory};
use rctl_parts::LocalExpr;
use std::alloc::Global;

/// The truth of the expression in each state of the process, the opening state first. A watch is
/// given by its row, which has one truth per state.
pub fn truth_row(
    alloc: Global,
    expr: &LocalExpr,
    states: &States,
    process: u32,
    watch_rows: &List<List<bool>>,
) -> Result<List<bool>, NoMemory>
    requires process { process < length states.now.events }
    requires readable { IsReadableAt states.now process watch_rows.now (expr_of expr.now) }
    ensures truths { IfOk result (λ row.
        row ≡ truths_of states.now process watch_rows.now (expr_of expr.now)) }
    ensures len { IfOk result (λ row. length row ≡ len_at states.now process + 1) }
{
    let len = states.shape().len_of(process);
    let mut row = Vec::with_capacity(alloc, len as usize + 1)?;
    for position in 0..len + 1 {
        let at = StateAt {
            states,
            watch_rows,
            process,
            position,
        };
        row.push(holds(expr, &at))?;
    }
    Ok(List::from_vec(row))
}
