//! A row that begins behind another.
ghost use Rattle.std.specs.Prelude.{◌≡◌, ℕ, ◌^◌, ◌<◌, ◌≤◌, length, sum, IfSome};
ghost use Rattle.raise_machine.specs.Bounds.{word_at};
ghost use Rattle.certificate_table.specs.Begun.{lent, lent_from};

use pull_system::Rows;

/// Raises each word of the row to that of an earlier row, if there is one.
pub fn lend_from(rows: &mut Rows, after: Option<u32>, row: u32)
    requires row { row ≤ sum rows.old.lens }
    requires earlier { IfSome after (λ other. other < row) }
    requires small { (other process : ℕ) → process < length rows.old.lens
        → word_at rows.old.lens rows.old.words other process < 2 ^ 16 }
    ensures lens { rows.new.lens ≡ rows.old.lens }
    ensures words { rows.new.words ≡ lent_from rows.old.lens rows.old.words row after }
{
    if let Some(other) = after {
        lend(rows, other, row);
    }
}

// Raises each word of the row to that of the other.
fn lend(rows: &mut Rows, other: u32, row: u32)
    requires row { row ≤ sum rows.old.lens }
    requires earlier { other < row }
    requires small { (process : ℕ) → process < length rows.old.lens
        → word_at rows.old.lens rows.old.words other process < 2 ^ 16 }
    ensures lens { rows.new.lens ≡ rows.old.lens }
    ensures words { rows.new.words
        ≡ lent rows.old.lens rows.old.words row other (length rows.old.lens) }
{
    for process in 0..rows.shape().procs() {
        let word = rows.word(other, process);
        rows.raise(row, process, word);
    }
}
