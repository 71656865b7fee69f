/// One step of the machine.
#[derive(Clone, Copy, Debug, PartialEq, Eq)]
pub enum Step {
    /// Reads a word.
    Look {
        row: u32,
        process: u32,
    },
    /// Raises the word of the target of pull `k` to the entry `x` of its table, where the source's
    /// word has reached `x`.
    Pull {
        row: u32,
        k: u32,
        x: u64,
    },
    /// Raises a word of `to_row` to `y`, where the word of `from_row` has reached `y` and `to_row`
    /// has the event of `from_row`.
    Lend {
        to_row: u32,
        from_row: u32,
        process: u32,
        y: u64,
    },
}
