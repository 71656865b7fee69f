//! Laws on rows that a later table begins from. The functions do nothing.
ghost use Rattle.slice_workers.specs.Laws.{FirstRowsAreFinal};

/// Where the row of a process's event lies within the lengths, the grown rows of its first events
/// up to that one are the least already in each later system that asks for no more where what was
/// there met it.
pub fn first_rows_are_final()
    ensures { FirstRowsAreFinal }
{}
