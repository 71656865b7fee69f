//! Laws of sources, as contracts of functions that do nothing.

ghost use Rattle.log_sources.specs.Laws.{PiecesDoNotMatter, FaultStays, FaultlessAreFew};
ghost use Rattle.log_sources.specs.Laws.{FaultlessAreTexts};

/// What the bytes are doesn't depend on how they are cut into pieces.
pub fn pieces_do_not_matter()
    ensures { PiecesDoNotMatter }
{}

/// Nothing comes behind a fault.
pub fn a_fault_stays()
    ensures { FaultStays }
{}

/// Bytes without a fault are at most 67,108,864.
pub fn faultless_are_few()
    ensures { FaultlessAreFew }
{}

/// An input without a fault is the texts of 1 to 32 logs one behind another, which can be merged.
/// These are the logs that the reader gives, but for their batches.
pub fn faultless_are_texts()
    ensures { FaultlessAreTexts }
{}
