//! The canonical text of a formula as a line: it has no line feed, and is little longer than the
//! text that was read, whose names it has. The definitions stand in specs/; each function is a law
//! over them, and does nothing.
#![tactic(auto)]

ghost use Rattle.printed_lengths.specs.Lengths.{PrintedIsLittleLonger, PrintedIsOneLine};

/// The canonical text of a formula that was read has at most 3,195 bytes more than the text.
pub fn printed_is_little_longer()
    ensures { PrintedIsLittleLonger }
{}

/// The canonical text of a formula that was read has no line feed.
pub fn printed_is_one_line()
    ensures { PrintedIsOneLine }
{}
