//! What is printed of a formula is read as that formula. The definitions stand in specs/;
//! `read_back` shows the round trip by its calls, and each other function is a law that stands over
//! the definitions, and does nothing.
#![tactic(auto)]

mod again;

ghost use Rattle.rctl_round_trip.specs.RoundTrip.{PrintedHasNoFault, PrintedIsItself};
ghost use Rattle.rctl_round_trip.specs.RoundTrip.{PrintedIsRead, PrintedIsShort};

pub use again::{read_back, read_back_short};
pub use rctl_parse::{parse_long, print};

/// The canonical text of a formula that was read is read as the same formula but for its places.
pub fn printed_is_read()
    ensures { PrintedIsRead }
{}

/// The canonical text of a formula that was read has no fault.
pub fn printed_has_no_fault()
    ensures { PrintedHasNoFault }
{}

/// Whatever is read of the canonical text of a formula that was read is the same formula but for
/// its places.
pub fn printed_is_itself()
    ensures { PrintedIsItself }
{}

/// The canonical text of a formula that was read has fewer than 65,536 bytes.
pub fn printed_is_short()
    ensures { PrintedIsShort }
{}
