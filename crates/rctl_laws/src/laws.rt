ghost use Rattle.rctl_laws.specs.Laws.{FirstFaultPrecedes, FirstFaultStands, NoFaultIsWithinLimits};
ghost use Rattle.rctl_laws.specs.Laws.{OneReading, WithinLimitsIsRead};

/// Tokens that are a formula have one reading.
pub fn reading_is_one()
    ensures { OneReading }
{}

/// A formula within the limits has no fault.
pub fn within_limits_is_read()
    ensures { WithinLimitsIsRead }
{}

/// Tokens without a fault are a formula within the limits.
pub fn no_fault_is_within_limits()
    ensures { NoFaultIsWithinLimits }
{}

/// The first fault of a text is a fault that the text has.
pub fn first_fault_stands()
    ensures { FirstFaultStands }
{}

/// No fault that a text has comes before its first fault, neither by its place nor, at one place,
/// by the order of the faults.
pub fn first_fault_precedes()
    ensures { FirstFaultPrecedes }
{}
