/// The forms in which a formula is asked. `Always` is two of them: what is asked is the formula
/// itself, or its negation.
#[derive(Clone, Copy, Debug, PartialEq, Eq)]
pub enum Form {
    /// No consistent cut satisfies it.
    Never,
    /// Some consistent cut does.
    Can,
    /// Each consistent cut does: asked of the formula, which is regular.
    Always,
    /// The same, asked of the formula's negation: no consistent cut satisfies that.
    AlwaysByNegation,
    /// Each path from the initial to the final cut meets it.
    Surely,
    /// The final cut satisfies it.
    AtEnd,
    /// The initial cut satisfies it: a formula that is asked as it is.
    Plain,
}
