//! What lines are said of, and where a text stands.

ghost use Rattle.certificate_lines.specs.declared.line.Line.{Line};

/// What lines of a certificate are said of.
pub trait Said {
    /// The line is justified here, and leaves this.
    ghost follows: { Self → Line → Self → Type 0 };
}

/// Which line of a text is due.
#[derive(Clone, Copy, Debug, PartialEq, Eq)]
pub enum Stage {
    /// The first line.
    Title,
    /// The formula's.
    Formula,
    /// One that says something of the nodes.
    Body,
    /// The last line; the verdict was told.
    Ending(bool),
    /// None: the text was accepted, with this verdict.
    Accepted(bool),
    /// None: the line of this number, from 1, was refused.
    Refused(u64),
    /// None: there was no memory for a line.
    Spent,
}
