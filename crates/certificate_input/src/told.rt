//! What is told of a certificate.

/// What is told of the bytes of an input.
#[derive(Clone, Copy, Debug, PartialEq, Eq)]
pub enum Told {
    /// They are a certificate that is accepted, with this verdict.
    Accepted(bool),
    /// The line of this number, from 1, is refused.
    Refused(u64),
    /// A read failed, and no line before it is refused.
    Failed,
}
