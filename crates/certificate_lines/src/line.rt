//! What a line says of the nodes.

/// A line of a certificate that says something of its nodes.
#[derive(Clone, Copy, Debug, PartialEq, Eq)]
pub enum Line {
    /// The node of this number, from 1, begins.
    Node(u32),
    /// The row of this number begins, at its start or behind an earlier row.
    Row(u32, Option<u32>),
    /// The pull of this number raises the present row, by what it asks for at this value.
    Raise(u32, u32),
    /// The truth of the formula.
    Verdict(bool),
}
