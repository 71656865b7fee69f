//! The bytes of a certificate, read piece by piece to the end of an input.
//!
//! `read_certificate` takes them to a verifier that took no line, and tells whether they are
//! accepted, at which line they are refused, or that a read failed before either (`tells`). A line
//! is refused also where a byte of it is one too many: behind the last line, or byte 8,193. Bytes
//! that end early are refused at the line that is missing. Nothing is read behind a refused line,
//! since no byte there changes the refusal (`a_refusal_stays`). Bytes have one answer, by a law of
//! `certificate_text`.
//!
//! The look-ups of a line are those that the verifier has for it; no clause sums them up. Not said:
//! how much memory there is, and how long a call takes.
#![tactic(auto)]

mod input;
mod laws;
mod reading;
mod split;
mod told;

pub use laws::a_refusal_stays;
pub use reading::read_certificate;
pub use told::Told;
