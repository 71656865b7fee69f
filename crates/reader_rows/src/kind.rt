//! What the rows of a section are.

use crate::{cases, changed};
use std::alloc::Global;
use std::io;
use std::thread::Threads;

/// What the rows of a section are.
#[derive(Clone, Copy, PartialEq, Eq)]
pub enum Kind {
    /// Cases of a log and a report of it, of which a view is made.
    Views,
    /// Cases of a log and its certificate, which is verified.
    Certificates,
    /// Cases of a log alone: its certificate is the one that the analyser's call writes.
    Certified,
    /// One case of a log and its certificate, and behind it a line of what must come of each change
    /// of the certificate.
    Changed,
}

impl Kind {
    /// The kind of this name.
    pub fn named(word: &str) -> Option<Kind> {
        match word {
            "views" => Some(Kind::Views),
            "certificates" => Some(Kind::Certificates),
            "certified" => Some(Kind::Certified),
            "changed" => Some(Kind::Changed),
            _ => None,
        }
    }

    /// Runs the rows of the section of this name.
    pub fn judge<R: Threads + Sync + Print>(
        self,
        rt: &R,
        alloc: Global,
        name: &str,
        rows: &str,
    ) -> io::Result<()> {
        match self {
            Kind::Views | Kind::Certificates | Kind::Certified => {
                cases::judge_all(rt, alloc, self, name, rows)
            }
            Kind::Changed => changed::judge_all(rt, alloc, name, rows),
        }
    }
}
