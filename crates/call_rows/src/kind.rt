//! What the rows of a section are.

use crate::{cases, left_out};
use std::alloc::Global;
use std::io;
use std::thread::Threads;

/// What the rows of a section are.
#[derive(Clone, Copy, PartialEq, Eq)]
pub enum Kind {
    /// Cases. Where one names the fault of its log, the log is read and checked besides.
    Worked,
    /// Cases made from the definitions by a slow reading that lists all consistent cuts and shares
    /// nothing with this program, and what the pages for users show. Each run of a case over one
    /// log is made twice more, from the logs of its processes, merged in two orders: it must give
    /// the same last report, as that of one batch.
    Outside,
    /// Seeds of logs, which are answered with clocks left out as with all of them.
    LeftOut,
}

impl Kind {
    /// The kind of this name.
    pub fn named(word: &str) -> Option<Kind> {
        match word {
            "worked" => Some(Kind::Worked),
            "outside" => Some(Kind::Outside),
            "left-out" => Some(Kind::LeftOut),
            _ => None,
        }
    }

    /// Runs the rows of the section of this name.
    pub fn judge<R: Threads + Sync + Print>(
        self,
        rt: &R,
        alloc: Global,
        name: &str,
        rows: &str,
    ) -> io::Result<()> {
        match self {
            Kind::Worked | Kind::Outside => cases::judge_all(rt, alloc, self, name, rows),
            Kind::LeftOut => left_out::judge_all(rt, alloc, rows),
        }
    }
}
