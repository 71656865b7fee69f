ghost use Rattle.std.specs.Prelude.{◌≡◌, ℕ, ◌+◌, ◌<◌, ◌≤◌, true, false, length, slice_index_or};
ghost use Rattle.std.specs.Prelude.{slice_set, IfSome, IfNone};
ghost use Rattle.pota_base.specs.Limits.{most_processes};
ghost use Rattle.pull_system.specs.Marks.{marked};

use pota_base::MOST_PROCESSES;
use std::marker::Model;

/// A mark for each process: its component has risen since the pulls from it were looked at. It
/// takes no memory.
#[derive(Debug, Drop)]
pub(crate) struct Risen {
    marks: [bool; MOST_PROCESSES],
}

impl Model for Risen {
    ghost use Rattle.std.specs.Prelude.{Bool, List};

    ghost Value = { List Bool };

    ghost view = { λ risen. risen.marks };
}

impl Risen {
    /// No process is marked.
    pub fn new() -> Risen
        ensures none { (process : ℕ) → slice_index_or result process false ≡ false }
        ensures count { marked result ≡ 0 }
        ensures size { length result ≡ most_processes }
    {
        Risen {
            marks: [false; MOST_PROCESSES],
        }
    }

    /// Marks a process.
    #[tactic(auto, using(pull_system::proofs::Marks::mark_more))]
    pub fn mark(&mut self, process: u32)
        requires { process < most_processes }
        ensures mark { self.new ≡ slice_set self.old process true }
        ensures count { marked self.new ≤ marked self.old + 1 }
        ensures size { length self.new ≡ most_processes }
    {
        self.marks[process as usize] = true;
    }

    /// Takes the mark off the first process that is marked, and gives that process.
    pub fn take(&mut self) -> Option<u32>
        ensures there { IfSome result (λ process. slice_index_or self.old process false ≡ true) }
        ensures unmarked { IfSome result (λ process. self.new ≡ slice_set self.old process false) }
        ensures count { IfSome result (λ _. marked self.new + 1 ≡ marked self.old) }
        ensures none { IfNone result
            ((process : ℕ) → slice_index_or self.old process false ≡ false) }
        ensures end { IfNone result (self.new ≡ self.old) }
        ensures size { length self.new ≡ most_processes }
    {
        let process = self.marks.iter().position(|&mark| mark)?;
        self.marks[process] = false;
        Some(process as u32)
    }
}
