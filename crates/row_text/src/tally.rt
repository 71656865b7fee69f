//! How many rows came out as they must.

use std::io;

/// How many rows there were, and how many of them came out as they must.
#[derive(Drop)]
pub struct Tally {
    all: u64,
    good: u64,
}

impl Tally {
    /// There was none.
    pub const fn new() -> Tally {
        Tally { all: 0, good: 0 }
    }

    /// Counts a row of this name, and tells what came out otherwise than it must.
    ///
    /// # Errors
    ///
    /// Where it can't be printed.
    pub fn count<R: Print>(&mut self, rt: &R, name: &str, said: Option<String>) -> io::Result<()> {
        self.all = self.all.saturating_add(1);
        match said {
            Some(said) => println!(rt; "{name}: {said}")?,
            None => self.good = self.good.saturating_add(1),
        }
        Ok(())
    }

    /// Tells how many of the rows of this name came out as they must, which are called so.
    ///
    /// # Errors
    ///
    /// Where it can't be printed.
    pub fn print<R: Print>(&self, rt: &R, name: &str, rows: &str) -> io::Result<()> {
        println!(rt; "{name}: {} of {} {rows}", self.good, self.all)?;
        Ok(())
    }
}
