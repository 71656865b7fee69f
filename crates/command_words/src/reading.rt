//! Whether the rule takes the words.
ghost use Rattle.std.specs.Prelude.{◌≡◌, Some, None, IfOk, OnOk, is_some, map};
ghost use Rattle.std.specs.String.{string_bytes};
ghost use Rattle.command_words.specs.Rule.{is_used, nothing_given, with_use, waiting, with_flag};
ghost use Rattle.command_words.specs.Rule.{step, with_word, with_place, given, kind_of};
ghost use Rattle.command_words.specs.inside.Seen.{given_seen, kind_seen, Took};

use crate::kind::{WordKind, begins_dash, kind_of};
use pota_base::NoMemory;
use std::alloc::Global;

/// A use of an option, a flag or a positional.
#[derive(Clone, Copy, Debug)]
pub struct Part<'a> {
    pub name: &'static str,
    pub value: &'a str,
}

/// What the words so far have given.
#[derive(Debug, Drop)]
pub struct Reading<'a> {
    parts: Vec<Part<'a>>,
    /// The option that waits for its value.
    waits: Option<&'static str>,
    /// How many positionals there were.
    places: u32,
}

impl<'a> Reading<'a> {
    fn new(alloc: Global) -> Reading<'a>
        ensures { given_seen result ≡ nothing_given }
    {
        Reading {
            parts: Vec::new(alloc),
            waits: None,
            places: 0,
        }
    }

    fn is_used(&self, name: &str) -> bool
        ensures { result ≡ is_used name.now (given_seen self.now).uses }
    {
        self.parts.iter().any(|part| part.name == name)
    }

    fn add(&mut self, name: &'static str, value: &'a str) -> Result<(), NoMemory>
        ensures { OnOk result (given_seen self.new
            ≡ with_use name.entry.now value.entry.now (given_seen self.old)) }
    {
        self.parts.push(Part { name, value })?;
        self.waits = None;
        Ok(())
    }

    // The option waits for its value. False where it stood before.
    fn wait(&mut self, name: &'static str) -> bool
        ensures { Took (waiting name.entry.now (given_seen self.old)) result (given_seen self.new) }
    {
        if self.is_used(name) {
            return false;
        }
        self.waits = Some(name);
        true
    }

    // False where the flag stood before.
    fn add_flag(&mut self, name: &'static str) -> Result<bool, NoMemory>
        ensures { IfOk result (λ taken.
            Took (with_flag name.entry.now (given_seen self.old)) taken (given_seen self.new)) }
    {
        if self.is_used(name) {
            return Ok(false);
        }
        self.add(name, "true")?;
        Ok(true)
    }

    // The command, then the formula. False for a third.
    fn add_place(&mut self, word: &'a str) -> Result<bool, NoMemory>
        ensures { IfOk result (λ taken. Took
            (with_place self.old.places word.entry.now (given_seen self.old))
            taken (given_seen self.new)) }
    {
        match self.places {
            0 => {
                self.add("command", word)?;
                self.places = 1;
                Ok(true)
            }
            1 => {
                self.add("formula", word)?;
                self.places = 2;
                Ok(true)
            }
            _ => Ok(false),
        }
    }

    fn add_word(&mut self, word: &'a str) -> Result<bool, NoMemory>
        ensures { IfOk result (λ taken. Took
            (with_word (kind_of word.entry.now) word.entry.now (given_seen self.old))
            taken (given_seen self.new)) }
    {
        match kind_of(word) {
            WordKind::TakesValue(name) => Ok(self.wait(name)),
            WordKind::Flag(name) => self.add_flag(name),
            WordKind::Unknown => Ok(false),
            WordKind::Positional => self.add_place(word),
        }
    }

    // Takes the next word. False where the rule refuses it.
    fn take(&mut self, word: &'a str) -> Result<bool, NoMemory>
        ensures { IfOk result (λ taken. Took
            (step (Some (given_seen self.old)) word.entry.now) taken (given_seen self.new)) }
    {
        let Some(name) = self.waits else {
            return self.add_word(word);
        };
        if begins_dash(word) {
            return Ok(false);
        }
        self.add(name, word)?;
        Ok(true)
    }
}

/// Whether the rule takes the words.
pub fn are_in_form(alloc: Global, words: &[String]) -> Result<bool, NoMemory>
    ensures { IfOk result (λ yes. yes ≡ is_some (given (map string_bytes words.now))) }
{
    let mut reading = Reading::new(alloc);
    for word in words {
        if !reading.take(word.as_str())? {
            return Ok(false);
        }
    }
    Ok(reading.waits.is_none() && reading.places == 2)
}
