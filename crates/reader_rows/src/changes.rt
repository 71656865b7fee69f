//! Changes of one line of a certificate.

use std::alloc::{AllocError, Global};

/// What is changed at a line.
#[derive(Clone, Copy)]
pub enum What {
    Dropped,
    Doubled,
    /// It stands behind the next line.
    Exchanged,
    /// Its word of this index, a number, is one more.
    More(usize),
    /// Its word of this index, a number, is one less.
    Less(usize),
}

/// A change of the line of this index.
#[derive(Clone, Copy)]
pub struct Change {
    pub at: usize,
    pub what: What,
}

// The number one less, also where it is 0.
fn less(alloc: Global, number: u64) -> Result<String, AllocError> {
    if number == 0 {
        return String::from_str(alloc, "-1");
    }
    format!(in alloc; "{}", number.saturating_sub(1))
}

// What becomes of the word of this index.
fn changed_word(alloc: Global, what: What, index: usize, word: &str) -> Result<String, AllocError> {
    match (what, word.parse::<u64>()) {
        (What::More(at), Ok(number)) if at == index => {
            format!(in alloc; "{}", number.saturating_add(1))
        }
        (What::Less(at), Ok(number)) if at == index => less(alloc, number),
        _ => String::from_str(alloc, word),
    }
}

// What becomes of the words of the line.
fn changed_line(alloc: Global, what: What, line: &str) -> Result<String, AllocError> {
    let mut changed = String::new(alloc);
    for (index, word) in line.split(' ').enumerate() {
        if index > 0 {
            changed.push(' ')?;
        }
        changed.push_str(changed_word(alloc, what, index, word)?.as_str())?;
    }
    Ok(changed)
}

// Appends the line.
fn put(text: &mut String, line: &str) -> Result<(), AllocError> {
    text.push_str(line)?;
    text.push('\n')
}

impl Change {
    /// The name of the change, which counts lines and words from 1.
    pub fn name(self, alloc: Global) -> Result<String, AllocError> {
        let line = self.at.saturating_add(1);
        match self.what {
            What::Dropped => format!(in alloc; "line {line} dropped"),
            What::Doubled => format!(in alloc; "line {line} doubled"),
            What::Exchanged => format!(in alloc; "line {line} exchanged"),
            What::More(index) => {
                format!(in alloc; "line {line} word {} one more", index.saturating_add(1))
            }
            What::Less(index) => {
                format!(in alloc; "line {line} word {} one less", index.saturating_add(1))
            }
        }
    }

    // Appends what becomes of the line, in front of this one.
    fn put_changed(
        self,
        alloc: Global,
        text: &mut String,
        line: &str,
        next: &str,
    ) -> Result<(), AllocError> {
        match self.what {
            What::Dropped => {}
            What::Doubled => {
                put(text, line)?;
                put(text, line)?;
            }
            What::Exchanged => {
                put(text, next)?;
                put(text, line)?;
            }
            What::More(_) | What::Less(_) => {
                put(text, changed_line(alloc, self.what, line)?.as_str())?;
            }
        }
        Ok(())
    }

    // Whether the line of this index was put with the one before.
    fn has_put(self, index: usize) -> bool {
        matches!(self.what, What::Exchanged) && index == self.at.saturating_add(1)
    }

    /// What becomes of the lines.
    pub fn text(self, alloc: Global, lines: &[&str]) -> Result<String, AllocError> {
        let mut text = String::new(alloc);
        for (index, line) in lines.iter().enumerate() {
            if index == self.at {
                let next = lines.get(index.saturating_add(1)).copied().unwrap_or("");
                self.put_changed(alloc, &mut text, line, next)?;
            } else if !self.has_put(index) {
                put(&mut text, line)?;
            }
        }
        Ok(text)
    }
}

// Adds the changes of the line of this index.
fn add_changes(
    changes: &mut Vec<Change>,
    at: usize,
    line: &str,
    has_next: bool,
) -> Result<(), AllocError> {
    for what in [What::Dropped, What::Doubled] {
        changes.push(Change { at, what })?;
    }
    if has_next {
        let what = What::Exchanged;
        changes.push(Change { at, what })?;
    }
    for (index, word) in line.split(' ').enumerate() {
        if word.parse::<u64>().is_ok() {
            for what in [What::More(index), What::Less(index)] {
                changes.push(Change { at, what })?;
            }
        }
    }
    Ok(())
}

/// The changes of the lines, in order: each line dropped, doubled and exchanged with the next, and
/// each number in it one more and one less.
pub fn changes_of(alloc: Global, lines: &[&str]) -> Result<Vec<Change>, AllocError> {
    let mut changes = Vec::new(alloc);
    for (at, line) in lines.iter().enumerate() {
        let has_next = at.saturating_add(1) < lines.len();
        add_changes(&mut changes, at, line, has_next)?;
    }
    Ok(changes)
}
