//! What a witness tells, as a text.

use std::alloc::{AllocError, Global};
use witness::{Path, Witness};

// The kind and the goal of a path, and behind `by` its steps.
fn path_text(alloc: Global, kind: &str, path: &Path) -> Result<String, AllocError> {
    let mut text = format!(in alloc; "{} ", kind)?;
    for (process, count) in path.goal.as_slice().iter().enumerate() {
        if process > 0 {
            text.push(',')?;
        }
        let count = format!(in alloc; "{}", count)?;
        text.push_str(count.as_str())?;
    }
    text.push_str(" by")?;
    push_steps(alloc, &mut text, path)?;
    Ok(text)
}

fn push_steps(alloc: Global, text: &mut String, path: &Path) -> Result<(), AllocError> {
    for step in path.steps.as_slice() {
        let step = format!(in alloc; " {},{}", step.process, step.position)?;
        text.push_str(step.as_str())?;
    }
    Ok(())
}

/// What the witness tells: its kind, and what is behind it.
pub fn told(alloc: Global, witness: &Witness) -> Result<String, AllocError> {
    match witness {
        Witness::Nothing => String::from_str(alloc, "none"),
        Witness::Reach(path) => path_text(alloc, "reach", path),
        Witness::Against(path) => path_text(alloc, "against", path),
        Witness::Always(path) => path_text(alloc, "always", path),
        Witness::StuckStart => String::from_str(alloc, "stuck start"),
        Witness::StuckFinish => String::from_str(alloc, "stuck finish"),
        Witness::StuckPair(first, other) => format!(in alloc;
            "stuck pair {},{} {},{}",
            first.process, first.position, other.process, other.position
        ),
    }
}
