//! A row of imports: an answer, ` | `, the lengths of the fronts of a text that are to be imported,
//! as `FROM TO`, or `whole`, ` | ` and the text. The answer is `fault CODE LINE`, or `log`, the
//! names of the processes and the events, each as `NAME LINE CLOCK N` with its host line, its clock
//! and its number, or their count where there are more than four.
//!
//! In the text, between two `~` stand a number, a space and what is repeated so many times.

use crate::importing::answer_of;
use crate::texts::{Fronts, fronts_of, text_of};
use std::alloc::{AllocError, Global};

// The answer, the lengths of the fronts, and the text of a row.
fn parts_of(line: &str) -> Option<(&str, &str, &str)> {
    let (wanted, behind) = line.split_once(" | ")?;
    let (fronts, text) = behind.split_once(" | ")?;
    Some((wanted, fronts, text))
}

// The first answer to a front of the text that is another than this one.
fn first_other(
    alloc: Global,
    wanted: &str,
    text: &[u8],
    fronts: Fronts,
) -> Result<Option<String>, AllocError> {
    for len in fronts.from..=fronts.to {
        if len > text.len() {
            return Ok(Some(format!(in alloc; "it has {} bytes", text.len())?));
        }
        let found = answer_of(alloc, &text[..len])?;
        if found.as_str() != wanted {
            return Ok(Some(format!(in alloc; "{} bytes: {}", len, found.as_str())?));
        }
    }
    Ok(None)
}

/// What came otherwise than the row with these lines says, `None` where nothing did.
pub fn judge(alloc: Global, row: &[String]) -> Result<Option<String>, AllocError> {
    let [line] = row else {
        return Ok(Some(format!(in alloc; "not one line")?));
    };
    let Some((wanted, fronts, text)) = parts_of(line.as_str()) else {
        return Ok(Some(format!(in alloc; "no text")?));
    };
    let text = text_of(alloc, text)?;
    first_other(
        alloc,
        wanted,
        text.as_slice(),
        fronts_of(fronts, text.len()),
    )
}
