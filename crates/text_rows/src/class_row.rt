//! A row of classes: an answer, ` | ` and the text of a formula. The answer is `fault CODE PLACE`,
//! with the place counted from 0, or `disjuncts N ..` with the number of parts of each disjunct,
//! inner ones not counted.

use crate::classing::class_of;
use std::alloc::{AllocError, Global};

/// What came otherwise than the row with these lines says, `None` where nothing did.
pub fn judge(alloc: Global, row: &[String]) -> Result<Option<String>, AllocError> {
    let [line] = row else {
        return Ok(Some(format!(in alloc; "not one line")?));
    };
    let Some((wanted, formula)) = line.as_str().split_once(" | ") else {
        return Ok(Some(format!(in alloc; "no formula")?));
    };
    let found = class_of(alloc, formula.as_bytes())?;
    if found.as_str() == wanted {
        return Ok(None);
    }
    Ok(Some(found))
}
