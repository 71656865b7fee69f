//! The texts of rows of imports.

use row_text::{put_piece, put_times};
use std::alloc::{AllocError, Global};

/// The lengths of the fronts of a text, the last one with.
#[derive(Clone, Copy)]
pub struct Fronts {
    pub from: usize,
    pub to: usize,
}

/// The lengths that the word says, and else that of the whole text.
pub fn fronts_of(word: &str, len: usize) -> Fronts {
    if let Some((from, to)) = word.split_once(" ") {
        if let Ok(from) = from.parse::<usize>() {
            if let Ok(to) = to.parse::<usize>() {
                return Fronts { from, to };
            }
        }
    }
    Fronts { from: len, to: len }
}

/// The bytes that a text of a row stands for.
pub fn text_of(alloc: Global, row: &str) -> Result<Vec<u8>, AllocError> {
    let mut text = Vec::new(alloc);
    let mut is_repeated = false;
    for piece in row.split("~") {
        if !is_repeated {
            put_piece(&mut text, piece)?;
        } else if let Some((count, repeated)) = piece.split_once(" ") {
            let _is_number = put_times(&mut text, count, repeated)?;
        }
        is_repeated = !is_repeated;
    }
    Ok(text)
}
